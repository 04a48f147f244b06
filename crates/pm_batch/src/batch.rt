//! Jobs that convert bytes to bytes. Each job is a function that maps its input to its product.
ghost use Rattle.std.specs.Prelude.{◌≡◌, IfOk};
ghost use Rattle.pm_batch.specs.Batches.{made_of, reads_input};
ghost use Rattle.pm_batch.specs.Products.{product_of};

use crate::assembly::{assemble, find_faults, list_symbols};
use crate::files::{check_image, file, new_volume, repair_volume, salvage_image, takes_input};
use crate::refusal::Refusal;
use pm_check::Form;
use pm_filer::FileCommand;
use pm_jobs::AsmOutput;
use pm_volume::{Volume, VolumeFault};
use std::alloc::{AllocError, Global};

/// A job that converts bytes to bytes.
#[derive(Drop)]
pub enum Batch {
    /// The assembly of a source text, with one of the outputs of `asm`.
    Asm(AsmOutput),
    /// A command on a volume. If the image is no volume, `opened` is the fault and the job is refused. `form` is the
    /// form of the image for the message of this refusal.
    Files {
        opened: Result<Volume, VolumeFault>,
        form: Option<Form>,
        command: FileCommand,
    },
    /// The creation of a volume with this name and number of blocks.
    New {
        name: String,
        blocks: u16,
    },
    /// The repair of an image: the first copy of the directory is replaced if it is damaged.
    Repair {
        image: Vec<u8>,
    },
    /// The check of an image for faults.
    Check {
        image: Vec<u8>,
    },
    /// The copy of the files of an image to a new volume. If `second` is true, the second copy of the directory is
    /// used.
    Salvage {
        image: Vec<u8>,
        second: bool,
    },
}

impl Batch {
    /// Returns true if the job reads its whole input, and false if the job reads no input.
    pub fn reads_input(&self) -> bool
        ensures value { result ≡ reads_input self.now }
    {
        match self {
            Batch::Asm(_) => true,
            Batch::Files {
                opened,
                command,
                ..
            } => opened.is_ok() && takes_input(command),
            Batch::New { .. } | Batch::Repair { .. } | Batch::Check { .. } => false,
            Batch::Salvage { .. } => false,
        }
    }
}

/// The product of a job: what the job writes, saves or refuses.
#[derive(Drop)]
pub enum Made {
    /// The bytes that are written.
    Bytes(Vec<u8>),
    /// The image of a volume, which is saved.
    Image(Vec<u8>),
    /// A refusal. The string, if it is given, is what a terminal shows instead of the reason for the refusal. For an
    /// assembler source text it has the line that the refusal names and a hint.
    Refused(Refusal, Option<String>),
    /// A report on an image or an assembler source text, which is written, and the refusal of this image or text, if it
    /// has faults. The string, if it is given, is what a terminal shows instead of the reason for the refusal.
    Judged(Vec<u8>, Option<Refusal>, Option<String>),
    /// A text that is written, and the image of a volume that is saved.
    Saved(Vec<u8>, Vec<u8>),
}

/// Returns the product of `job` for `input`. If `job` reads no input, `input` must be empty.
pub fn make(alloc: Global, job: Batch, input: Vec<u8>) -> Result<Made, AllocError>
    ensures made { IfOk result (λ made. product_of made ≡ made_of job input.items) }
{
    match job {
        Batch::Asm(AsmOutput::File) => assemble(alloc, input, false),
        Batch::Asm(AsmOutput::Listing) => assemble(alloc, input, true),
        Batch::Asm(AsmOutput::Faults) => find_faults(alloc, input),
        Batch::Asm(AsmOutput::Symbols) => list_symbols(alloc, input),
        Batch::Files {
            opened,
            form,
            command,
        } => file(alloc, opened, form, command, input),
        Batch::New { name, blocks } => new_volume(alloc, name.as_str(), blocks),
        Batch::Repair { image } => Ok(repair_volume(alloc, image)),
        Batch::Check { image } => check_image(alloc, image),
        Batch::Salvage { image, second } => salvage_image(alloc, &image, second),
    }
}

//! Creates the machine that executes a program, at the start of this program.
ghost use Rattle.std.specs.Prelude.{◌≡◌, ◌≢◌, Ok, Err, Some, None, IfOk, IfErr, OnOk, option_map, vec_items};
ghost use Rattle.pm_tool.specs.Disks.{booted, booted_about, disk_fault, first_bad, first_disk_fault, first_with};
ghost use Rattle.pm_tool.specs.Disks.{images_of, images_with, loaded, machine_at, start_about, state_in, system_about};
ghost use Rattle.pm_tool.specs.Disks.{unit_at};
ghost use Rattle.pm_tool.specs.Hex.{hex_spelled};

use crate::hex;
use crate::hint::{Hint, hint_for};
use crate::outcome::About;
use pm_batch::{Refusal, form_told};
use pm_check::{Form, form_seen};
use pm_filer::{SystemFault, put_system};
use pm_machine::{BootFault, Machine};
use pm_volume::{Volume, VolumeFault};
use std::alloc::{AllocError, Global};

/// The program that a machine is started with.
#[derive(Drop)]
pub(crate) enum Start {
    /// A program that is written as hexadecimal digits in `text`.
    Bare {
        text: Vec<u8>,
    },
    /// The code file `name` on the disk of unit 4. If `system` is given, it is a code file whose system segment is
    /// added.
    Booted {
        disks: [Option<Vec<u8>>; 6],
        name: String,
        system: Option<Vec<u8>>,
    },
}

/// The reason why no machine starts.
#[derive(Drop)]
pub(crate) struct NoStart {
    /// The refusal that the job returns.
    pub refusal: Refusal,
    /// The file that the refusal is about, if it is about a file.
    pub about: Option<About>,
    /// The text that a terminal shows instead of the refusal, if such a text exists.
    pub line: Option<String>,
    /// The hint, if one exists.
    pub hint: Option<Hint>,
}

/// An image that is no volume: its index in the list of images, its fault, and its form if the form is known.
type BadImage = (usize, VolumeFault, Option<Form>);

/// Returns the unit of the disk with index `place`: 4, 5, 9, 10, 11 or 12.
fn unit_at(place: usize) -> u8
    ensures unit { result ≡ unit_at place }
{
    match place {
        0 => 4,
        1 => 5,
        2 => 9,
        3 => 10,
        4 => 11,
        _ => 12,
    }
}

/// Returns the file that `fault` is about: the code file of the system, or the image on unit 4.
fn system_about(fault: SystemFault) -> About
    ensures about { result ≡ system_about fault }
{
    match fault {
        SystemFault::NoCode(_) | SystemFault::NoSegment => About::System,
        _ => About::Unit(4),
    }
}

/// Opens `image`, which has index `place`, as a volume. Returns None if `image` is None.
fn volume_of(image: Option<Vec<u8>>, place: usize) -> Result<Option<Volume>, BadImage>
    ensures volume { IfOk result (λ volume. volume ≡ option_map vec_items image) }
    ensures sound { OnOk result (disk_fault (option_map vec_items image) ≡ None) }
    ensures refusal { IfErr result (λ bad. disk_fault (option_map vec_items image) ≡ Some bad.1) }
    ensures place { IfErr result (λ bad. bad.0 ≡ place) }
{
    match image {
        None => Ok(None),
        Some(image) => match Volume::open(image) {
            Ok(volume) => Ok(Some(volume)),
            Err((fault, image)) => Err((place, fault, form_seen(&image))),
        },
    }
}

/// Opens all images as volumes. Returns the volumes, or the first image that is no volume.
fn volumes_of(disks: [Option<Vec<u8>>; 6]) -> Result<[Option<Volume>; 6], BadImage>
    ensures volumes { IfOk result (λ volumes. volumes ≡ images_of disks) }
    ensures sound { OnOk result (first_disk_fault (images_of disks) ≡ None) }
    ensures all { OnOk result (first_bad 0 (images_of disks) ≡ None) }
    ensures refusal { IfErr result (λ bad. first_disk_fault (images_of disks) ≡ Some bad.1) }
    ensures place { IfErr result (λ bad. first_bad 0 (images_of disks) ≡ Some bad.0) }
{
    let mut volumes = [None, None, None, None, None, None];
    let mut place = 0;
    'opening: for image in disks {
        volumes[place] = volume_of(image, place)?;
        place += 1;
    }
    Ok(volumes)
}

/// Returns the volume of unit 4, if it exists. If `system` is given, its system segment is added to the code file
/// `name` of this volume.
fn first_with(
    alloc: Global,
    volume: Option<Volume>,
    name: &str,
    system: Option<Vec<u8>>,
) -> Result<Option<Volume>, SystemFault>
    ensures image { IfOk result (λ new. first_with (option_map vec_items system) name.now volume ≡ Ok new) }
    ensures refusal { IfErr result (λ fault. fault ≢ SystemFault.NoMemory →
        first_with (option_map vec_items system) name.now volume ≡ Err fault) }
{
    let Some(system) = system else {
        return Ok(volume);
    };
    let Some(volume) = volume else {
        return Ok(None);
    };
    let volume = put_system(alloc, volume, name, system.as_slice())?;
    Ok(Some(volume))
}

/// Returns `volumes`. If `system` is given, its system segment is added to the code file `name` of the first volume.
fn with_system(
    alloc: Global,
    mut volumes: [Option<Volume>; 6],
    name: &str,
    system: Option<Vec<u8>>,
) -> Result<[Option<Volume>; 6], SystemFault>
    ensures images { IfOk result (λ new. images_with (option_map vec_items system) name.now volumes ≡ Ok new) }
    ensures refusal { IfErr result (λ fault. fault ≢ SystemFault.NoMemory →
        images_with (option_map vec_items system) name.now volumes ≡ Err (Refusal.System fault)) }
{
    let first = volumes[0].take();
    volumes[0] = first_with(alloc, first, name, system)?;
    Ok(volumes)
}

/// Creates the reason why no machine starts: the refusal, the file that it is about, and the hint.
fn no_start(refusal: Refusal, about: About, hint: Option<Hint>) -> NoStart
    ensures refusal { result.refusal ≡ refusal }
    ensures about { result.about ≡ Some about }
{
    let about = Some(about);
    NoStart {
        refusal,
        about,
        line: None,
        hint,
    }
}

/// Returns the machine at the start of the program `name` on unit 4, or the reason why no machine starts.
fn boot(
    alloc: Global,
    disks: [Option<Vec<u8>>; 6],
    name: &str,
    system: Option<Vec<u8>>,
) -> Result<Result<Machine, NoStart>, AllocError>
    ensures machine { IfOk result (λ machine. state_in machine
        ≡ booted (images_of disks) name.now (option_map vec_items system)) }
    ensures about { IfOk result (λ machine. IfErr machine (λ none. none.about
        ≡ Some (booted_about (first_bad 0 (images_of disks))
        (images_with (option_map vec_items system) name.now (images_of disks))))) }
{
    let volumes = match volumes_of(disks) {
        Ok(volumes) => volumes,
        Err((place, fault, form)) => {
            let unit = unit_at(place);
            let mut none = no_start(Refusal::Volume(fault), About::Unit(unit), None);
            none.line = form_told(alloc, fault, form);
            return Ok(Err(none));
        }
    };
    let volumes = match with_system(alloc, volumes, name, system) {
        Ok(volumes) => volumes,
        Err(SystemFault::NoMemory) => return Err(AllocError),
        Err(fault) => return Ok(Err(no_start(Refusal::System(fault), system_about(fault), None))),
    };
    let refused = match Machine::boot(alloc, volumes, 4, name, 0) {
        Ok(machine) => return Ok(Ok(machine)),
        Err(refused) => refused,
    };
    let fault = refused.0;
    let volumes = refused.1;
    if matches!(fault, BootFault::NoMemory) {
        return Err(AllocError);
    }
    let hint = hint_for(alloc, &volumes[0], name, fault);
    Ok(Err(no_start(Refusal::Boot(fault), About::Unit(4), hint)))
}

/// Creates the reason why no machine starts on a program in the input. The refusal is about no file.
fn no_bare_start(refusal: Refusal) -> NoStart
    ensures refusal { result.refusal ≡ refusal }
    ensures about { result.about ≡ None }
{
    NoStart {
        refusal,
        about: None,
        line: None,
        hint: None,
    }
}

/// Returns the machine at the start of the program in `text`, or the reason why no machine starts.
fn load(alloc: Global, text: &[u8]) -> Result<Result<Machine, NoStart>, AllocError>
    ensures machine { IfOk result (λ machine. state_in machine ≡ loaded (hex_spelled text.now)) }
    ensures about { IfOk result (λ machine. IfErr machine (λ none. none.about ≡ None)) }
{
    let Some(program) = hex::decode(alloc, text)? else {
        return Ok(Err(no_bare_start(Refusal::Hex)));
    };
    match Machine::raw(alloc, &program) {
        Ok(machine) => Ok(Ok(machine)),
        Err(BootFault::NoMemory) => Err(AllocError),
        Err(fault) => Ok(Err(no_bare_start(Refusal::Boot(fault)))),
    }
}

/// Returns the machine at the start of the program `start`, or the reason why no machine starts.
pub(crate) fn start_on(alloc: Global, start: Start) -> Result<Result<Machine, NoStart>, AllocError>
    ensures machine { IfOk result (λ machine. state_in machine ≡ machine_at start) }
    ensures about { IfOk result (λ machine. IfErr machine (λ none. none.about ≡ start_about start)) }
{
    match start {
        Start::Bare { text } => load(alloc, &text),
        Start::Booted {
            disks,
            name,
            system,
        } => boot(alloc, disks, name.as_str(), system),
    }
}

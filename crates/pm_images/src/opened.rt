//! Images that are opened as volumes, and the refusal of other images.
ghost use Rattle.std.specs.Prelude.{◌≡◌, IfOk};
ghost use Rattle.pm_images.specs.Opened.{IsOpened, IsRefusal};

use pm_filer::FileCommand;
use pm_files::{DiskFault, Store};
use pm_jobs::Reader;
use pm_output::into_memory;
use pm_tool::{Exit, Job, Outcome};
use pm_volume::Volume;
use std::alloc::Global;

/// Returns the outcome of `files list` for `image`, which is no volume. Returns `NoMemory` if memory is exhausted.
fn refusal_of(alloc: Global, image: Vec<u8>) -> Result<Outcome, DiskFault>
    ensures refusal { IfOk result (IsRefusal image.items) }
{
    let mut source = Reader::new(&[] as &[u8]);
    let command = FileCommand::List;
    let (outcome, _text) = into_memory(alloc, &mut source, Job::Files { image, command });
    match outcome.exit {
        Exit::Refused => Ok(outcome),
        // The job of an image that is no volume is refused, unless memory is exhausted.
        _ => Err(DiskFault::NoMemory),
    }
}

/// Reads the image at `path`, and opens it as a volume. If it is no volume, returns the outcome of `files list` for it,
/// which is a refusal. No file is changed or locked.
///
/// # Errors
///
/// - The image cannot be read: the error of `Store::read`.
/// - Out of memory: `NoMemory`.
pub fn open_at<S: Store>(
    alloc: Global,
    store: &mut S,
    path: &str,
) -> Result<Result<Volume, Outcome>, DiskFault>
    ensures opened { IfOk result (IsOpened (S.files store.old) path.now) }
    ensures stays { S.files store.new ≡ S.files store.old }
    ensures held { S.held store.new ≡ S.held store.old }
{
    let image = store.read(alloc, path)?;
    match Volume::open(image) {
        Ok(volume) => Ok(Ok(volume)),
        Err((_, image)) => Ok(Err(refusal_of(alloc, image)?)),
    }
}

//! Images that are converted to another format.
ghost use Rattle.std.specs.Prelude.{◌≡◌, IfOk, OnErr, OnOk, false, option_map, string_bytes};
ghost use Rattle.pm_convert.specs.Jobs.{items_of};
ghost use Rattle.pm_paths.specs.Locks.{held_at};
ghost use Rattle.pm_conversion.specs.Converted.{Converts, IsMade, PrintsFormats, WritesMade, source_of};

use pm_convert::{
    ConvertFault, Foreign, Made, convert, convert_back, formats_of, formats_text, is_sum_wrong,
    only, recognized,
};
use pm_files::{DiskFault, Store};
use pm_jobs::{Sink, write_all};
use pm_plan::{ConvertPlan, Target};
use std::alloc::Global;
use std::io::ErrorKind;

/// How a conversion ended.
#[derive(Clone, Copy)]
pub struct Converted {
    /// Why no image was written, or why the formats of the image do not state which one it has.
    pub fault: Option<ConvertFault>,
    /// Whether the checksum in the header of the image does not match.
    pub is_damaged: bool,
    /// What the image is, if it opens in no format.
    pub foreign: Option<Foreign>,
    /// Whether a format is given, and the image does not open in it.
    pub is_no_volume: bool,
}

/// Returns the path of the image whose format matters.
fn source_of(plan: &ConvertPlan) -> &str
    ensures path { result.now ≡ source_of plan.now.target (string_bytes plan.now.old) }
{
    match &plan.target {
        Target::As(_) => plan.old.as_str(),
        Target::Back(image) => image.as_str(),
    }
}

/// Prints a line for each format in which an image opens. Returns why none of them can be chosen.
fn print_formats<O: Sink>(
    alloc: Global,
    sink: &mut O,
    image: &[u8],
) -> Result<Option<ConvertFault>, DiskFault>
    requires well { (O.seen sink.old).failed ≡ false }
    ensures prints { IfOk result (PrintsFormats (O.seen sink.old) (O.seen sink.new) image.now) }
{
    let text = formats_text(alloc, image)?;
    let formats = formats_of(alloc, image)?;
    match write_all(sink, text.as_bytes()) {
        Ok(()) => Ok(only(&formats).err()),
        Err(_) => Err(DiskFault::Write(ErrorKind::Other)),
    }
}

/// Locks the file of the new image of a plan. A path at which no file exists is remembered, so that no file that another
/// program creates there is replaced.
fn hold<S: Store>(store: &mut S, plan: &ConvertPlan) -> Result<(), DiskFault>
    ensures stays { S.files store.new ≡ S.files store.old }
    ensures held { OnOk result (S.held store.new
        ≡ held_at (option_map string_bytes plan.now.new) (S.held store.old)) }
{
    match &plan.new {
        Some(new) => store.hold(new.as_str()),
        None => Ok(()),
    }
}

/// Returns the new image of a plan.
fn made_of<S: Store>(
    alloc: Global,
    store: &mut S,
    plan: &ConvertPlan,
    image: &[u8],
) -> Result<Made, DiskFault>
    ensures made { IfOk result (λ made. IsMade (S.files store.old) plan.now.target (string_bytes plan.now.old)
        plan.now.format image.now (items_of made)) }
    ensures stays { S.files store.new ≡ S.files store.old }
    ensures held { S.held store.new ≡ S.held store.old }
{
    match &plan.target {
        Target::As(to) => Ok(convert(alloc, image, plan.format, *to)?),
        Target::Back(_) => {
            let blocks = store.read(alloc, plan.old.as_str())?;
            Ok(convert_back(alloc, image, plan.format, &blocks)?)
        }
    }
}

/// Writes a new image. Returns why there is none.
fn write_made<S: Store>(
    store: &mut S,
    path: &str,
    made: Made,
) -> Result<Option<ConvertFault>, DiskFault>
    ensures writes { IfOk result (WritesMade (S.files store.old) (S.files store.new) path.now (items_of made)) }
    ensures held { S.held store.new ≡ S.held store.old }
    ensures unchanged { OnErr result (S.files store.new ≡ S.files store.old) }
{
    match made {
        Ok(image) => {
            store.put(path, &image)?;
            Ok(None)
        }
        Err(fault) => Ok(Some(fault)),
    }
}

/// Returns whether a format is given, and the image does not open in it.
fn is_no_volume(alloc: Global, plan: &ConvertPlan, image: &[u8]) -> Result<bool, DiskFault> {
    match plan.format {
        Some(format) => Ok(!formats_of(alloc, image)?.contains(&format)),
        None => Ok(false),
    }
}

/// Converts the image of a plan and writes the new image, or prints the formats in which the image opens. The sink must
/// not have failed before.
///
/// # Errors
///
/// No file has changed.
///
/// - The fault of locking the file of the new image.
/// - The fault of reading the image or the blocks. `NoMemory`.
/// - The fault of writing the new image, or of printing the formats.
pub fn do_convert<S: Store, O: Sink>(
    alloc: Global,
    store: &mut S,
    sink: &mut O,
    plan: &ConvertPlan,
) -> Result<Converted, DiskFault>
    requires well { (O.seen sink.old).failed ≡ false }
    ensures converts { IfOk result (Converts (S.files store.old) (S.files store.new) (O.seen sink.old)
        (O.seen sink.new) plan.now (option_map string_bytes plan.now.new)) }
    ensures held { OnOk result (S.held store.new
        ≡ held_at (option_map string_bytes plan.now.new) (S.held store.old)) }
    ensures unchanged { OnErr result (S.files store.new ≡ S.files store.old) }
{
    hold(store, plan)?;
    let image = store.read(alloc, source_of(plan))?;
    let is_no_volume = is_no_volume(alloc, plan, &image)?;
    let is_damaged = is_sum_wrong(&image);
    let foreign = recognized(&image);
    let fault = match &plan.new {
        Some(new) => {
            let made = made_of(alloc, store, plan, &image)?;
            write_made(store, new.as_str(), made)?
        }
        None => print_formats(alloc, sink, &image)?,
    };
    Ok(Converted {
        fault,
        is_damaged,
        foreign,
        is_no_volume,
    })
}

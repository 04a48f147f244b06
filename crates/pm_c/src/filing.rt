//! The calls that set the kind of a file and copy a file from another volume. For both jobs, one call is for the first
//! file with a name, and another call is for the file in a slot.
ghost use Rattle.std.specs.Prelude.{◌≡◌, ◌<◌, ◌≤◌, ◌↔◌, []};
ghost use Rattle.std.specs.Str.{IsUtf8};
ghost use Rattle.pm_filer.specs.Filed.{Copy, CopySlot, Kind, KindSlot};
ghost use Rattle.pm_tool.specs.Batches.{said_files};
ghost use Rattle.pm_c.specs.Answers.{Answers, RefusesKind};

use crate::status::{NO_KIND, NO_TEXT};
use crate::volumes::{command, none, text_of};
use pm_filer::FileCommand;
use std::alloc::Global;

/// Sets the kind of the first file with the name `name` to `kind`. The answer is the new image. Additional statuses:
///
/// - 14: `kind` is above 15. This is checked first.
/// - 12: `name` is not UTF-8.
#[unsafe(no_mangle)]
pub extern "C" fn pmach_kind(
    alloc: Global,
    image: &[u8],
    name: &[u8],
    kind: u8,
    out: &mut [u8],
    needed: &mut usize,
) -> u32
    ensures answers { kind ≤ 15 → Answers (said_files image.now (Kind name.now kind) [])
        result out.old out.new needed.new }
    ensures text { kind ≤ 15 → ((result ≡ NO_TEXT) ↔ ¬ (IsUtf8 name.now)) }
    ensures kind { 15 < kind → RefusesKind result out.old out.new needed.new }
{
    if kind > 15 {
        return none(NO_KIND, needed);
    }
    match text_of(alloc, name) {
        Ok(name) => command(
            alloc,
            image,
            &[],
            FileCommand::Kind(name, kind),
            out,
            needed,
        ),
        Err(code) => none(code, needed),
    }
}

/// Sets the kind of the file in slot `slot` to `kind`. A file with the same name in another slot is unchanged. The
/// answer is the new image. An additional status:
///
/// - 14: `kind` is above 15.
#[unsafe(no_mangle)]
pub extern "C" fn pmach_kind_slot(
    alloc: Global,
    image: &[u8],
    slot: u16,
    kind: u8,
    out: &mut [u8],
    needed: &mut usize,
) -> u32
    ensures answers { kind ≤ 15 → Answers (said_files image.now (KindSlot slot kind) [])
        result out.old out.new needed.new }
    ensures kind { 15 < kind → RefusesKind result out.old out.new needed.new }
{
    if kind > 15 {
        return none(NO_KIND, needed);
    }
    command(
        alloc,
        image,
        &[],
        FileCommand::KindSlot(slot, kind),
        out,
        needed,
    )
}

/// Adds a copy of a file to the volume: the first file with the name `name` on the volume in `from`, with its kind and
/// date. The answer is the new image. An additional status:
///
/// - 12: `name` is not UTF-8.
#[unsafe(no_mangle)]
pub extern "C" fn pmach_copy(
    alloc: Global,
    image: &[u8],
    name: &[u8],
    from: &[u8],
    out: &mut [u8],
    needed: &mut usize,
) -> u32
    ensures answers { Answers (said_files image.now (Copy name.now []) from.now) result out.old out.new needed.new }
    ensures text { (result ≡ NO_TEXT) ↔ ¬ (IsUtf8 name.now) }
{
    match text_of(alloc, name) {
        Ok(name) => {
            let copy = FileCommand::Copy(name, Vec::new(alloc));
            command(alloc, image, from, copy, out, needed)
        }
        Err(code) => none(code, needed),
    }
}

/// Adds a copy of a file to the volume: the file in slot `slot` of the volume in `from`, with its kind and date. The
/// name of the copy is `name`. The answer is the new image. An additional status:
///
/// - 12: `name` is not UTF-8.
#[unsafe(no_mangle)]
pub extern "C" fn pmach_copy_slot(
    alloc: Global,
    image: &[u8],
    slot: u16,
    name: &[u8],
    from: &[u8],
    out: &mut [u8],
    needed: &mut usize,
) -> u32
    ensures answers { Answers (said_files image.now (CopySlot slot name.now []) from.now)
        result out.old out.new needed.new }
    ensures text { (result ≡ NO_TEXT) ↔ ¬ (IsUtf8 name.now) }
{
    match text_of(alloc, name) {
        Ok(name) => {
            let copy = FileCommand::CopySlot(slot, name, Vec::new(alloc));
            command(alloc, image, from, copy, out, needed)
        }
        Err(code) => none(code, needed),
    }
}

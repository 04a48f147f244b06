//! The jobs on the file in a slot of the directory, with one call for each job. They do the same as the jobs on the
//! first file with a name. Slots are counted from 1, in the order of the lines of the list. A call returns 2 if the
//! slot has no file; the answer then states the reason.
ghost use Rattle.std.specs.Prelude.{◌≡◌, ◌↔◌, []};
ghost use Rattle.std.specs.Str.{IsUtf8};
ghost use Rattle.pm_filer.specs.Filed.{ChangeSlot, GetSlot, GetTextSlot, RemoveSlot};
ghost use Rattle.pm_tool.specs.Batches.{said_files};
ghost use Rattle.pm_c.specs.Answers.{Answers};

use crate::status::NO_TEXT;
use crate::volumes::{command, none, text_of};
use pm_filer::FileCommand;
use std::alloc::Global;

/// Copies the bytes of the file in slot `slot` to `out`.
#[unsafe(no_mangle)]
pub extern "C" fn pmach_get_slot(
    alloc: Global,
    image: &[u8],
    slot: u16,
    out: &mut [u8],
    needed: &mut usize,
) -> u32
    ensures answers { Answers (said_files image.now (GetSlot slot) []) result out.old out.new needed.new }
{
    command(alloc, image, &[], FileCommand::GetSlot(slot), out, needed)
}

/// Copies the text of the file in slot `slot` to `out`. The file must be a text file.
#[unsafe(no_mangle)]
pub extern "C" fn pmach_get_text_slot(
    alloc: Global,
    image: &[u8],
    slot: u16,
    out: &mut [u8],
    needed: &mut usize,
) -> u32
    ensures answers { Answers (said_files image.now (GetTextSlot slot) []) result out.old out.new needed.new }
{
    command(
        alloc,
        image,
        &[],
        FileCommand::GetTextSlot(slot),
        out,
        needed,
    )
}

/// Removes the file in slot `slot`. A file with the same name in another slot is unchanged. The answer is the new
/// image.
#[unsafe(no_mangle)]
pub extern "C" fn pmach_remove_slot(
    alloc: Global,
    image: &[u8],
    slot: u16,
    out: &mut [u8],
    needed: &mut usize,
) -> u32
    ensures answers { Answers (said_files image.now (RemoveSlot slot) []) result out.old out.new needed.new }
{
    command(
        alloc,
        image,
        &[],
        FileCommand::RemoveSlot(slot),
        out,
        needed,
    )
}

/// Changes the name of the file in slot `slot` to `new`. A file with the old name in another slot is unchanged. The
/// answer is the new image. An additional status:
///
/// - 12: `new` is not UTF-8.
#[unsafe(no_mangle)]
pub extern "C" fn pmach_change_slot(
    alloc: Global,
    image: &[u8],
    slot: u16,
    new: &[u8],
    out: &mut [u8],
    needed: &mut usize,
) -> u32
    ensures answers { Answers (said_files image.now (ChangeSlot slot new.now) []) result out.old out.new needed.new }
    ensures text { (result ≡ NO_TEXT) ↔ ¬ (IsUtf8 new.now) }
{
    match text_of(alloc, new) {
        Ok(new) => {
            command(
                alloc,
                image,
                &[],
                FileCommand::ChangeSlot(slot, new),
                out,
                needed,
            )
        }
        Err(code) => none(code, needed),
    }
}

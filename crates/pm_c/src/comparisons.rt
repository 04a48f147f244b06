//! The calls that compare the files of two volumes, and that find the form of an image.
ghost use Rattle.std.specs.Prelude.{◌≡◌, IfOk};
ghost use Rattle.pm_compare.specs.Lines.{lines_of};
ghost use Rattle.pm_compare.specs.Verdicts.{compared};
ghost use Rattle.pm_forms.specs.AutoForm.{found_form};
ghost use Rattle.pm_volume.specs.Directory.{image_fault};
ghost use Rattle.pm_c.specs.Answers.{HasAnswer};
ghost use Rattle.pm_c.specs.Searches.{Compares, GivesForm, compare_code};

use crate::disks::volume_of;
use crate::images::give_refusal;
use crate::searches::give_with;
use crate::status::{DIFFERENT, DONE, NO_MEMORY, REFUSED};
use crate::volumes::none;
use pm_compare::{Compared, compare, differs, lines_of};
use pm_forms::{Detected, detect};
use pm_tool::Refusal;
use pm_volume::Volume;
use std::alloc::{AllocError, Global};

/// Returns the status of a comparison with these results.
fn compare_code(files: &[Compared]) -> u32
    ensures value { result ≡ compare_code files.now }
    ensures answer { HasAnswer result }
{
    if differs(files) { DIFFERENT } else { DONE }
}

/// Compares the files of two volumes. Returns the lines and the status.
fn compared(alloc: Global, here: &Volume, there: &Volume) -> Result<(Vec<u8>, u32), AllocError>
    ensures lines { IfOk result (λ a. a.0.items ≡ lines_of (compared here.now there.now)) }
    ensures code { IfOk result (λ a. a.1 ≡ compare_code (compared here.now there.now)) }
    ensures answer { IfOk result (λ a. HasAnswer a.1) }
{
    let files = compare(alloc, here, there)?;
    let lines = lines_of(alloc, &files)?;
    let code = compare_code(&files);
    Ok((lines, code))
}

/// Compares the files of the volumes in `image` and `other`, and copies a line for each file to `out`:
///
/// - `same: NAME`: the two files have the same bytes and the same kind.
/// - `differ: NAME: byte N`: the bytes differ. `N` is the offset of the first byte that differs, from 0. If one file
///   begins with all bytes of the other, it is the length of the shorter file.
/// - `differ: NAME: kind`: only the kinds differ.
/// - `only here: NAME`, `only there: NAME`: only `image`, or only `other`, has the file.
///
/// The files of `image` come first, in directory order. Case is ignored in names. Returns 0 if all lines are `same`, or
/// if both volumes have no files.
///
/// Otherwise:
///
/// - 19: there is a line of another form. The answer has all lines.
/// - 2: `image` or `other` is no volume. The answer is the message `refused volume N`. `image` is checked first.
/// - 5: out of memory. The call has no answer.
/// - 7: the buffer is too short. Nothing is written to it.
#[unsafe(no_mangle)]
pub extern "C" fn pmach_compare(
    alloc: Global,
    image: &[u8],
    other: &[u8],
    out: &mut [u8],
    needed: &mut usize,
) -> u32
    ensures answers { Compares (image_fault image.now) (image_fault other.now) (compared image.now other.now)
        result out.old out.new needed.new }
{
    let here = match volume_of(alloc, image) {
        Ok(Ok(volume)) => volume,
        Ok(Err(fault)) => return give_refusal(alloc, Refusal::Volume(fault), out, needed),
        Err(_) => return none(NO_MEMORY, needed),
    };
    let there = match volume_of(alloc, other) {
        Ok(Ok(volume)) => volume,
        Ok(Err(fault)) => return give_refusal(alloc, Refusal::Volume(fault), out, needed),
        Err(_) => return none(NO_MEMORY, needed),
    };
    match compared(alloc, &here, &there) {
        Ok((lines, code)) => give_with(&lines, code, out, needed),
        Err(_) => none(NO_MEMORY, needed),
    }
}

/// Copies the name of the form that `--form auto` finds for `image` to `out`: `blocks`, `dos`, `swapped` or `2mg`. This
/// is the only one of these forms in which the image opens as a volume. If it opens in none of them, it is the first
/// other format that `pmach_check` reports for the image, and `blocks` if `pmach_check` reports none. Returns 0 if the
/// call succeeded.
///
/// Otherwise:
///
/// - 2: the image opens in several of these forms. The answer is the message `refused form 1`.
/// - 5: out of memory. The call has no answer.
/// - 7: the buffer is too short. Nothing is written to it.
#[unsafe(no_mangle)]
pub extern "C" fn pmach_form(alloc: Global, image: &[u8], out: &mut [u8], needed: &mut usize) -> u32
    ensures answers { GivesForm (found_form image.now) result out.old out.new needed.new }
{
    match detect(alloc, image) {
        Ok(Detected::One(form)) => give_with(form.name().as_bytes(), DONE, out, needed),
        Ok(Detected::Several(_)) => give_with(b"refused form 1", REFUSED, out, needed),
        Err(_) => none(NO_MEMORY, needed),
    }
}

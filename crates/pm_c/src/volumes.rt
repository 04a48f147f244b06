//! The jobs on volumes, with one call for each job. A call does not change the image that it is given. If a job changes
//! the volume, the answer is the new image.
//!
//! Each call with a parameter `name` returns 12 if the name is not UTF-8.
ghost use Rattle.std.specs.Prelude.{◌≡◌, ◌≢◌, ◌<◌, ◌≤◌, ◌⊎◌, ◌↔◌, [], IfOk, IfErr, OnOk, string_bytes};
ghost use Rattle.std.specs.Str.{IsUtf8};
ghost use Rattle.pm_volume.specs.Headers.{blank_fault};
ghost use Rattle.pm_filer.specs.Filed.{Change, Date, Duplicate, Get, GetText, Krunch, ListFiles};
ghost use Rattle.pm_filer.specs.Filed.{Put, PutText, Remove, Single, Zero, order_of};
ghost use Rattle.pm_tool.specs.Batches.{said_check, said_files, said_new, said_repair, said_salvage};
ghost use Rattle.pm_c.specs.Answers.{Answers, RefusesKind};

use crate::answers::answer;
use crate::status::{NO_KIND, NO_MEMORY, NO_TEXT};
use pm_filer::FileCommand;
use pm_tool::Job;
use std::alloc::Global;

/// Converts `name` to a string. The error is the status of a call without an answer.
pub(crate) fn text_of(alloc: Global, name: &[u8]) -> Result<String, u32>
    ensures text { IfOk result (λ text. string_bytes text ≡ name.now) }
    ensures none { IfErr result (λ code. (code ≡ NO_MEMORY) ⊎ (code ≡ NO_TEXT)) }
    ensures is_text { OnOk result (IsUtf8 name.now) }
    ensures no_text { IfErr result (λ code. (code ≡ NO_TEXT) ↔ ¬ (IsUtf8 name.now)) }
{
    let Ok(text) = str::from_utf8(name) else {
        return Err(NO_TEXT);
    };
    match String::from_str(alloc, text) {
        Ok(text) => Ok(text),
        Err(_) => Err(NO_MEMORY),
    }
}

/// Sets `needed` to 0 and returns `code`, the status of a call without an answer.
pub(crate) fn none(code: u32, needed: &mut usize) -> u32
    ensures code { result ≡ code }
    ensures needed { needed.new ≡ 0 }
{
    *needed = 0;
    code
}

/// Executes `command` on the volume in `image` and copies the answer to `out`. `input` is the input of the job. Returns
/// the status.
pub(crate) fn command(
    alloc: Global,
    image: &[u8],
    input: &[u8],
    command: FileCommand,
    out: &mut [u8],
    needed: &mut usize,
) -> u32
    ensures answers { Answers (said_files image.now (order_of command) input.now)
        result out.old out.new needed.new }
    ensures text { result ≢ NO_TEXT }
{
    match image.to_vec(alloc) {
        Ok(image) => answer(alloc, input, Job::Files { image, command }, out, needed),
        Err(_) => none(NO_MEMORY, needed),
    }
}

/// Copies the list of the files of the volume to `out`, in the form of the command `list` of the program.
#[unsafe(no_mangle)]
pub extern "C" fn pmach_list(alloc: Global, image: &[u8], out: &mut [u8], needed: &mut usize) -> u32
    ensures answers { Answers (said_files image.now ListFiles []) result out.old out.new needed.new }
{
    command(alloc, image, &[], FileCommand::List, out, needed)
}

/// Copies the bytes of the first file with the name `name` to `out`.
#[unsafe(no_mangle)]
pub extern "C" fn pmach_get(
    alloc: Global,
    image: &[u8],
    name: &[u8],
    out: &mut [u8],
    needed: &mut usize,
) -> u32
    ensures answers { Answers (said_files image.now (Get name.now) []) result out.old out.new needed.new }
    ensures text { (result ≡ NO_TEXT) ↔ ¬ (IsUtf8 name.now) }
{
    match text_of(alloc, name) {
        Ok(name) => command(alloc, image, &[], FileCommand::Get(name), out, needed),
        Err(code) => none(code, needed),
    }
}

/// Copies the text of the first file with the name `name` to `out`. The file must be a text file.
#[unsafe(no_mangle)]
pub extern "C" fn pmach_get_text(
    alloc: Global,
    image: &[u8],
    name: &[u8],
    out: &mut [u8],
    needed: &mut usize,
) -> u32
    ensures answers { Answers (said_files image.now (GetText name.now) []) result out.old out.new needed.new }
    ensures text { (result ≡ NO_TEXT) ↔ ¬ (IsUtf8 name.now) }
{
    match text_of(alloc, name) {
        Ok(name) => command(alloc, image, &[], FileCommand::GetText(name), out, needed),
        Err(code) => none(code, needed),
    }
}

/// Adds a file with the name `name`, the kind `kind` and these bytes. Its date is the last date of the volume. Returns
/// 14 if the kind is above 15; this is checked first.
#[unsafe(no_mangle)]
pub extern "C" fn pmach_put(
    alloc: Global,
    image: &[u8],
    name: &[u8],
    kind: u8,
    bytes: &[u8],
    out: &mut [u8],
    needed: &mut usize,
) -> u32
    ensures answers { kind ≤ 15 → Answers (said_files image.now (Put name.now kind []) bytes.now)
        result out.old out.new needed.new }
    ensures text { kind ≤ 15 → ((result ≡ NO_TEXT) ↔ ¬ (IsUtf8 name.now)) }
    ensures kind { 15 < kind → RefusesKind result out.old out.new needed.new }
{
    if kind > 15 {
        return none(NO_KIND, needed);
    }
    match text_of(alloc, name) {
        Ok(name) => {
            let put = FileCommand::Put(name, kind, Vec::new(alloc));
            command(alloc, image, bytes, put, out, needed)
        }
        Err(code) => none(code, needed),
    }
}

/// Adds a text file with the name `name` and the text `text`. Its date is the last date of the volume.
#[unsafe(no_mangle)]
pub extern "C" fn pmach_put_text(
    alloc: Global,
    image: &[u8],
    name: &[u8],
    text: &[u8],
    out: &mut [u8],
    needed: &mut usize,
) -> u32
    ensures answers { Answers (said_files image.now (PutText name.now []) text.now)
        result out.old out.new needed.new }
    ensures text { (result ≡ NO_TEXT) ↔ ¬ (IsUtf8 name.now) }
{
    match text_of(alloc, name) {
        Ok(name) => {
            let put = FileCommand::PutText(name, Vec::new(alloc));
            command(alloc, image, text, put, out, needed)
        }
        Err(code) => none(code, needed),
    }
}

/// Removes the first file with the name `name`.
#[unsafe(no_mangle)]
pub extern "C" fn pmach_remove(
    alloc: Global,
    image: &[u8],
    name: &[u8],
    out: &mut [u8],
    needed: &mut usize,
) -> u32
    ensures answers { Answers (said_files image.now (Remove name.now) []) result out.old out.new needed.new }
    ensures text { (result ≡ NO_TEXT) ↔ ¬ (IsUtf8 name.now) }
{
    match text_of(alloc, name) {
        Ok(name) => command(alloc, image, &[], FileCommand::Remove(name), out, needed),
        Err(code) => none(code, needed),
    }
}

/// Changes the name of the first file with the name `name` to `new`.
#[unsafe(no_mangle)]
pub extern "C" fn pmach_change(
    alloc: Global,
    image: &[u8],
    name: &[u8],
    new: &[u8],
    out: &mut [u8],
    needed: &mut usize,
) -> u32
    ensures answers { Answers (said_files image.now (Change name.now new.now) [])
        result out.old out.new needed.new }
    ensures text { result ≡ NO_TEXT → ¬ (IsUtf8 name.now) ⊎ ¬ (IsUtf8 new.now) }
{
    match (text_of(alloc, name), text_of(alloc, new)) {
        (Ok(name), Ok(new)) => {
            command(
                alloc,
                image,
                &[],
                FileCommand::Change(name, new),
                out,
                needed,
            )
        }
        (Err(code), _) => none(code, needed),
        (_, Err(code)) => none(code, needed),
    }
}

/// Moves the files of the volume together. Bad blocks remain unchanged.
#[unsafe(no_mangle)]
pub extern "C" fn pmach_krunch(
    alloc: Global,
    image: &[u8],
    out: &mut [u8],
    needed: &mut usize,
) -> u32
    ensures answers { Answers (said_files image.now Krunch []) result out.old out.new needed.new }
{
    command(alloc, image, &[], FileCommand::Krunch, out, needed)
}

/// Sets the last date of the volume. The year is 0 to 127, the month 1 to 12, and the day 1 to 31.
#[unsafe(no_mangle)]
pub extern "C" fn pmach_date(
    alloc: Global,
    image: &[u8],
    year: u8,
    month: u8,
    day: u8,
    out: &mut [u8],
    needed: &mut usize,
) -> u32
    ensures answers { Answers (said_files image.now (Date year month day) [])
        result out.old out.new needed.new }
{
    let date = FileCommand::Date(year, month, day);
    command(alloc, image, &[], date, out, needed)
}

/// Removes all files and sets the name of the volume to `name`.
#[unsafe(no_mangle)]
pub extern "C" fn pmach_zero(
    alloc: Global,
    image: &[u8],
    name: &[u8],
    out: &mut [u8],
    needed: &mut usize,
) -> u32
    ensures answers { Answers (said_files image.now (Zero name.now) []) result out.old out.new needed.new }
    ensures text { (result ≡ NO_TEXT) ↔ ¬ (IsUtf8 name.now) }
{
    match text_of(alloc, name) {
        Ok(name) => command(alloc, image, &[], FileCommand::Zero(name), out, needed),
        Err(code) => none(code, needed),
    }
}

/// Adds a second copy of the directory to the volume.
#[unsafe(no_mangle)]
pub extern "C" fn pmach_duplicate(
    alloc: Global,
    image: &[u8],
    out: &mut [u8],
    needed: &mut usize,
) -> u32
    ensures answers { Answers (said_files image.now Duplicate []) result out.old out.new needed.new }
{
    command(alloc, image, &[], FileCommand::Duplicate, out, needed)
}

/// Removes the second copy of the directory from the volume.
#[unsafe(no_mangle)]
pub extern "C" fn pmach_single(
    alloc: Global,
    image: &[u8],
    out: &mut [u8],
    needed: &mut usize,
) -> u32
    ensures answers { Answers (said_files image.now Single []) result out.old out.new needed.new }
{
    command(alloc, image, &[], FileCommand::Single, out, needed)
}

/// Copies the image of a new volume to `out`. The volume has the name `name`, `blocks` blocks of 512 bytes, and no
/// files.
#[unsafe(no_mangle)]
pub extern "C" fn pmach_volume(
    alloc: Global,
    name: &[u8],
    blocks: u16,
    out: &mut [u8],
    needed: &mut usize,
) -> u32
    ensures answers { Answers (said_new (blank_fault name.now blocks) name.now blocks [])
        result out.old out.new needed.new }
    ensures text { (result ≡ NO_TEXT) ↔ ¬ (IsUtf8 name.now) }
{
    match text_of(alloc, name) {
        Ok(name) => answer(alloc, &[], Job::New { name, blocks }, out, needed),
        Err(code) => none(code, needed),
    }
}

/// Repairs an image of which only the first copy of the directory is damaged: the valid second copy replaces the first.
/// The answer is the new image. An image that is a volume is copied unchanged.
#[unsafe(no_mangle)]
pub extern "C" fn pmach_repair(
    alloc: Global,
    image: &[u8],
    out: &mut [u8],
    needed: &mut usize,
) -> u32
    ensures answers { Answers (said_repair image.now []) result out.old out.new needed.new }
{
    match image.to_vec(alloc) {
        Ok(image) => answer(alloc, &[], Job::Repair { image }, out, needed),
        Err(_) => none(NO_MEMORY, needed),
    }
}

/// Copies a report on the faults of `image` to `out`. The image can have any bytes.
#[unsafe(no_mangle)]
pub extern "C" fn pmach_check(
    alloc: Global,
    image: &[u8],
    out: &mut [u8],
    needed: &mut usize,
) -> u32
    ensures answers { Answers (said_check image.now []) result out.old out.new needed.new }
{
    match image.to_vec(alloc) {
        Ok(image) => answer(alloc, &[], Job::Check { image }, out, needed),
        Err(_) => none(NO_MEMORY, needed),
    }
}

/// Copies files of `image` to a new volume. A file is copied if its directory entry is valid by itself. The entries are
/// read from the second copy of the directory if `second` is true, and otherwise from the first copy. The answer is the
/// new image.
#[unsafe(no_mangle)]
pub extern "C" fn pmach_salvage(
    alloc: Global,
    image: &[u8],
    second: bool,
    out: &mut [u8],
    needed: &mut usize,
) -> u32
    ensures answers { Answers (said_salvage image.now second []) result out.old out.new needed.new }
{
    match image.to_vec(alloc) {
        Ok(image) => answer(alloc, &[], Job::Salvage { image, second }, out, needed),
        Err(_) => none(NO_MEMORY, needed),
    }
}

//! The calls that search in an image: `find`, `grep` and `info` of the program, for one image.
ghost use Rattle.std.specs.Prelude.{◌≡◌, ◌≢◌, ◌⊎◌, ◌↔◌};
ghost use Rattle.std.specs.Str.{IsUtf8};
ghost use Rattle.pm_c.specs.Answers.{HasAnswer};
ghost use Rattle.pm_c.specs.Searches.{Finds, Gives, Greps, Searches, search_code};

use crate::buffer::give;
use crate::status::{DONE, NO_MEMORY, NO_TEXT, NOTHING, REFUSED};
use crate::volumes::none;
use pm_search::{Query, SearchEnding, search};
use std::alloc::Global;

/// Copies `bytes` to `out`. Returns `code`, or the status for a buffer that is too short.
pub(crate) fn give_with(bytes: &[u8], code: u32, out: &mut [u8], needed: &mut usize) -> u32
    requires answer { HasAnswer code }
    ensures gives { Gives bytes.now code result out.old out.new needed.new }
    ensures text { result ≢ NO_TEXT }
{
    match give(bytes, out, needed) {
        DONE => code,
        short => short,
    }
}

/// Returns the status of a search that ended with `ending`.
fn search_code(ending: SearchEnding) -> u32
    ensures value { result ≡ search_code ending }
    ensures answer { HasAnswer result }
{
    match ending {
        SearchEnding::Found => DONE,
        SearchEnding::Nothing => NOTHING,
        SearchEnding::Refused => REFUSED,
    }
}

/// Searches `query` in `image` and copies the lines to `out`. Returns the status.
fn search_in(
    alloc: Global,
    path: &[u8],
    image: &[u8],
    query: &Query<'_>,
    out: &mut [u8],
    needed: &mut usize,
) -> u32
    ensures answers { Searches path.now image.now query.now result out.old out.new needed.new }
    ensures text { (result ≡ NO_TEXT) ↔ ¬ (IsUtf8 path.now) }
{
    let Ok(path) = str::from_utf8(path) else {
        return none(NO_TEXT, needed);
    };
    match search(alloc, path, image, query) {
        Ok(searched) => {
            let code = search_code(searched.ending);
            give_with(&searched.text, code, out, needed)
        }
        Err(_) => none(NO_MEMORY, needed),
    }
}

/// Copies a line `PATH: NAME` for each file of `image` whose name matches `pattern` to `out`, in directory order. In a
/// pattern, `=` matches any characters. Upper and lower case are the same. The image can have any format in which it
/// opens. `path` is only printed. Returns 0 if a file was found.
///
/// Otherwise:
///
/// - 12: `pattern` or `path` is not UTF-8. The call has no answer.
/// - 18: no file was found. The answer is empty.
/// - 2: the image opens in no format, or in several formats. The answer is a line that states which: `PATH: no volume`
///   or `PATH: several formats: FORMAT, FORMAT ..`.
/// - 5: out of memory. The call has no answer.
/// - 7: the buffer is too short. Nothing is written to it.
#[unsafe(no_mangle)]
pub extern "C" fn pmach_find(
    alloc: Global,
    path: &[u8],
    image: &[u8],
    pattern: &[u8],
    out: &mut [u8],
    needed: &mut usize,
) -> u32
    ensures answers { Finds path.now image.now pattern.now result out.old out.new needed.new }
    ensures text { (result ≡ NO_TEXT) ↔ ¬ (IsUtf8 pattern.now) ⊎ ¬ (IsUtf8 path.now) }
{
    let Ok(pattern) = str::from_utf8(pattern) else {
        return none(NO_TEXT, needed);
    };
    let query = Query::Names(pattern);
    search_in(alloc, path, image, &query, out, needed)
}

/// Copies a line `PATH: NAME: N: LINE` for each line of the text files of `image` that contains the bytes `text` to
/// `out`. `N` is the number of the line, from 1. Case matters, and each line contains the empty text. The files are in
/// directory order. Returns 0 if a line was found. The other statuses are those of `pmach_find`; `text` can be any
/// bytes.
#[unsafe(no_mangle)]
pub extern "C" fn pmach_grep(
    alloc: Global,
    path: &[u8],
    image: &[u8],
    text: &[u8],
    out: &mut [u8],
    needed: &mut usize,
) -> u32
    ensures answers { Greps path.now image.now text.now result out.old out.new needed.new }
    ensures text { (result ≡ NO_TEXT) ↔ ¬ (IsUtf8 path.now) }
{
    let query = Query::Text(text);
    search_in(alloc, path, image, &query, out, needed)
}

/// Copies the line `PATH: FORMAT VOLUME: files F, free B, largest L` about `image` to `out`: its format, the name of
/// its volume, and the numbers of files, of free blocks, and of blocks of the largest free area. Returns 0 if the image
/// opens in exactly one format. The other statuses are those of `pmach_find`, without 18.
#[unsafe(no_mangle)]
pub extern "C" fn pmach_info(
    alloc: Global,
    path: &[u8],
    image: &[u8],
    out: &mut [u8],
    needed: &mut usize,
) -> u32
    ensures answers { Searches path.now image.now Query.Info result out.old out.new needed.new }
    ensures text { (result ≡ NO_TEXT) ↔ ¬ (IsUtf8 path.now) }
{
    search_in(alloc, path, image, &Query::Info, out, needed)
}

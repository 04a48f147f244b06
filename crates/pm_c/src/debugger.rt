//! A whole session of the debugger for a program on a disk, as one call.
ghost use Rattle.std.specs.Prelude.{◌≡◌, ◌≢◌, ◌↔◌, [], None};
ghost use Rattle.std.specs.Str.{IsUtf8};
ghost use Rattle.pm_tool.specs.Disks.{booted};
ghost use Rattle.pm_tool.specs.Said.{said_debug};
ghost use Rattle.pm_c.specs.Answers.{Answers};
ghost use Rattle.pm_c.specs.Codes.{on_unit_4};

use crate::answers::answer;
use crate::status::{NO_MEMORY, NO_TEXT};
use crate::volumes::{none, text_of};
use pm_tool::Job;
use std::alloc::Global;

/// Executes the commands of the debugger in `input`, one in each line, and copies the answers to `out`. The program is
/// the code file `name` on the volume in `image`, the disk of unit 4. The session succeeds even if the program ends
/// with an error.
///
/// Returns 0 if the call succeeded. Otherwise it returns one of these statuses:
///
/// - 2: the program does not start. The answer states the reason.
/// - 12: `name` is not UTF-8.
/// - 4, 5 or 7, as for `pmach_assemble`.
#[unsafe(no_mangle)]
pub extern "C" fn pmach_debug(
    alloc: Global,
    image: &[u8],
    name: &[u8],
    input: &[u8],
    out: &mut [u8],
    needed: &mut usize,
) -> u32
    ensures answers { Answers (said_debug [] (booted (on_unit_4 image.now) name.now None) input.now)
        result out.old out.new needed.new }
    ensures text { (result ≡ NO_TEXT) ↔ ¬ (IsUtf8 name.now) }
{
    let name = match text_of(alloc, name) {
        Ok(name) => name,
        Err(code) => return none(code, needed),
    };
    let Ok(image) = image.to_vec(alloc) else {
        return none(NO_MEMORY, needed);
    };
    let job = Job::Debug {
        disks: [Some(image), None, None, None, None, None],
        name,
        system: None,
        typed: Vec::new(alloc),
    };
    answer(alloc, input, job, out, needed)
}

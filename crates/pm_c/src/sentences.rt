//! The sentences that explain the numbers which calls return.
ghost use Rattle.std.specs.Prelude.{◌≡◌, option_map};
ghost use Rattle.pm_c.specs.Changes.{Fills};
ghost use Rattle.pm_c.specs.Sentences.{file_sentence, image_sentence, or_nothing, sentence};
ghost use Rattle.pm_c.specs.declared.status.TheConstants.{VERSION};

use crate::buffer::give;
use crate::status::VERSION;

/// Returns the sentence for `status`, if it is 17, 18 or 19, or a known number from 901 on: the number of a fault of a
/// format of images or of the system segment.
#[tactic(auto, unfolding(crate::specs::Sentences::image_sentence, crate::specs::Sentences::image_sentences))]
fn image_sentence(status: u32) -> Option<&'static str>
    ensures sentence { option_map (λ text. text.now) result ≡ image_sentence status }
{
    match status {
        17 => Some("no format has this name"),
        18 => Some("nothing was found"),
        19 => Some("a file differs, or is on one volume only"),
        901 => Some("the image is no volume in any supported format"),
        902 => Some("more than one format fits"),
        903 => Some("the image has no volume in this format"),
        904 => Some(
            "the volume does not have the length that the new format or the original image requires",
        ),
        1001 => Some("the system file is not a code file"),
        1002 => Some("the system file has no segment in slot 0"),
        1003 => Some("the program is not a code file"),
        1004 => Some("the program already has a segment in slot 0"),
        1005 => Some("cannot add the system segment to the program"),
        1101 => Some("the image opens in several formats"),
        1201 => Some("not all of the blocks are free"),
        _ => None,
    }
}

/// Returns the sentence for `status`, if it is 17, 18 or 19, or a known number from 401 on.
#[tactic(auto, unfolding(crate::specs::Sentences::file_sentence, crate::specs::Sentences::file_sentences))]
fn file_sentence(status: u32) -> Option<&'static str>
    ensures sentence { option_map (λ text. text.now) result ≡ file_sentence status }
{
    match status {
        401 => Some("the length of the image is not a multiple of 512 bytes"),
        402 => Some("the image is too short for a directory"),
        403 => Some("the header of the directory is damaged"),
        404 => Some("an entry of the directory is damaged"),
        405 => Some("the header of the directory states more than 77 files"),
        406 => Some(
            "the volume extends past the end of the image, or a file past the end of the volume",
        ),
        407 => Some("no free area is large enough"),
        408 => Some("the directory is full"),
        409 => Some("a file of that name exists"),
        410 => Some("invalid name"),
        411 => Some("no file of that name"),
        413 => Some("the first copy of the directory is damaged, the second is good"),
        414 => Some("a file is in the blocks of the second copy of the directory"),
        501 => Some("too many breakpoints or watched words"),
        502 => Some("not set"),
        503 => Some("odd address"),
        505 => Some("too many static links"),
        506 => Some("there is no run to continue"),
        601 => Some("the line is ill-formed or in the wrong place"),
        602 => Some("the line has an unknown mnemonic, directive or type keyword"),
        603 => Some(
            "the line has a number out of range, or ends a procedure with odd length or a wrong number of .JUMP lines",
        ),
        604 => Some("the line names a label that its procedure does not have"),
        605 => Some("the line defines a segment, a label or .EXIT again"),
        606 => Some("the line jumps backward, or more than 127 bytes forward"),
        607 => Some("the segment has more than 60,000 bytes"),
        701 => Some("the file has no dictionary"),
        702 => Some("the segment of the slot extends past the end of the file"),
        703 => Some("the length of the slot is odd"),
        801 => Some("the file has no header"),
        803 => Some("the line does not fit in a page"),
        804 => Some("the byte is not allowed in a text file"),
        _ => image_sentence(status),
    }
}

/// Returns the sentence for `status`, if it is a known number.
#[tactic(auto, unfolding(crate::specs::Sentences::sentence, crate::specs::Sentences::call_sentences))]
fn sentence(status: u32) -> Option<&'static str>
    ensures sentence { option_map (λ text. text.now) result ≡ sentence status }
{
    match status {
        0 => Some("success; of a step and a run: the machine can continue"),
        1 => Some("the machine waits for console bytes"),
        2 => Some("the program has ended, or the job is refused"),
        3 => Some("an execution error stopped the program"),
        4 => Some("the input is too long"),
        5 => Some("out of memory"),
        6 => Some("the step limit was reached, or the program waits for console bytes"),
        7 => Some("the buffer is too short"),
        8 => Some("the handle has no machine"),
        9 => Some("the handle has a machine already"),
        10 => Some("odd address"),
        11 => Some("the unit has no disk"),
        12 => Some("the name is not UTF-8"),
        13 => Some("SEG or JTAB is odd, so the position in the code is unknown"),
        14 => Some("the kind is above 15"),
        15 => Some("the run has reached a breakpoint"),
        16 => Some("a watched word has changed"),
        101 => Some("invalid index"),
        102 => Some("no segment or bad code file"),
        103 => Some("procedure not present at exit time"),
        104 => Some("stack overflow"),
        106 => Some("divide by zero"),
        107 => Some("invalid memory reference"),
        109 => Some("system I/O error"),
        110 => Some("user I/O error"),
        111 => Some("unimplemented instruction"),
        113 => Some("string too long"),
        114 => Some("halt or breakpoint"),
        201 => Some("no such file"),
        202 => Some("not a code file"),
        203 => Some("bad code file"),
        301 => Some("not a disk unit"),
        302 => Some("the unit has a disk already"),
        _ => file_sentence(status),
    }
}

/// Copies the sentence for `status` to `out`. The number is a status of a call, or a number in the message of a job.
/// The sentence is the one that the program prints on a terminal, without the line, entry or slot and without the hint.
/// The sentence for an unknown number is empty.
///
/// Returns 0 if the call succeeded. Returns 7 if the buffer is too short; then nothing is written.
#[unsafe(no_mangle)]
pub extern "C" fn pmach_sentence(status: u32, out: &mut [u8], needed: &mut usize) -> u32
    ensures gives { Fills (or_nothing (sentence status)) result out.old out.new needed.new }
{
    let text = sentence(status).unwrap_or("");
    give(text.as_bytes(), out, needed)
}

/// Returns the version of the library: 100 times its first number plus its second number. For version 0.1 it is 1.
#[unsafe(no_mangle)]
pub extern "C" fn pmach_version() -> u32
    ensures version { result ≡ VERSION }
{
    VERSION
}

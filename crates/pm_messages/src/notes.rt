//! Notes that only a terminal shows: why the output of a command is unexpected, and what to type.
use crate::end::End;
use pm_files::Store;
use pm_forms::{Form, FormChoice};
use pm_image_forms::Forms;
use pm_plan::{Order, Plan};
use pm_streams::Surprise;
use pm_terminal::Lined;
use pm_tool::{Ending, Exit, Outcome};
use std::alloc::Global;
use std::io::Write;

/// Returns whether a run with the outcome `outcome` ended because its program waits for a key.
fn is_waiting(outcome: &Outcome) -> bool {
    outcome.ending == Some(Ending::Waiting)
}

/// Returns what a terminal shows after the message of `end`. `lacks_second` states whether `salvage --second` was
/// executed on an image whose directory states that there is no second copy. `lined` is the writer of the output.
/// `has_only_feeds` states whether the input has line feeds and no carriage return.
pub fn note_of<W: Write>(
    surprise: Surprise,
    end: &End,
    lacks_second: bool,
    lined: &Lined<W>,
    has_only_feeds: bool,
) -> Option<&'static str> {
    let End::Outcome(outcome, _) = end else {
        return note_of_lines(surprise, end, lined);
    };
    match (surprise, outcome.exit) {
        (Surprise::NoCode, Exit::Ended) if !lined.has_written() => Some(
            "there is no segment, so this is no code file; for a program on a disk image: pmach dis --image IMAGE NAME",
        ),
        (Surprise::NoText, Exit::Ended) if !lined.has_written() => Some(
            "the file has no text; 'files list' shows its kind, and 'files get' writes its bytes",
        ),
        (Surprise::NoText, Exit::Ended) if lined.has_replaced() => Some(
            "a ? is shown in place of a byte that is no character; 'files get' writes the bytes of the file",
        ),
        (Surprise::NoReturn, Exit::Stopped) if has_only_feeds && is_waiting(outcome) => Some(
            "lines of the input end with line feeds, and the program waits for the key Return; --text converts them",
        ),
        (Surprise::NoSecond, _) if lacks_second => Some(
            "the directory states that it has no second copy, and that blocks 6 to 9 are of files; try salvage without --second",
        ),
        _ => None,
    }
}

/// Returns what a terminal shows after the end of a command that writes lines and has no outcome.
fn note_of_lines<W: Write>(
    surprise: Surprise,
    end: &End,
    lined: &Lined<W>,
) -> Option<&'static str> {
    match (surprise, end) {
        (Surprise::NoRemoved, End::Lines(_)) if !lined.has_written() => Some(
            "no free block looks like the beginning of a text file or a code file; 'files list --all' shows the free areas",
        ),
        _ => None,
    }
}

/// Returns whether `plan` puts the system's segment into its program.
pub fn has_system(plan: &Plan) -> bool {
    match plan {
        Plan::Run(program, _) => program.system.is_some(),
        _ => false,
    }
}

/// The offset of the word in an image that has the number of the block after its directory. It is 6 if the volume has no
/// second copy of its directory.
const FILES_BEGIN: usize = 1026;

/// Returns whether the directory in block 2 of `image` states that the volume has no second copy of its directory.
fn states_no_second(image: &[u8]) -> bool {
    image.get(FILES_BEGIN..FILES_BEGIN + 2) == Some([6, 0].as_slice())
}

/// Returns whether `plan` is `salvage --second`, and the directory of its image states that there is no second copy.
/// Returns `false` if the image cannot be read. No file changes.
pub fn lacks_second<S: Store>(alloc: Global, store: &mut S, plan: &Plan) -> bool {
    match plan {
        Plan::Salvage(plan) if plan.second => match store.read(alloc, plan.path.as_str()) {
            Ok(image) => states_no_second(&image),
            Err(_) => false,
        },
        _ => false,
    }
}

/// Returns what a terminal shows about the form of the first image, if the forms were detected.
pub fn note_of_forms(choice: FormChoice, forms: &Forms) -> Option<&'static str> {
    match choice {
        FormChoice::Named(_) => None,
        FormChoice::Auto => Some(match forms.first {
            Form::In(Order::Blocks) => "--form auto: the format of the image is blocks",
            Form::In(Order::Dos) => "--form auto: the format of the image is dos",
            Form::In(Order::Swapped) => "--form auto: the format of the image is swapped",
            Form::Headed => "--form auto: the format of the image is 2mg",
        }),
    }
}

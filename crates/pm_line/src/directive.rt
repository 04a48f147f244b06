//! Parsing of directives, from the words after the directive.
//!
//! Each function returns `None` if the words are malformed. Otherwise it returns the statement, and whether its numbers
//! are in range.

ghost use Rattle.std.specs.Prelude.{◌≡◌, true, option_map};
ghost use Rattle.std.specs.List.{list_all};
ghost use Rattle.pm_code.specs.Program.{is_name_character, is_segment_name};
ghost use Rattle.pm_source.specs.Line.{entry_operands, no_operands, procedure_operands, segment_operands};
ghost use Rattle.pm_line.specs.Views.{operand_seen, statement_seen, texts_seen};

use crate::counted::{four, only, pair};
use crate::item::Statement;
use crate::operand::{byte_operand, label_operand, level_operand, size_operand, slot_operand};
use pm_code::is_name_character;

fn are_name_characters(name: &[u8]) -> bool
    ensures characters { result ≡ list_all is_name_character name.now }
{
    name.iter().all(|byte| is_name_character(*byte))
}

/// Returns whether `name` is a valid name of a segment: 1 to 8 allowed characters.
fn is_segment_name(name: &[u8]) -> bool
    ensures name { result ≡ is_segment_name name.now }
{
    !name.is_empty() && name.len() <= 8 && are_name_characters(name)
}

/// Parses the operands of `.SEG`: the number and the name of a segment.
#[tactic(auto, using(crate::proofs::Counts::no_segment))]
pub(crate) fn segment_operands<'a>(words: &[&'a [u8]]) -> Option<(Statement<'a>, bool)>
    ensures said { operand_seen statement_seen result ≡ segment_operands (texts_seen words.now) }
{
    let (number, name) = pair(words)?;
    if !is_segment_name(name) {
        return None;
    }
    let (number, in_range) = slot_operand(number)?;
    Some((Statement::Segment { number, name }, in_range))
}

/// Parses the operands of `.PROC`: the number, the level, the size of the parameters and the size of the locals.
#[tactic(auto, using(crate::proofs::Counts::no_procedure))]
pub(crate) fn procedure_operands<'a>(words: &[&'a [u8]]) -> Option<(Statement<'a>, bool)>
    ensures said { operand_seen statement_seen result ≡ procedure_operands (texts_seen words.now) }
{
    let (number, level, parameters, locals) = four(words)?;
    let (number, number_good) = byte_operand(number)?;
    let (level, level_good) = level_operand(level)?;
    let (parameters, parameters_good) = size_operand(parameters)?;
    let (locals, locals_good) = size_operand(locals)?;
    let said = Statement::Begin {
        number,
        level,
        parameters,
        locals,
    };
    Some((
        said,
        number_good && level_good && parameters_good && locals_good,
    ))
}

/// Parses the operand of `.JUMP`, which is a label. `line` is the number of the line.
#[tactic(auto, using(crate::proofs::Counts::no_entry))]
pub(crate) fn entry_operands<'a>(line: usize, words: &[&'a [u8]]) -> Option<(Statement<'a>, bool)>
    ensures said { operand_seen statement_seen result ≡ entry_operands line (texts_seen words.now) }
{
    let name = only(words)?;
    let (label, in_range) = label_operand(name)?;
    Some((Statement::Entry { line, label }, in_range))
}

/// Returns the statement `said` of a directive without operands, or `None` if `words` is not empty.
pub(crate) fn no_operands<'a>(
    said: Statement<'a>,
    words: &[&'a [u8]],
) -> Option<(Statement<'a>, bool)>
    ensures said { operand_seen statement_seen result ≡ no_operands (statement_seen said.entry) (texts_seen words.now) }
{
    if words.is_empty() {
        Some((said, true))
    } else {
        None
    }
}

//! Computes the condition of a conditional jump from the text of the jump.

ghost use Rattle.std.specs.Prelude.{◌≡◌, ◌++◌, string_bytes, OnOk};
ghost use Rattle.pm_code.specs.Shown.{target_text};
ghost use Rattle.pm_code.specs.Views.{placed_target};
ghost use Rattle.pm_statements.specs.BlockLines as texts;

use pm_code::Target;
use pm_families::Condition;
use pm_phrases::push_target;
use pm_trees::Role;
use std::alloc::AllocError;

/// If `text` begins with `front`, returns `text` without this prefix. Otherwise returns `text`.
fn without_front<'a>(text: &'a str, front: &str) -> &'a str
    ensures rest { result.now ≡ texts.without_front front.now text.now }
{
    match text.strip_prefix(front) {
        Some(rest) => rest,
        None => text,
    }
}

/// If `text` ends with `tail`, returns `text` without this suffix. Otherwise returns `text`.
fn without_tail<'a>(text: &'a str, tail: &str) -> &'a str
    ensures rest { result.now ≡ texts.without_tail tail.now text.now }
{
    match text.strip_suffix(tail) {
        Some(rest) => rest,
        None => text,
    }
}

/// Replaces the contents of `out` by `word`, followed by the target of a jump.
fn set_jump(out: &mut String, word: &str, target: Target<usize>) -> Result<(), AllocError>
    ensures text { OnOk result (string_bytes out.new ≡ word.now ++ target_text (placed_target target)) }
{
    out.clear();
    out.push_str(word)?;
    push_target(out, target)
}

/// Appends to `out` the condition under which a jump is not taken. `text` is the text of the jump, and `scratch` is
/// used as a buffer.
#[tactic(auto, unfolding(crate::specs::BlockLines::condition_text))]
pub(crate) fn push_condition(
    scratch: &mut String,
    out: &mut String,
    role: Role,
    text: &str,
) -> Result<(), AllocError>
    ensures text { OnOk result (string_bytes out.new
        ≡ string_bytes out.old ++ texts.condition_text role text.now) }
{
    match role {
        Role::Jump(Condition::IfFalse, target) => {
            set_jump(scratch, ") GOTO ", target)?;
            let rest = without_front(text, "IF NOT (");
            out.push_str(without_tail(rest, scratch.as_str()))?;
        }
        Role::Jump(_, target) => {
            set_jump(scratch, " GOTO ", target)?;
            let rest = without_front(text, "IF ");
            out.push_str("NOT (")?;
            out.push_str(without_tail(rest, scratch.as_str()))?;
            out.push_str(")")?;
        }
        Role::Call | Role::Check | Role::Case | Role::Other => out.push_str(text)?,
    }
    Ok(())
}

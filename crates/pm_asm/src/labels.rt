//! Converts labels to offsets.

ghost use Rattle.std.specs.Prelude.{◌≡◌, ◌≢◌, true, false, Some, IfOk, IfErr, OnOk, OnErr, map};
ghost use Rattle.std.specs.List.{list_any};
ghost use Rattle.pm_code.specs.Views.{placed_target};
ghost use Rattle.pm_line.specs.Views.{labelled_target, texts_seen};
ghost use Rattle.pm_source.specs.declared.fault.AsmFault.TheVariants.{Far, NoLabel, NoMemory};
ghost use Rattle.pm_source.specs.Faults.{is_far_place, is_unknown_label, is_unknown_target};
ghost use Rattle.pm_source.specs.Meaning.{found_label, found_target};
ghost use Rattle.pm_asm.specs.Firsts.{places_in};
ghost use Rattle.pm_asm.specs.Found.{is_far_target};

use crate::code::Code;
use crate::table::place_of;
use pm_code::Target;
use pm_source::AsmFault;
use std::alloc::Global;

/// Returns the offset of the label `name` of `code`. The label is used in the line with the number `line`.
///
/// # Errors
///
/// `NoLabel`: the code does not define the label.
pub(crate) fn resolve_label<'a>(
    code: &Code<'_, 'a>,
    line: usize,
    name: &'a [u8],
) -> Result<usize, AsmFault>
    ensures known { OnOk result (is_unknown_label (places_in code.now) name.now ≡ false) }
    ensures found { IfOk result (λ place. place ≡ found_label (places_in code.now) name.now) }
    ensures refusal { IfErr result (λ fault. fault ≡ NoLabel line) }
    ensures unknown { OnErr result (is_unknown_label (places_in code.now) name.now ≡ true) }
{
    match place_of(code, name) {
        Some(place) => Ok(place),
        None => Err(AsmFault::NoLabel(line)),
    }
}

/// Returns the offsets of the labels `names` of `code`. They are used in the line with the number `line`.
///
/// # Errors
///
/// - `NoLabel`: the code does not define one of the labels.
/// - `NoMemory`: memory runs out.
pub(crate) fn resolve_labels<'a>(
    alloc: Global,
    code: &Code<'_, 'a>,
    line: usize,
    names: &[&'a [u8]],
) -> Result<Vec<usize>, AsmFault>
    ensures known { OnOk result (list_any (is_unknown_label (places_in code.now)) (texts_seen names.now) ≡ false) }
    ensures found { IfOk result (λ places. places.items
        ≡ map (found_label (places_in code.now)) (texts_seen names.now)) }
    ensures refusal { IfErr result (λ fault. fault ≢ NoMemory → fault ≡ NoLabel line) }
    ensures unknown { IfErr result (λ fault. fault ≢ NoMemory
        → list_any (is_unknown_label (places_in code.now)) (texts_seen names.now) ≡ true) }
{
    let mut places = Vec::new(alloc);
    for name in names {
        let place = resolve_label(code, line, name)?;
        places.push(place).map_err(|_| AsmFault::NoMemory)?;
    }
    Ok(places)
}

/// Returns the target of a jump, with its label converted to an offset. The jump is in the line with the number `line`.
///
/// # Errors
///
/// `NoLabel`: the code does not define the label.
pub(crate) fn resolve_target<'a>(
    code: &Code<'_, 'a>,
    line: usize,
    target: Target<&'a [u8]>,
) -> Result<Target<usize>, AsmFault>
    ensures known { OnOk result (is_unknown_target (places_in code.now) (labelled_target target.entry) ≡ false) }
    ensures found { IfOk result (λ found. placed_target found
        ≡ found_target (places_in code.now) (labelled_target target.entry)) }
    ensures refusal { IfErr result (λ fault. fault ≡ NoLabel line) }
    ensures unknown { OnErr result (is_unknown_target (places_in code.now) (labelled_target target.entry) ≡ true) }
{
    match target {
        Target::To(name) => Ok(Target::To(resolve_label(code, line, name)?)),
        Target::Through(entry) => Ok(Target::Through(entry)),
    }
}

/// Whether a short jump cannot reach the offset `place`. `next` is the offset of the next instruction. The jump reaches
/// only offsets from `next` to `next + 127`.
fn is_far_place(next: usize, place: usize) -> bool
    ensures far { result ≡ is_far_place next (Some place) }
{
    place < next || place - next > 127
}

/// Checks that a short jump in the line with the number `line` reaches `target`. `next` is the offset of the next
/// instruction.
///
/// # Errors
///
/// `Far`: the target is out of reach.
pub(crate) fn check_near(line: usize, next: usize, target: Target<usize>) -> Result<(), AsmFault>
    ensures near { OnOk result (is_far_target next (placed_target target) ≡ false) }
    ensures refusal { IfErr result (λ fault. fault ≡ Far line) }
    ensures far { OnErr result (is_far_target next (placed_target target) ≡ true) }
{
    match target {
        Target::To(place) if is_far_place(next, place) => Err(AsmFault::Far(line)),
        _ => Ok(()),
    }
}

//! Laws of `--form auto`. The function has an empty body.
ghost use Rattle.pm_forms.specs.Worked.{WorkedAuto};

/// States which form `--form auto` selects: the only one in which an image opens, or the one that `check` notes.
#[tactic(auto, using(crate::proofs::AutoLaws::worked_auto))]
pub fn worked_auto()
    ensures law { WorkedAuto }
{}

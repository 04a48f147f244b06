//! The law of an assembled code file that is put on a volume and booted.

ghost use Rattle.law_headline.specs.Put.{PutProgramIsBooted, PutProgramIsFound};

/// If the code file of an assembled text is put on a volume under a name with kind 2, and the text has a segment 1,
/// then a boot by this name finds the file. A machine that is booted by this name begins with segment 1 in memory as
/// the listing states it, directly below 65,492.
#[tactic(auto, using(crate::proofs::PutLaws::put_program_is_found, crate::proofs::PutLaws::put_program_is_booted))]
pub fn put_program_is_booted()
    ensures found { PutProgramIsFound }
    ensures booted { PutProgramIsBooted }
{}

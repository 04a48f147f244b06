//! Worked examples: the texts that the definitions compute for some code. The function has an empty body; its clauses
//! are the examples.

ghost use Rattle.pm_phrases.specs.Worked as worked;

/// States texts of instructions, grouped by what the instructions do.
#[tactic(auto, using(crate::proofs::Computed::worked_variables, crate::proofs::Computed::worked_operators, crate::proofs::Computed::worked_addresses, crate::proofs::Computed::worked_missing, crate::proofs::Computed::worked_calls, crate::proofs::Computed::worked_jumps, crate::proofs::Computed::worked_others, crate::proofs::Computed::worked_literals, crate::proofs::Computed::worked_comparisons, crate::proofs::Computed::worked_parts, crate::proofs::Computed::worked_sets, crate::proofs::Computed::worked_characters, crate::proofs::Computed::worked_constants))]
pub fn worked_texts()
    ensures variables { worked.WorkedVariables }
    ensures operators { worked.WorkedOperators }
    ensures addresses { worked.WorkedAddresses }
    ensures missing { worked.WorkedMissing }
    ensures calls { worked.WorkedCalls }
    ensures jumps { worked.WorkedJumps }
    ensures others { worked.WorkedOthers }
    ensures literals { worked.WorkedLiterals }
    ensures comparisons { worked.WorkedComparisons }
    ensures parts { worked.WorkedParts }
    ensures sets { worked.WorkedSets }
    ensures characters { worked.WorkedCharacters }
    ensures constants { worked.WorkedConstants }
{}

//! Laws of the table of effects, which states how many words each instruction pops and leaves on the stack. Each
//! function has an empty body. In comments, the *row* of an instruction is the definition of what it does. A *valid
//! memory* has 32,768 words, each less than 65,536.

ghost use Rattle.law_engine.specs.CallEffects as calls;
ghost use Rattle.law_engine.specs.Effects.{EffectsAreTheMachines};
ghost use Rattle.law_engine.specs.StandardEffects.{StandardEffectsAreTheMachines};

/// If the row of an instruction on integers, variables, addresses, constants, values or jumps succeeds, then the SP
/// after it is determined by the table: it moves up by each word that the table states as popped, and down by each word
/// that it states as left. A set has one word more than its count states. A row on values without an entry in the table
/// never succeeds. Premise: the memory and the stack are valid.
#[tactic(auto, using(crate::proofs::EffectLaws::effects_are_the_machines))]
pub fn effects_are_the_machines()
    ensures law { EffectsAreTheMachines }
{}

/// For each number, the table has the effect of the standard procedure with this number. If a standard procedure on
/// memory or on units succeeds, then SP moves up by each word that its effect states as popped, and down by each word
/// that it states as left. For EXIT and the procedures 21 and 22, the law states only the entry of the table.
#[tactic(auto, using(crate::proofs::StandardEffectLaws::standard_effects_are_the_machines))]
pub fn standard_effects_are_the_machines()
    ensures law { StandardEffectsAreTheMachines }
{}

/// If a call and a later return succeed, with any execution between them, then the SP after the return is the SP before
/// the call, plus the number of parameter words in the attribute table of the called procedure, less the number of
/// words that the return leaves. Premises: the memory before the call is valid; loaded code consists of bytes; at the
/// return, MP and the SP that the frame saved are as the call left them.
#[tactic(auto, using(crate::proofs::CallEffectLaws::calls_are_the_machines))]
pub fn calls_are_the_machines()
    ensures law { calls.CallsAreTheMachines }
{}

//! The law of the output to the console and to the printer.

ghost use Rattle.law_engine.specs.Outputs.{OutputsOnlyGrow};

/// After any events, the console output and the printer output begin with the bytes that they had before these events.
pub fn outputs_only_grow()
    ensures law { OutputsOnlyGrow }
{}

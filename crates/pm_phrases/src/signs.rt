//! Operators and their precedence.

ghost use Rattle.std.specs.Prelude.{◌≡◌, ◌<◌};
ghost use Rattle.pm_phrases.specs.Signs as signs;

use pm_families::{Binary, Relation};

/// Returns the operator of the operation `o` on two integers, and the precedence of this operator.
pub(crate) fn binary_sign(o: Binary) -> (&'static str, u8)
    ensures sign { result.0.now ≡ signs.binary_sign o }
    ensures strength { result.1 ≡ signs.binary_strength o }
    ensures few { result.1 < 9 }
{
    match o {
        Binary::Add => ("+", 2),
        Binary::Subtract => ("-", 2),
        Binary::Multiply => ("*", 3),
        Binary::Divide => ("DIV", 3),
        Binary::Modulo => ("MOD", 3),
        Binary::And => ("AND", 3),
        Binary::Or => ("OR", 2),
    }
}

/// Returns the operator of the comparison `r`.
pub(crate) fn relation_sign(r: Relation) -> &'static str
    ensures sign { result.now ≡ signs.relation_sign r }
{
    match r {
        Relation::Equal => "=",
        Relation::NotEqual => "<>",
        Relation::Less => "<",
        Relation::LessOrEqual => "<=",
        Relation::Greater => ">",
        Relation::GreaterOrEqual => ">=",
    }
}

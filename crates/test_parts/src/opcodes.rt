//! Tests of facts that no decoded instruction shows: operands that no encoding has, and instructions without an
//! encoding.
use pm_families::{Call, Condition, Jump, Scope, Variable};
use pm_opcode::{Encode, Form, Instr, Operation, encode, form_at, implied_number};
use std::test::Fail;

/// Returns the instruction with the opcode `op` and the operands `a`, `b` and `c`.
fn of(op: u8, [a, b, c]: [u16; 3]) -> Instr {
    Instr {
        a,
        b,
        c,
        ..Instr::bare(op)
    }
}

#[test]
fn instructions_out_of_range(rt: HostRuntime) -> Result<(), Fail> {
    let text = Instr {
        count: 1,
        ..of(166, [1, 0, 0])
    };
    let unspelled = [
        of(169, [32768, 0, 0]),
        of(161, [128, 0, 0]),
        of(158, [256, 0, 0]),
        of(175, [3, 0, 0]),
        of(210, [0, 0, 0]),
        Instr { count: 0, ..text },
        Instr { start: 1, ..text },
    ];
    let mut out = Vec::new(rt.alloc());
    for i in unspelled {
        assert_eq!(rt; encode(&i, &[7], 0, &mut out), Err(Encode::OutOfRange));
    }
    assert_eq!(rt; encode(&text, &[7], 0, &mut out), Ok(()));
    assert_eq!(rt; out.as_slice(), [0xA6, 1, 7].as_slice());
    Ok(())
}

/// Returns the operation of the instruction with the opcode `op` and the operands 257 and 300.
fn done(op: u8) -> Operation {
    Operation::of(&of(op, [257, 300, 0]))
}

/// Tests that a byte operand is taken modulo 256, and that a jump distance is a whole word.
#[test]
fn operands_above_their_range(rt: HostRuntime) {
    assert!(rt;
        matches!(
            done(184),
            Operation::Variable(Variable::Store(Scope::Intermediate(1), 300))
        )
    );
    assert!(rt; matches!(done(205), Operation::Call(Call::Cxp(1, 44))));
    assert!(rt;
        matches!(
            done(211),
            Operation::Jump(Jump::Short(Condition::IfDifferent, 257))
        )
    );
    assert!(rt; matches!(done(175), Operation::Unimplemented));
    assert_eq!(rt; form_at(179), Form::Words);
    assert_eq!(rt; implied_number(215), None);
}

//! A test of the public table of opcodes.
use pm_opcode::{ROWS, row_at};
use std::process::Abort;

fn stands(rt: &impl Abort, op: u8) {
    let row = &ROWS[usize::from(op)];
    let proved = row_at(op);
    assert_eq!(rt;
        (row.mnemonic, row.form),
        (proved.mnemonic, proved.form),
        "{op}"
    );
}

/// Tests that the table has the mnemonic and the format that the contract of `row_at` states.
#[test]
fn rows(rt: HostRuntime) {
    for op in 0..=255u8 {
        stands(&rt, op);
    }
}

//! Tests of the procedures of a code file.
use crate::calls::{Answer, answer};
use crate::jobs::*;
use crate::procedures::*;

// The first procedure has two bytes of code and ten bytes of attributes. The second one begins after them.
const TWO: &str =
    ".SEG 2 TWO\n.PROC 1 0 0 0\n.EXIT\nRBP 0\n.END\n.PROC 2 1 4 6\n.EXIT\nRNP 0\n.END\n";

#[test]
fn procedures_are_listed(rt: HostRuntime) {
    let alloc = rt.alloc();
    let mut file = answer!(&rt, alloc, pmach_assemble, TWO.as_bytes(), false).bytes;
    answer!(&rt, alloc, pmach_procedures, &file).lists(&rt, &["2 1 2 0 0 0", "2 2 2 12 4 6"]);
    // The segment has 30 bytes and begins at 512. Its last byte but one is its number.
    assert_eq!(rt; file.get(540..542), Some(&[2, 2][..]));
    if let Some(number) = file.get_mut(540) {
        *number = 9;
    }
    answer!(&rt, alloc, pmach_procedures, &file).lists(&rt, &["2 1 9 0 0 0", "2 2 9 12 4 6"]);
    answer!(&rt, alloc, pmach_procedures, b"short").says(&rt, 2, "refused code 1");
}

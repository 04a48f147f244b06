//! Tests of the jobs on source texts, code files and bare code.
use crate::calls::{Answer, answer};
use crate::jobs::*;
use std::alloc::Global;
use std::process::Abort;

pub(super) const TEXT: &str =
    ".SEG 1 OK\n.PROC 1 0 0 0\nSLDO 1\nFJP L\nSLDC 5\nSRO 3\nL:\n.EXIT\nRBP 0\n.END\n";

// The bytes of the segment: its code, its attribute table and its dictionary, as on the page of the assembler.
const SEGMENT: [u8; 22] = [
    0xE8, 0xA1, 3, 5, 0xAB, 3, 0xC1, 0, 0, 0, 0, 0, 6, 0, 14, 0, 1, 0, 2, 0, 1, 1,
];

const SHOWN: [&str; 10] = [
    ".SEG 1 OK",
    ".PROC 1 0 0 0",
    "  SLDO 1",
    "  FJP L00006",
    "  SLDC 5",
    "  SRO 3",
    "L00006:",
    ".EXIT",
    "  RBP 0",
    ".END",
];

const LISTING: [&str; 7] = [
    "01 001 00000 E8  SLDO 1",
    "01 001 00001 A1 03  FJP L00006",
    "01 001 00003 05  SLDC 5",
    "01 001 00004 AB 03  SRO 3",
    "01 001 00006 C1 00  RBP 0",
    "01 001 00008 00 00 00 00 06 00 0E 00 01 00  .ATTR",
    "01 000 00018 02 00 01 01  .DICT",
];

const STATEMENTS: [&str; 6] = [
    "PROCEDURE 1 OF SEGMENT 1: level 0, 0 bytes of parameters, 0 of locals, 0 of result",
    "00000 IF NOT (global1) GOTO L00006",
    "00003 global3 := 5",
    "L00006:",
    "EXIT:",
    "00006 RETURN FROM BASE",
];

const INDENTED: [&str; 6] = [
    "PROCEDURE 1 OF SEGMENT 1: level 0, 0 bytes of parameters, 0 of locals, 0 of result",
    "00000 IF NOT (global1) GOTO L00006",
    "00003   global3 := 5",
    "L00006:",
    "EXIT:",
    "00006 RETURN FROM BASE",
];

const BLOCKS: [&str; 6] = [
    "PROCEDURE 1 OF SEGMENT 1: level 0, 0 bytes of parameters, 0 of locals, 0 of result",
    "00000 IF global1 THEN",
    "00003   global3 := 5",
    "      END",
    "EXIT:",
    "00006 RETURN FROM BASE",
];

/// Assembles the source text and returns the code file.
pub(super) fn file(rt: &impl Abort, alloc: Global) -> Answer {
    answer!(rt, alloc, pmach_assemble, TEXT.as_bytes(), false)
}

#[test]
fn a_text_is_assembled(rt: HostRuntime) {
    let alloc = rt.alloc();
    let file = file(&rt, alloc);
    assert_eq!(rt; (file.status, file.bytes.len()), (0, 1024));
    assert_eq!(rt; file.bytes.get(512..534), Some(&SEGMENT[..]));
    answer!(&rt, alloc, pmach_assemble, TEXT.as_bytes(), true).lists(&rt, &LISTING);
    answer!(&rt, alloc, pmach_assemble, b".SEG 1 OK\nNOP\n", false).says(&rt, 2, "refused asm 1 2");
    answer!(&rt, alloc, pmach_assemble_faults, TEXT.as_bytes()).says(&rt, 0, "");
    answer!(&rt, alloc, pmach_assemble_faults, b"FOO\nNOP\n").says(
        &rt,
        2,
        "refused asm 2 1\nrefused asm 1 2\nrefused asm 2 1",
    );
    answer!(&rt, alloc, pmach_assemble_symbols, TEXT.as_bytes()).says(
        &rt,
        0,
        "001 001 00000 .PROC\n001 001 00006 L\n",
    );
}

#[test]
fn a_code_file_is_shown(rt: HostRuntime) {
    let alloc = rt.alloc();
    let file = file(&rt, alloc).bytes;
    answer!(&rt, alloc, pmach_disassemble, &file).lists(&rt, &SHOWN);
    answer!(&rt, alloc, pmach_disassemble_names, &file).lists(&rt, &SHOWN);
    answer!(&rt, alloc, pmach_disassemble_list, &file).lists(&rt, &LISTING);
    answer!(&rt, alloc, pmach_disassemble_statements, &file).lists(&rt, &STATEMENTS);
    answer!(&rt, alloc, pmach_disassemble_indented, &file).lists(&rt, &INDENTED);
    answer!(&rt, alloc, pmach_disassemble_blocks, &file).lists(&rt, &BLOCKS);
    answer!(&rt, alloc, pmach_disassemble, b"short").says(&rt, 2, "refused code 1");
}

// The source text with the names of a standard procedure and of a procedure of the system.
const NAMED: [&str; 8] = [
    ".SEG 1 OK",
    ".PROC 1 0 0 0",
    "  CSP 0 ; IOCHECK",
    "  CXP 0, 19 ; FWRITESTRING",
    "  NOP",
    ".EXIT",
    "  RBP 0",
    ".END",
];

#[test]
fn names_stand_behind_their_lines(rt: HostRuntime) {
    let alloc = rt.alloc();
    let text = b".SEG 1 OK\n.PROC 1 0 0 0\nCSP 0\nCXP 0, 19\nNOP\n.EXIT\nRBP 0\n.END\n";
    let file = answer!(&rt, alloc, pmach_assemble, text, false).bytes;
    answer!(&rt, alloc, pmach_disassemble_names, &file).lists(&rt, &NAMED);
}

const TRACE: [&str; 5] = [
    "00000000 01024 65492 65492 65492 01028 65492 SLDC 2",
    "00000001 01025 65490 65492 65492 01028 00002 SLDC 3",
    "00000002 01026 65488 65492 65492 01028 00003 ADI",
    "00000003 01027 65490 65492 65492 01028 00005 XIT",
    "ended 4",
];

#[test]
fn bare_code_is_traced(rt: HostRuntime) {
    let alloc = rt.alloc();
    answer!(&rt, alloc, pmach_raw, b"02 03 82 D6", 100).lists(&rt, &TRACE);
    let limit = answer!(&rt, alloc, pmach_raw, b"02 03 82 D6", 1);
    limit.says(
        &rt,
        6,
        "00000000 01024 65492 65492 65492 01028 65492 SLDC 2\nlimit 1\n",
    );
    let halt = answer!(&rt, alloc, pmach_raw, b"9B", 9);
    assert_eq!(rt; halt.status, 3);
}

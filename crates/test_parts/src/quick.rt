//! Tests of steps on the fast execution path: each opcode that has a fast path uses it, and so does a whole program. No
//! contract states this, because a machine without the fast path executes the same steps.
use crate::booted::volume;
use crate::codes::{CALLS, KEEPS, TOP};
use crate::tested::Tested;
use pm_machine::{Machine, RunEnd, Stop, StopTest};
use std::alloc::Global;
use std::process::Abort;
use std::test::Fail;

/// Programs, each with the number of steps that it executes on the fast path. Each program ends with an `XIT`, which
/// does not use the fast path.
const PROGRAMS: [(&[u8], u64); 26] = [
    // arithmetic, logic and comparisons of integers, LDCN and LDCI
    (
        &[
            0x05, 0x03, 0x82, 0x07, 0x84, 0x02, 0x86, 0x00, 0x09, 0x88, 0x01, 0x8D, 0x02, 0x8E,
            0x03, 0x8F, 0x91, 0x93, 0x01, 0x95, 0x9F, 0xC3, 0x00, 0xC4, 0x00, 0xC5, 0x00, 0xC8,
            0x00, 0xC9, 0x00, 0xCB, 0xC7, 0x01, 0x02, 0xD6,
        ],
        33,
    ),
    // SLDL and SLDO 1 to 16
    (
        &[
            0xD8, 0xD9, 0xDA, 0xDB, 0xDC, 0xDD, 0xDE, 0xDF, 0xE0, 0xE1, 0xE2, 0xE3, 0xE4, 0xE5,
            0xE6, 0xE7, 0xE8, 0xE9, 0xEA, 0xEB, 0xEC, 0xED, 0xEE, 0xEF, 0xF0, 0xF1, 0xF2, 0xF3,
            0xF4, 0xF5, 0xF6, 0xF7, 0xD6,
        ],
        32,
    ),
    // SIND 0 to 7, each at address 1,024
    (
        &[
            0xC7, 0x00, 0x04, 0xF8, 0xC7, 0x00, 0x04, 0xF9, 0xC7, 0x00, 0x04, 0xFA, 0xC7, 0x00,
            0x04, 0xFB, 0xC7, 0x00, 0x04, 0xFC, 0xC7, 0x00, 0x04, 0xFD, 0xC7, 0x00, 0x04, 0xFE,
            0xC7, 0x00, 0x04, 0xFF, 0xD6,
        ],
        16,
    ),
    // LDO, SRO, LDL, STL, LAO, LLA
    (
        &[
            0xA9, 0x01, 0xAB, 0x02, 0xCA, 0x01, 0xCC, 0x02, 0xA5, 0x01, 0xC6, 0x01, 0xD6,
        ],
        6,
    ),
    // LOD and STR one link up, LDA
    (
        &[0xB6, 0x01, 0x01, 0xB8, 0x01, 0x02, 0xB2, 0x01, 0x01, 0xD6],
        3,
    ),
    // INC, IND; IXA; STO
    (
        &[
            0xA5, 0x01, 0xA2, 0x01, 0xA3, 0x01, 0xA5, 0x01, 0x01, 0xA4, 0x01, 0xA5, 0x02, 0x05,
            0x9A, 0xD6,
        ],
        9,
    ),
    // STB, LDB
    (
        &[0xA5, 0x01, 0x00, 0x41, 0xBF, 0xA5, 0x01, 0x00, 0xBE, 0xD6],
        7,
    ),
    // FJP, not taken and taken; UJP, EFJ, NFJ
    (
        &[
            0x01, 0xA1, 0x00, 0x00, 0xA1, 0x00, 0xB9, 0x00, 0x01, 0x02, 0xD3, 0x00, 0x01, 0x01,
            0xD4, 0x00, 0xD6,
        ],
        11,
    ),
    // ABI, SQI
    (&[0x05, 0x80, 0x98, 0xD6], 3),
    // LDC at an even address and at an odd one, UNI; SGS, INT; SRS, DIF; ADJ; INN
    (
        &[
            0xB3, 0x01, 0x07, 0x00, 0x01, 0xB3, 0x01, 0x00, 0x03, 0x00, 0x01, 0x9C, 0x01, 0x97,
            0x8C, 0x00, 0x02, 0x94, 0x85, 0xA0, 0x01, 0x03, 0x03, 0x97, 0x8B, 0xD6,
        ],
        17,
    ),
    // LSA, IXS; SAS; LPA
    (
        &[
            0xA6, 0x02, 0x41, 0x42, 0x01, 0x9B, 0xA5, 0x01, 0xA6, 0x02, 0x41, 0x42, 0xAA, 0x0A,
            0xD0, 0x02, 0x41, 0x42, 0xD6,
        ],
        7,
    ),
    // EQU of strings, sets, bytes and words, and each comparison of truth values
    (
        &[
            0xA6, 0x01, 0x41, 0xA6, 0x01, 0x41, 0xAF, 0x04, 0x01, 0x97, 0x01, 0x97, 0xAF, 0x08,
            0xA5, 0x01, 0xA5, 0x01, 0xAF, 0x0A, 0x02, 0xA5, 0x01, 0xA5, 0x01, 0xAF, 0x0C, 0x01,
            0x01, 0xAF, 0x06, 0x01, 0xB0, 0x06, 0x01, 0xB1, 0x06, 0x01, 0xB4, 0x06, 0x01, 0xB5,
            0x06, 0x01, 0xB7, 0x06, 0xD6,
        ],
        26,
    ),
    // LDM, STM, MOV; IXP, LDP, STP
    (
        &[
            0xA5, 0x01, 0xBC, 0x01, 0xA5, 0x01, 0x05, 0xBD, 0x01, 0xA5, 0x01, 0xA5, 0x02, 0xA8,
            0x01, 0xA5, 0x01, 0x02, 0xC0, 0x04, 0x04, 0xBA, 0xA5, 0x01, 0x02, 0xC0, 0x04, 0x04,
            0x05, 0xBB, 0xD6,
        ],
        17,
    ),
    // XJP at an odd address by its table, XJP out of its bounds, and XJP at an even address
    (
        &[
            0x01, 0xAC, 0x00, 0x00, 0x01, 0x00, 0xB9, 0x00, 0xFC, 0xFF, 0xFE, 0xFF, 0x05, 0xAC,
            0x00, 0x00, 0x00, 0x00, 0xB9, 0x02, 0xFE, 0xFF, 0x00, 0x00, 0xAC, 0x00, 0x00, 0x00,
            0x00, 0x00, 0xB9, 0x00, 0xFE, 0xFF, 0xD6,
        ],
        8,
    ),
    // MOVELEFT, MOVERIGHT, FILLCHAR, IORESULT
    (
        &[
            0xA5, 0x01, 0x00, 0xA5, 0x02, 0x00, 0x02, 0x9E, 0x02, 0xA5, 0x01, 0x00, 0xA5, 0x02,
            0x00, 0x02, 0x9E, 0x03, 0xA5, 0x01, 0x00, 0x02, 0x41, 0x9E, 0x0A, 0x9E, 0x22, 0xD6,
        ],
        18,
    ),
    // NEW, SCAN, MEMAVAIL, MARK, RELEASE, IOCHECK
    (
        &[
            0xA5, 0x01, 0x01, 0x9E, 0x01, 0x00, 0x00, 0x00, 0xC7, 0xFF, 0xFF, 0x00, 0x09, 0x9E,
            0x0B, 0x9E, 0x28, 0xA5, 0x02, 0x9E, 0x20, 0xA5, 0x02, 0x9E, 0x21, 0x9E, 0x00, 0xD6,
        ],
        16,
    ),
    // INC of 127; LDA and LOD 127 links up, STR three
    (
        &[
            0xA5, 0x01, 0xA2, 0x7F, 0xB2, 0x7F, 0x01, 0xB6, 0x7F, 0x01, 0xB8, 0x03, 0x02, 0xD6,
        ],
        5,
    ),
    // LDC of eight words
    (
        &[
            0xB3, 0x08, 0x00, 0x00, 0x00, 0x00, 0x00, 0x00, 0x00, 0x00, 0x00, 0x00, 0x00, 0x00,
            0x00, 0x00, 0x00, 0x00, 0xD6,
        ],
        1,
    ),
    // XJP of four cases
    (
        &[
            0x01, 0xAC, 0x00, 0x00, 0x03, 0x00, 0xB9, 0x00, 0xF8, 0xFF, 0xFA, 0xFF, 0xFC, 0xFF,
            0xFE, 0xFF, 0xD6,
        ],
        2,
    ),
    // the other comparisons of bytes and of words
    (
        &[
            0xA5, 0x01, 0xA5, 0x01, 0xB7, 0x0A, 0x02, 0xA5, 0x01, 0xA5, 0x01, 0xB0, 0x0A, 0x02,
            0xA5, 0x01, 0xA5, 0x01, 0xB1, 0x0A, 0x02, 0xA5, 0x01, 0xA5, 0x01, 0xB4, 0x0A, 0x02,
            0xA5, 0x01, 0xA5, 0x01, 0xB5, 0x0A, 0x02, 0xA5, 0x01, 0xA5, 0x01, 0xB7, 0x0C, 0x01,
            0xD6,
        ],
        18,
    ),
    // the other comparisons of strings
    (
        &[
            0xA6, 0x01, 0x41, 0xA6, 0x01, 0x41, 0xB7, 0x04, 0xA6, 0x01, 0x41, 0xA6, 0x01, 0x41,
            0xB0, 0x04, 0xA6, 0x01, 0x41, 0xA6, 0x01, 0x41, 0xB1, 0x04, 0xA6, 0x01, 0x41, 0xA6,
            0x01, 0x41, 0xB4, 0x04, 0xA6, 0x01, 0x41, 0xA6, 0x01, 0x41, 0xB5, 0x04, 0xD6,
        ],
        15,
    ),
    // the other comparisons of sets
    (
        &[
            0x01, 0x97, 0x01, 0x97, 0xB7, 0x08, 0x01, 0x97, 0x01, 0x97, 0xB0, 0x08, 0x01, 0x97,
            0x01, 0x97, 0xB4, 0x08, 0xD6,
        ],
        15,
    ),
    // IND, IXA, LAO, LDO, SRO, LLA, LDL and STL of 127; LDA, LOD and STR of 127, 127 links up
    (
        &[
            0xA5, 0x01, 0xA3, 0x7F, 0x01, 0xA4, 0x7F, 0xA5, 0x7F, 0xA9, 0x7F, 0xAB, 0x7F, 0xC6,
            0x7F, 0xCA, 0x7F, 0xCC, 0x7F, 0xB2, 0x7F, 0x7F, 0xB6, 0x7F, 0x7F, 0xB8, 0x7F, 0x7F,
            0xD6,
        ],
        13,
    ),
    // MOV of 127 words, LDM and STM of 255, EQU of 127 bytes and of 127 words, at addresses 2,048 and 2,304
    (
        &[
            0xC7, 0x00, 0x08, 0xC7, 0x00, 0x09, 0xA8, 0x7F, 0xC7, 0x00, 0x09, 0xC7, 0x00, 0x08,
            0xBC, 0xFF, 0xBD, 0xFF, 0xC7, 0x00, 0x08, 0xC7, 0x00, 0x09, 0xAF, 0x0A, 0x7F, 0xC7,
            0x00, 0x08, 0xC7, 0x00, 0x09, 0xAF, 0x0C, 0x7F, 0xD6,
        ],
        13,
    ),
    // a string of 255 characters at address 2,048, whose length is stored by STB; SAS to 2,304, EQU, IXS
    (
        &[
            0xC7, 0x00, 0x08, 0x00, 0xC7, 0xFF, 0x00, 0xBF, 0xC7, 0x00, 0x09, 0xC7, 0x00, 0x08,
            0xAA, 0xFF, 0xC7, 0x00, 0x08, 0xC7, 0x00, 0x09, 0xAF, 0x04, 0xC7, 0x00, 0x08, 0xC7,
            0xFF, 0x00, 0x9B, 0xD6,
        ],
        13,
    ),
    // sets of 255 words: SGS twice, UNI, SRS, INT, SGS, DIF, ADJ; SGS, INN; SGS twice, EQU
    (
        &[
            0xC7, 0xEF, 0x0F, 0x97, 0xC7, 0xEF, 0x0F, 0x97, 0x9C, 0x00, 0xC7, 0xEF, 0x0F, 0x94,
            0x8C, 0xC7, 0xEF, 0x0F, 0x97, 0x85, 0xA0, 0xFF, 0x01, 0xC7, 0xEF, 0x0F, 0x97, 0x8B,
            0xC7, 0xEF, 0x0F, 0x97, 0xC7, 0xEF, 0x0F, 0x97, 0xAF, 0x08, 0xD6,
        ],
        22,
    ),
];

/// Asserts that the program `code` executes `count` steps on the fast path, and ends with the next step.
fn goes_quickly(rt: &impl Abort, alloc: Global, code: &[u8], count: u64) {
    let mut machine = Tested::raw(rt, alloc, code);
    machine.makes_quick(rt, 1000, count);
    machine.has_made(rt, count);
    machine.steps_to(rt, Stop::Ended);
    machine.makes_quick(rt, 1000, 0);
}

#[test]
fn opcodes_go_quickly(rt: HostRuntime) {
    for (code, count) in &PROGRAMS {
        goes_quickly(&rt, rt.alloc(), code, *count);
    }
}

/// The last 14 bytes of a segment of 64 bytes: the attribute table of its only procedure, and the dictionary. The
/// procedure has no parameters and no variables, and its first instruction is at the first byte of the segment.
const TABLE: [u8; 14] = [0, 0, 0, 0, 6, 0, 56, 0, 1, 0, 2, 0, 1, 1];

/// Returns a segment of 64 bytes whose procedure has the code `code` of at most 50 bytes.
fn segment_of(code: &[u8]) -> [u8; 64] {
    let mut segment = [0xD7; 64];
    for (place, byte) in segment.iter_mut().zip(code) {
        *place = *byte;
    }
    segment[50..].copy_from_slice(&TABLE);
    segment
}

/// Tests the same programs as segments of a code file, which are loaded at high addresses.
#[test]
fn booted_opcodes_go_quickly(rt: HostRuntime) -> Result<(), Fail> {
    for (code, count) in &PROGRAMS {
        let volume = volume(rt.alloc(), 2, [64, 0, 0], &segment_of(code))?;
        let mut machine = Tested::booted(&rt, rt.alloc(), volume);
        machine.makes_quick(&rt, 1000, *count);
        machine.steps_to(&rt, Stop::Ended);
    }
    Ok(())
}

/// Tests the opcodes SLDC 0 to 127.
#[test]
fn constants_go_quickly(rt: HostRuntime) {
    let mut code = [0xD6; 129];
    for n in 0..128 {
        code[n] = n as u8;
    }
    goes_quickly(&rt, rt.alloc(), &code, 128);
}

/// Asserts that two jumps use the fast path: a jump forward by 127 bytes, and a jump through the jump table entry 128
/// bytes below the end of the table.
fn jumps_far(rt: &impl Abort, alloc: Global, opcode: u8, word: u8) {
    let mut code = [0xD6; 300];
    code[..4].copy_from_slice(&[0x00, word, opcode, 0x7F]);
    code[131..135].copy_from_slice(&[0x00, word, opcode, 0x80]);
    code[172..174].copy_from_slice(&[0x16, 0x00]);
    goes_quickly(rt, alloc, &code, 6);
}

/// Tests FJP, UJP, EFJ and NFJ, where each jump is executed.
#[test]
fn far_jumps_go_quickly(rt: HostRuntime) {
    for (opcode, word) in [(0xA1, 0), (0xB9, 0), (0xD3, 1), (0xD4, 0)] {
        jumps_far(&rt, rt.alloc(), opcode, word);
    }
}

/// Tests LSA and LPA of 255 characters, LDC of 255 words, and XJP of 250 cases, of which the second is selected.
#[test]
fn long_literals_go_quickly(rt: HostRuntime) {
    for opcode in [0xA6, 0xD0] {
        let mut code = [0x41; 258];
        code[..2].copy_from_slice(&[opcode, 0xFF]);
        code[257] = 0xD6;
        goes_quickly(&rt, rt.alloc(), &code, 1);
    }
    let mut code = [0; 513];
    code[..2].copy_from_slice(&[0xB3, 0xFF]);
    code[512] = 0xD6;
    goes_quickly(&rt, rt.alloc(), &code, 1);
    code[..12].copy_from_slice(&[0x01, 0xAC, 0, 0, 0xF9, 0, 0xD6, 0, 0, 0, 0x0A, 0xFE]);
    goes_quickly(&rt, rt.alloc(), &code, 2);
}

/// Tests CLP, then a call of procedure 2 by each kind of call within a segment, and RNP. The return to the system does
/// not use the fast path.
#[test]
fn calls_go_quickly(rt: HostRuntime) {
    for opcode in [0xCE, 0xCF, 0xAE] {
        let mut code = CALLS;
        code[2] = opcode;
        code[4] = opcode;
        let mut machine = Tested::raw(&rt, rt.alloc(), &code);
        machine.pokes(&rt, TOP.0, TOP.1);
        machine.makes_quick(&rt, 1000, 5);
        machine.has_sp(&rt, 65480);
        machine.steps_to(&rt, Stop::Ended);
    }
}

/// Tests CBP of procedures of level 0, and RBP.
#[test]
fn base_calls_go_quickly(rt: HostRuntime) {
    let mut code = CALLS;
    code[0] = 0xC2;
    code[2] = 0xC2;
    code[4] = 0xC2;
    code[6] = 0xC1;
    code[17] = 0;
    code[18] = 0xC1;
    code[29] = 0;
    let mut machine = Tested::raw(&rt, rt.alloc(), &code);
    machine.pokes(&rt, TOP.0, TOP.1);
    machine.makes_quick(&rt, 1000, 5);
    machine.steps_to(&rt, Stop::Ended);
}

/// Tests RNP and RBP of several words, from a procedure 2 with 600 bytes of variables.
#[test]
fn returns_of_words_go_quickly(rt: HostRuntime) {
    for (call, back, level, sp) in [(0xCE, 0xAD, 2, 65480), (0xC2, 0xC1, 0, 65478)] {
        for words in [2, 8, 9, 255] {
            let mut code = CALLS;
            code[0] = call;
            code[2] = call;
            code[4] = call;
            code[6] = back;
            code[17] = level / 2;
            code[18..22].copy_from_slice(&[back, words, 0x58, 0x02]);
            code[29] = level;
            let mut machine = Tested::raw(&rt, rt.alloc(), &code);
            machine.pokes(&rt, TOP.0, TOP.1);
            machine.makes_quick(&rt, 1000, 5);
            machine.has_sp(&rt, sp - 4 * u16::from(words));
            machine.steps_to(&rt, Stop::Ended);
        }
    }
}

/// Tests calls of procedure 255, whose dictionary word is at address 548, by each kind of call within a segment.
#[test]
fn calls_of_procedure_255_go_quickly(rt: HostRuntime) {
    for opcode in [0xCE, 0xCF, 0xAE] {
        let mut code = CALLS;
        code[2..6].copy_from_slice(&[opcode, 0xFF, opcode, 0xFF]);
        let mut machine = Tested::raw(&rt, rt.alloc(), &code);
        machine.pokes(&rt, TOP.0, 0xFF01);
        machine.pokes(&rt, 548, 65032);
        machine.makes_quick(&rt, 1000, 5);
        machine.steps_to(&rt, Stop::Ended);
    }
}

/// Two segments. Segment 1 calls its own procedure 2, and then segment 2, which calls procedure 2 of segment 1.
const CROSSING: [u8; 56] = [
    0xCD, 0x01, 0x02, 0xCD, 0x02, 0x01, 0xC1, 0x00, 0x00, 0x00, 0x00, 0x00, 0x06, 0x00, 0x0E, 0x00,
    0x01, 0x00, 0xC1, 0x00, 0x00, 0x00, 0x00, 0x00, 0x06, 0x00, 0x08, 0x00, 0x02, 0x00, 0x02, 0x00,
    0x10, 0x00, 0x01, 0x02, // segment 2
    0xCD, 0x01, 0x02, 0xC1, 0x00, 0xD7, 0x00, 0x00, 0x00, 0x00, 0x07, 0x00, 0x0C, 0x00, 0x01, 0x00,
    0x02, 0x00, 0x02, 0x01,
];

/// Tests that CXP of a segment that is loaded by a call uses the fast path, from the segment itself and from another
/// segment. A CXP that loads the segment does not use it.
#[test]
fn calls_of_called_segments_go_quickly(rt: HostRuntime) -> Result<(), Fail> {
    let volume = volume(rt.alloc(), 2, [36, 20, 0], &CROSSING)?;
    let mut machine = Tested::booted(&rt, rt.alloc(), volume);
    machine.makes_quick(&rt, 1000, 2);
    machine.steps_to(&rt, Stop::Went);
    machine.makes_quick(&rt, 1000, 3);
    machine.steps_to(&rt, Stop::Ended);
    Ok(())
}

/// Tests that CXP of a segment that the program keeps uses the fast path. RBP also uses it, except to the system. Steps
/// that load or remove a segment do not use it.
#[test]
fn calls_of_segments_go_quickly(rt: HostRuntime) -> Result<(), Fail> {
    let volume = volume(rt.alloc(), 2, [28, 16, 0], &KEEPS)?;
    let mut machine = Tested::booted(&rt, rt.alloc(), volume);
    machine.makes_quick(&rt, 1000, 1);
    machine.steps_to(&rt, Stop::Went);
    machine.makes_quick(&rt, 1000, 5);
    machine.steps_to(&rt, Stop::Went);
    machine.makes_quick(&rt, 1000, 0);
    machine.steps_to(&rt, Stop::Ended);
    Ok(())
}

/// Raw p-code of a loop: it stores 1 + 2 in a variable, and jumps back through the jump table.
const LOOP: [u8; 10] = [0x01, 0x02, 0x82, 0xAB, 0x01, 0xB9, 0xFE, 0xD7, 0x08, 0x00];

/// Tests that every step of a loop uses the fast path, up to the limit.
#[test]
fn loops_go_quickly(rt: HostRuntime) {
    let mut machine = Tested::raw(&rt, rt.alloc(), &LOOP);
    machine.makes_quick(&rt, 0, 0);
    machine.makes_quick(&rt, 1, 1);
    machine.makes_quick(&rt, 999, 999);
    machine.has_made(&rt, 1000);
    machine.runs_to(&rt, 4002, 4002, Stop::Went);
    machine.has_made(&rt, 5002);
    machine.holds(&rt, 65504, 3);
}

/// The same loop, which jumps back by FJP.
const WHILE: [u8; 10] = [0x01, 0x02, 0x82, 0xAB, 0x01, 0x00, 0xA1, 0xFE, 0x08, 0x00];

/// A test of breakpoints that stops no run. It asserts that it is called only before the first two steps.
#[derive(Drop)]
struct AskedAtFirst<'a, A>(&'a A);

impl<A: Abort> StopTest for AskedAtFirst<'_, A> {
    ghost use Rattle.pm_machine.specs.Runs.{never};

    ghost stops = { λ _. never };

    fn stops(&self, count: u64, _: &Machine) -> bool {
        assert!(self.0; count < 2);
        false
    }

    fn never_stops(&self) -> bool {
        true
    }
}

/// Tests that a run uses the fast path.
#[test]
fn runs_go_quickly(rt: HostRuntime) -> Result<(), Fail> {
    let mut machine = Machine::raw(rt.alloc(), &WHILE)?;
    let run = machine.run_until(1000, &AskedAtFirst(&rt))?;
    assert_eq!(rt; run, (1000, RunEnd::Limit));
    assert_eq!(rt; machine.quick_steps(999), 999);
    Ok(())
}

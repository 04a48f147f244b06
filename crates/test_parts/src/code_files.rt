//! Tests that write and read a code file, and disassemble one procedure of a segment.
use crate::one_segment::{NO_NAME, SEGMENT, example};
use crate::programs::SEGMENTS;
use pm_codefile::{Attributes, CodeFile, Slot, attributes, procedures};
use std::test::Fail;

#[test]
fn written_file_is_read(rt: HostRuntime) -> Result<(), Fail> {
    let bytes = example(rt.alloc())?;
    assert_eq!(rt; bytes.len(), 1024);
    let Ok(file) = CodeFile::read(&bytes) else {
        assert!(rt; false);
        return Ok(());
    };
    let slot = Slot {
        block: 1,
        length: 16,
        kind: 0,
        name: *b"PROGRAM ",
    };
    assert_eq!(rt; file.slot(1), Some(slot));
    assert_eq!(rt; file.slot(16), None);
    assert!(rt; file.segment(0).is_none());
    assert!(rt; file.segment(1) == Some(SEGMENT.as_slice()));
    assert_eq!(rt; procedures(&SEGMENT), 1);
    let table = Attributes {
        procedure: 1,
        level: -1,
        enter: 0,
        exit: 0,
        parameters: 2,
        locals: 4,
        jtab: 10,
    };
    assert_eq!(rt; attributes(&SEGMENT, 1), Some(table));
    assert_eq!(rt; attributes(&SEGMENT, 2), None);
    Ok(())
}

/// Returns whether the bytes `wanted` are at the offset `place` of `bytes`.
fn has(bytes: &[u8], place: usize, wanted: &[u8]) -> bool {
    match bytes.get(place..) {
        Some(rest) => rest.starts_with(wanted),
        None => false,
    }
}

/// Tests a file of sixteen segments of 65,534 bytes, the greatest length that a slot can have. Their bytes are 1 in
/// slots 0 to 7, and 2 in the other slots. Each segment occupies 128 blocks, with two zeros at the end. The segment of
/// slot n begins at block 1 + 128 n.
#[test]
fn largest_file_is_written(rt: HostRuntime) -> Result<(), Fail> {
    let mut segments = vec![in rt.alloc(); 1; 524_272]?;
    let others = vec![in rt.alloc(); 2; 524_272]?;
    segments.extend_from_slice(&others)?;
    let bytes = pm_codefile::write(rt.alloc(), &[NO_NAME; 16], &[65_534; 16], &segments)?;
    assert_eq!(rt; bytes.len(), 512 * (1 + 16 * 128));
    for n in 0..16 {
        let block: u16 = 1 + 128 * n;
        let [low, high] = block.to_le_bytes();
        assert!(rt; has(&bytes, 4 * usize::from(n), &[low, high, 0xFE, 0xFF]));
        let begin = 512 * usize::from(block);
        let byte = if n < 8 { 1 } else { 2 };
        let segment = vec![in rt.alloc(); byte; 65_534]?;
        assert!(rt; has(&bytes, begin, &segment));
        assert!(rt; has(&bytes, begin + 65_534, &[0, 0]));
    }
    assert!(rt; has(&bytes, 64, &[b' '; 128]));
    assert!(rt; has(&bytes, 192, &[0; 320]));
    Ok(())
}

/// Tests the disassembly of only one procedure of a segment.
#[test]
fn one_procedure(rt: HostRuntime) -> Result<(), Fail> {
    let alloc = rt.alloc();
    let segment = SEGMENTS.get(22..38).ok_or("no segment")?;
    let table = attributes(segment, 1).ok_or("no table")?;
    let text = pm_disasm::procedure(alloc, segment, &table)?;
    assert_eq!(rt; text.as_str(), ".PROC 1 0 0 4\n.EXIT\n  RBP 0\n.END\n");
    Ok(())
}

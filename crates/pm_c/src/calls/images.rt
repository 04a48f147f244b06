//! Tests of the calls on formats of images, on the system segment, and on the report of a salvage.
use crate::calls::volumes::{blank, with_a, with_program};
use crate::calls::{Answer, answer};
use crate::conversions::*;
use crate::images::*;
use crate::jobs::*;
use crate::volumes::*;
use std::alloc::Global;
use std::process::Abort;

#[test]
fn formats_are_listed(rt: HostRuntime) {
    let alloc = rt.alloc();
    let image = blank(&rt, alloc);
    answer!(&rt, alloc, pmach_formats, &image).lists(
        &rt,
        &["blocks OWN: files 0 free 34 largest 34"],
    );
    answer!(&rt, alloc, pmach_formats, b"short").says(&rt, 0, "");
    let swapped = answer!(&rt, alloc, pmach_convert, &image, b"blocks", b"swapped").bytes;
    answer!(&rt, alloc, pmach_formats, &swapped).lists(
        &rt,
        &["swapped OWN: files 0 free 34 largest 34"],
    );
}

// The header of the directory of a volume WORK with 280 blocks and without files.
pub(super) const WORK: [u8; 18] = [
    0, 0, 6, 0, 0, 0, 4, b'W', b'O', b'R', b'K', 0, 0, 0, 24, 1, 0, 0,
];

/// Returns an image of 280 blocks with this header in block 2, and in the sector that is read as the first half of
/// block 2 in DOS order: sector 11 of track 0.
pub(super) fn in_two_orders(rt: &impl Abort, alloc: Global) -> Vec<u8> {
    let mut image = Vec::new(alloc);
    image.resize(1024, 0).expect(rt, "memory");
    image.extend_from_slice(&WORK).expect(rt, "memory");
    image.resize(2816, 0).expect(rt, "memory");
    image.extend_from_slice(&WORK).expect(rt, "memory");
    image.resize(143_360, 0).expect(rt, "memory");
    image
}

#[test]
fn several_formats_are_refused(rt: HostRuntime) {
    let alloc = rt.alloc();
    let image = in_two_orders(&rt, alloc);
    answer!(&rt, alloc, pmach_formats, &image).lists(
        &rt,
        &[
            "blocks WORK: files 0 free 274 largest 274",
            "dos WORK: files 0 free 274 largest 274",
        ],
    );
    answer!(&rt, alloc, pmach_convert, &image, b"", b"blocks").says(&rt, 2, "refused convert 2");
    answer!(&rt, alloc, pmach_convert_back, &image, b"", &image).says(&rt, 2, "refused convert 2");
}

#[test]
fn images_are_converted(rt: HostRuntime) {
    let alloc = rt.alloc();
    let image = blank(&rt, alloc);
    answer!(&rt, alloc, pmach_convert, &image, b"", b"blocks").is(&rt, 0, &image);
    let swapped = answer!(&rt, alloc, pmach_convert, &image, b"", b"swapped");
    assert_eq!(rt; (swapped.status, swapped.bytes.len()), (0, 20_480));
    assert_eq!(rt;
        image.get(1024..1034),
        Some(b"\0\0\x06\0\0\0\x03OWN".as_slice())
    );
    assert_eq!(rt;
        swapped.bytes.get(1024..1034),
        Some(b"\0\0\0\x06\0\0O\x03NW".as_slice())
    );
    answer!(&rt, alloc, pmach_convert, &swapped.bytes, b"", b"blocks").is(&rt, 0, &image);
    answer!(
        &rt,
        alloc,
        pmach_convert,
        &swapped.bytes,
        b"blocks",
        b"blocks"
    )
    .is(&rt, 0, &swapped.bytes);
    answer!(&rt, alloc, pmach_convert, b"short", b"", b"blocks").says(&rt, 2, "refused convert 1");
    answer!(&rt, alloc, pmach_convert, &image, b"dos", b"blocks").says(&rt, 2, "refused convert 3");
    answer!(&rt, alloc, pmach_convert, &image, b"", b"dos").says(&rt, 2, "refused convert 4");
    answer!(&rt, alloc, pmach_convert, &image, b"", b"").says(&rt, 17, "");
    answer!(&rt, alloc, pmach_convert, &image, b"raw", b"blocks").says(&rt, 17, "");
    answer!(&rt, alloc, pmach_convert, &image, b"\xFF", b"blocks").says(&rt, 17, "");
}

#[test]
fn images_get_other_blocks(rt: HostRuntime) {
    let alloc = rt.alloc();
    let image = with_a(&rt, alloc);
    let old = answer!(
        &rt,
        alloc,
        pmach_convert,
        &blank(&rt, alloc),
        b"",
        b"2mg-blocks"
    );
    assert_eq!(rt; (old.status, old.bytes.len()), (0, 20_544));
    let new = answer!(&rt, alloc, pmach_convert_back, &old.bytes, b"", &image);
    assert_eq!(rt; (new.status, new.bytes.len()), (0, 20_544));
    assert_eq!(rt; new.bytes.get(..64), old.bytes.get(..64));
    assert_eq!(rt; new.bytes.get(64..), Some(image.as_slice()));
    let swapped = answer!(&rt, alloc, pmach_convert, &image, b"", b"swapped").bytes;
    answer!(&rt, alloc, pmach_convert_back, &image, b"swapped", &image).is(&rt, 0, &swapped);
    answer!(&rt, alloc, pmach_convert_back, b"short", b"", &image).says(
        &rt,
        2,
        "refused convert 1",
    );
    answer!(&rt, alloc, pmach_convert_back, &image, b"2mg-dos", &image).says(
        &rt,
        2,
        "refused convert 3",
    );
    answer!(&rt, alloc, pmach_convert_back, &image, b"", b"short").says(
        &rt,
        2,
        "refused convert 4",
    );
    answer!(&rt, alloc, pmach_convert_back, &image, b"DOS", &image).says(&rt, 17, "");
}

const SYSTEM: &[u8] = b".SEG 0 SYS\n.PROC 1 0 0 0\n.EXIT\nRNP 0\n.END\n";

/// Checks that `image` has one file, with two blocks and 16 bytes: the old file has two blocks, and the segment has 16
/// bytes (2 of code, 10 of the attribute table and 4 of the dictionary).
fn has_longer_file(rt: &impl Abort, alloc: Global, image: &Answer) {
    answer!(rt, alloc, pmach_list, &image.bytes).lists(
        rt,
        &[
            "OWN:",
            "OK              code     6     3  16 000-00-00",
            "files 1 free 31 largest 31",
        ],
    );
}

#[test]
fn a_program_gets_the_system(rt: HostRuntime) {
    let alloc = rt.alloc();
    let image = with_program(&rt, alloc);
    let system = answer!(&rt, alloc, pmach_assemble, SYSTEM, false).bytes;
    let new = answer!(&rt, alloc, pmach_with_system, &image, b"OK", &system);
    assert_eq!(rt; (new.status, new.bytes.len()), (0, 20_480));
    has_longer_file(&rt, alloc, &new);
    answer!(&rt, alloc, pmach_with_system, &new.bytes, b"OK", &system).says(
        &rt,
        2,
        "refused system 4",
    );
    answer!(&rt, alloc, pmach_with_system, &image, b"NONE", &system).is(&rt, 0, &image);
    answer!(&rt, alloc, pmach_with_system, &image, b"OK", b"short").says(
        &rt,
        2,
        "refused system 1 1",
    );
    let own = answer!(&rt, alloc, pmach_get, &image, b"OK").bytes;
    answer!(&rt, alloc, pmach_with_system, &image, b"OK", &own).says(&rt, 2, "refused system 2");
    answer!(&rt, alloc, pmach_with_system, b"short", b"OK", &system).says(
        &rt,
        2,
        "refused volume 1",
    );
    answer!(&rt, alloc, pmach_with_system, &image, b"\xFF", &system).says(&rt, 12, "");
}

#[test]
fn a_salvage_is_reported(rt: HostRuntime) {
    let alloc = rt.alloc();
    let image = with_a(&rt, alloc);
    answer!(&rt, alloc, pmach_salvage_report, &image, false).lists(
        &rt,
        &["slot 1 taken as A", "files 1 left out 0 doubted 0"],
    );
    answer!(&rt, alloc, pmach_salvage_report, &blank(&rt, alloc), true).lists(
        &rt,
        &["files 0 left out 0 doubted 0"],
    );
    answer!(&rt, alloc, pmach_salvage_report, b"short", false).says(&rt, 2, "refused volume 2");
}

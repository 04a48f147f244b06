//! Tests of the searches in an image, of the comparison of two volumes, of the list of a volume, of removed files, and of
//! the form of an image. The expected lines were worked out from the descriptions of the commands `find`, `grep`, `info`,
//! `files diff`, `files list`, `files undelete` and `--form auto`.
use crate::calls::images::{WORK, in_two_orders};
use crate::calls::volumes::{blank, with_a};
use crate::calls::{Answer, answer};
use crate::comparisons::*;
use crate::conversions::*;
use crate::entries::*;
use crate::removed::*;
use crate::searches::*;
use crate::volumes::*;
use std::alloc::Global;
use std::process::Abort;

/// Returns a volume with the data file A and the text file T, which has two lines.
fn with_text(rt: &impl Abort, alloc: Global) -> Vec<u8> {
    answer!(
        rt,
        alloc,
        pmach_put_text,
        &with_a(rt, alloc),
        b"T",
        b"hi\nho\n"
    )
    .bytes
}

#[test]
fn files_are_found(rt: HostRuntime) {
    let alloc = rt.alloc();
    let image = with_text(&rt, alloc);
    answer!(&rt, alloc, pmach_find, b"own.img", &image, b"=").lists(
        &rt,
        &["own.img: A", "own.img: T"],
    );
    answer!(&rt, alloc, pmach_find, b"", &image, b"t").lists(&rt, &[": T"]);
    answer!(&rt, alloc, pmach_find, b"own.img", &image, b"Z").says(&rt, 18, "");
    answer!(&rt, alloc, pmach_find, b"own.img", &image, b"").says(&rt, 18, "");
    answer!(&rt, alloc, pmach_find, b"own.img", &image, b"\xFF").says(&rt, 12, "");
    answer!(&rt, alloc, pmach_find, b"\xFF", &image, b"=").says(&rt, 12, "");
    answer!(&rt, alloc, pmach_find, b"x", b"short", b"=").says(&rt, 2, "x: no volume\n");
    answer!(
        &rt,
        alloc,
        pmach_find,
        b"x",
        &in_two_orders(&rt, alloc),
        b"="
    )
    .says(&rt, 2, "x: several formats: blocks, dos\n");
    let swapped = answer!(&rt, alloc, pmach_convert, &image, b"", b"swapped").bytes;
    answer!(&rt, alloc, pmach_find, b"s", &swapped, b"A").lists(&rt, &["s: A"]);
}

#[test]
fn lines_are_found(rt: HostRuntime) {
    let alloc = rt.alloc();
    let image = with_text(&rt, alloc);
    answer!(&rt, alloc, pmach_grep, b"own.img", &image, b"h").lists(
        &rt,
        &["own.img: T: 1: hi", "own.img: T: 2: ho"],
    );
    answer!(&rt, alloc, pmach_grep, b"own.img", &image, b"o").lists(&rt, &["own.img: T: 2: ho"]);
    answer!(&rt, alloc, pmach_grep, b"p", &image, b"").lists(&rt, &["p: T: 1: hi", "p: T: 2: ho"]);
    answer!(&rt, alloc, pmach_grep, b"own.img", &image, b"H").says(&rt, 18, "");
    answer!(&rt, alloc, pmach_grep, b"own.img", &image, b"xyz").says(&rt, 18, "");
    answer!(&rt, alloc, pmach_grep, b"own.img", &image, b"\xFF").says(&rt, 18, "");
    answer!(&rt, alloc, pmach_grep, b"\xFF", &image, b"h").says(&rt, 12, "");
    answer!(&rt, alloc, pmach_grep, b"x", b"short", b"h").says(&rt, 2, "x: no volume\n");
}

#[test]
fn images_are_described(rt: HostRuntime) {
    let alloc = rt.alloc();
    let image = with_text(&rt, alloc);
    answer!(&rt, alloc, pmach_info, b"own.img", &image).lists(
        &rt,
        &["own.img: blocks OWN: files 2, free 29, largest 29"],
    );
    answer!(&rt, alloc, pmach_info, b"\xFF", &image).says(&rt, 12, "");
    answer!(&rt, alloc, pmach_info, b"x", b"short").says(&rt, 2, "x: no volume\n");
    answer!(&rt, alloc, pmach_info, b"x", &in_two_orders(&rt, alloc)).says(
        &rt,
        2,
        "x: several formats: blocks, dos\n",
    );
}

#[test]
fn volumes_are_compared(rt: HostRuntime) {
    let alloc = rt.alloc();
    let (one, two) = (with_a(&rt, alloc), with_text(&rt, alloc));
    answer!(&rt, alloc, pmach_compare, &two, &two).lists(&rt, &["same: A", "same: T"]);
    let none = blank(&rt, alloc);
    answer!(&rt, alloc, pmach_compare, &none, &none).says(&rt, 0, "");
    answer!(&rt, alloc, pmach_compare, &one, &two).says(&rt, 19, "same: A\nonly there: T\n");
    answer!(&rt, alloc, pmach_compare, &two, &one).says(&rt, 19, "same: A\nonly here: T\n");
    let other = answer!(&rt, alloc, pmach_put, &none, b"a", 5, b"xya").bytes;
    answer!(&rt, alloc, pmach_compare, &one, &other).says(&rt, 19, "differ: A: byte 2\n");
    let other = answer!(&rt, alloc, pmach_put, &none, b"A", 5, b"xyzw").bytes;
    answer!(&rt, alloc, pmach_compare, &one, &other).says(&rt, 19, "differ: A: byte 3\n");
    let other = answer!(&rt, alloc, pmach_put, &none, b"A", 2, b"xyz").bytes;
    answer!(&rt, alloc, pmach_compare, &one, &other).says(&rt, 19, "differ: A: kind\n");
}

#[test]
fn images_that_are_no_volumes_are_not_compared(rt: HostRuntime) {
    let alloc = rt.alloc();
    let image = blank(&rt, alloc);
    let block = [0; 512];
    answer!(&rt, alloc, pmach_compare, b"short", &block).says(&rt, 2, "refused volume 1");
    answer!(&rt, alloc, pmach_compare, &block, b"short").says(&rt, 2, "refused volume 2");
    answer!(&rt, alloc, pmach_compare, &image, b"short").says(&rt, 2, "refused volume 1");
    let (mut bytes, mut needed) = ([7; 3], 0);
    let code = pmach_compare(alloc, b"short", &image, &mut bytes, &mut needed);
    assert_eq!(rt; (code, needed, bytes), (7, 16, [7; 3]));
}

#[test]
fn entries_are_listed(rt: HostRuntime) {
    let alloc = rt.alloc();
    let image = with_a(&rt, alloc);
    answer!(&rt, alloc, pmach_entries, &image, false).says(
        &rt,
        0,
        "1\tA\tdata\t6\t1\t3\t3\t000-00-00\n",
    );
    answer!(&rt, alloc, pmach_entries, &image, true).lists(
        &rt,
        &[
            "{\"volume\": \"OWN\", \"blocks\": 40, \"free\": 33, \"largest\": 33, \"files\": [",
            "{\"slot\": 1, \"name\": \"A\", \"kind\": \"data\", \"first\": 6, \"blocks\": 1, \"lastBytes\": 3, \"bytes\": 3, \"year\": 0, \"month\": 0, \"day\": 0}",
            "]}",
        ],
    );
    answer!(&rt, alloc, pmach_entries, &blank(&rt, alloc), false).says(&rt, 0, "");
    answer!(&rt, alloc, pmach_entries, b"short", true).says(&rt, 2, "refused volume 1");
    let (mut bytes, mut needed) = ([7; 3], 0);
    let code = pmach_entries(alloc, &image, false, &mut bytes, &mut needed);
    assert_eq!(rt; (code, needed, bytes), (7, 27, [7; 3]));
}

#[test]
fn removed_files_are_found(rt: HostRuntime) {
    let alloc = rt.alloc();
    let image = with_text(&rt, alloc);
    answer!(&rt, alloc, pmach_undelete, &image).says(&rt, 0, "");
    let text = answer!(&rt, alloc, pmach_get, &image, b"T").bytes;
    assert_eq!(rt; text.len(), 2048);
    let image = answer!(&rt, alloc, pmach_remove, &image, b"T").bytes;
    answer!(&rt, alloc, pmach_undelete, &image).says(&rt, 0, "block 7 blocks 4 text\n");
    let blocks = answer!(&rt, alloc, pmach_undelete_blocks, &image, 7, 4);
    assert_eq!(rt; (blocks.status, blocks.bytes == text), (0, true));
    answer!(&rt, alloc, pmach_undelete_blocks, &image, 6, 1).says(&rt, 2, "refused undelete 1");
    answer!(&rt, alloc, pmach_undelete_blocks, &image, 7, 0).says(&rt, 2, "refused undelete 1");
    answer!(&rt, alloc, pmach_undelete_blocks, &image, 39, 2).says(&rt, 2, "refused undelete 1");
    answer!(&rt, alloc, pmach_undelete_blocks, b"short", 7, 4).says(&rt, 2, "refused volume 1");
    answer!(&rt, alloc, pmach_undelete, b"short").says(&rt, 2, "refused volume 1");
}

#[test]
fn forms_are_found(rt: HostRuntime) {
    let alloc = rt.alloc();
    let image = blank(&rt, alloc);
    answer!(&rt, alloc, pmach_form, &image).says(&rt, 0, "blocks");
    let swapped = answer!(&rt, alloc, pmach_convert, &image, b"", b"swapped").bytes;
    answer!(&rt, alloc, pmach_form, &swapped).says(&rt, 0, "swapped");
    let headed = answer!(&rt, alloc, pmach_convert, &image, b"", b"2mg-blocks").bytes;
    answer!(&rt, alloc, pmach_form, &headed).says(&rt, 0, "2mg");
    // The first entry of the directory begins 26 bytes after its header. Block 255 is past the end of the volume.
    let mut damaged = answer!(
        &rt,
        alloc,
        pmach_convert,
        &with_a(&rt, alloc),
        b"",
        b"2mg-blocks"
    )
    .bytes;
    assert_eq!(rt; damaged.get(1114), Some(&6));
    if let Some(first) = damaged.get_mut(1114) {
        *first = 255;
    }
    answer!(&rt, alloc, pmach_form, &damaged).says(&rt, 0, "2mg");
    let mut dos = Vec::new(alloc);
    dos.resize(2816, 0).expect(&rt, "memory");
    dos.extend_from_slice(&WORK).expect(&rt, "memory");
    dos.resize(143_360, 0).expect(&rt, "memory");
    answer!(&rt, alloc, pmach_form, &dos).says(&rt, 0, "dos");
    answer!(&rt, alloc, pmach_form, b"short").says(&rt, 0, "blocks");
    answer!(&rt, alloc, pmach_form, &in_two_orders(&rt, alloc)).says(&rt, 2, "refused form 1");
    let (mut bytes, mut needed) = ([7; 3], 0);
    let code = pmach_form(alloc, &image, &mut bytes, &mut needed);
    assert_eq!(rt; (code, needed, bytes), (7, 6, [7; 3]));
}

//! Tests of the jobs on volumes. The image that a call returns is given to the next call.
use crate::calls::{Answer, answer};
use crate::debugger::pmach_debug;
use crate::filing::*;
use crate::slots::*;
use crate::volumes::*;
use std::alloc::Global;
use std::process::Abort;

/// Returns a new volume of 40 blocks.
pub(super) fn blank(rt: &impl Abort, alloc: Global) -> Vec<u8> {
    answer!(rt, alloc, pmach_volume, b"OWN", 40).bytes
}

/// Returns a volume with a file of three bytes.
pub(super) fn with_a(rt: &impl Abort, alloc: Global) -> Vec<u8> {
    answer!(rt, alloc, pmach_put, &blank(rt, alloc), b"A", 5, b"xyz").bytes
}

/// Checks that `image` has the given list of files.
fn has_list(rt: &impl Abort, alloc: Global, image: &Answer, lines: &[&str]) {
    assert_eq!(rt; (image.status, image.bytes.len()), (0, 20_480));
    answer!(rt, alloc, pmach_list, &image.bytes).lists(rt, lines);
}

#[test]
fn volumes_are_made(rt: HostRuntime) {
    let alloc = rt.alloc();
    let image = answer!(&rt, alloc, pmach_volume, b"OWN", 40);
    has_list(&rt, alloc, &image, &["OWN:", "files 0 free 34 largest 34"]);
    let two = answer!(&rt, alloc, pmach_duplicate, &image.bytes);
    has_list(&rt, alloc, &two, &["OWN:", "files 0 free 30 largest 30"]);
    let one = answer!(&rt, alloc, pmach_single, &two.bytes);
    has_list(&rt, alloc, &one, &["OWN:", "files 0 free 34 largest 34"]);
    let image = with_a(&rt, alloc);
    let zero = answer!(&rt, alloc, pmach_zero, &image, b"Z");
    has_list(&rt, alloc, &zero, &["Z:", "files 0 free 34 largest 34"]);
    answer!(&rt, alloc, pmach_check, &image).says(&rt, 0, "good\n");
    answer!(&rt, alloc, pmach_check, b"short").says(
        &rt,
        2,
        "length 5 is no multiple of 512\nlength 5 is below 3072\nfaults 2\nrefused volume 1",
    );
    answer!(&rt, alloc, pmach_repair, &image).is(&rt, 0, &image);
    let saved = answer!(&rt, alloc, pmach_salvage, &image, false);
    has_list(
        &rt,
        alloc,
        &saved,
        &[
            "OWN:",
            "A               data     6     1   3 000-00-00",
            "files 1 free 33 largest 33",
        ],
    );
}

#[test]
fn files_are_put_and_got(rt: HostRuntime) {
    let alloc = rt.alloc();
    let image = with_a(&rt, alloc);
    let image = answer!(&rt, alloc, pmach_put_text, &image, b"T", b"hi\n");
    has_list(
        &rt,
        alloc,
        &image,
        &[
            "OWN:",
            "A               data     6     1   3 000-00-00",
            "T               text     7     4 512 000-00-00",
            "files 2 free 29 largest 29",
        ],
    );
    let image = image.bytes;
    answer!(&rt, alloc, pmach_get, &image, b"A").says(&rt, 0, "xyz");
    answer!(&rt, alloc, pmach_get_slot, &image, 1).says(&rt, 0, "xyz");
    answer!(&rt, alloc, pmach_get_text, &image, b"T").says(&rt, 0, "hi\n");
    answer!(&rt, alloc, pmach_get_text_slot, &image, 2).says(&rt, 0, "hi\n");
    answer!(&rt, alloc, pmach_get, &image, b"NONE").says(&rt, 2, "refused filer 1 11");
    answer!(&rt, alloc, pmach_get_slot, &image, 3).says(&rt, 2, "refused filer 1 11");
}

const NO_A: [&str; 3] = [
    "OWN:",
    "T               data     7     1   1 000-00-00",
    "files 1 free 33 largest 32",
];

#[test]
fn files_are_removed(rt: HostRuntime) {
    let alloc = rt.alloc();
    let image = answer!(&rt, alloc, pmach_put, &with_a(&rt, alloc), b"T", 5, b"t").bytes;
    let rest = answer!(&rt, alloc, pmach_remove, &image, b"A");
    has_list(&rt, alloc, &rest, &NO_A);
    answer!(&rt, alloc, pmach_remove_slot, &image, 1).is(&rt, 0, &rest.bytes);
    let moved = answer!(&rt, alloc, pmach_krunch, &rest.bytes);
    has_list(
        &rt,
        alloc,
        &moved,
        &[
            "OWN:",
            "T               data     6     1   1 000-00-00",
            "files 1 free 33 largest 33",
        ],
    );
}

const NAMED_B: [&str; 3] = [
    "OWN:",
    "B               data     6     1   3 000-00-00",
    "files 1 free 33 largest 33",
];

const OF_KIND_2: [&str; 3] = [
    "OWN:",
    "A               code     6     1   3 000-00-00",
    "files 1 free 33 largest 33",
];

const COPIED: [&str; 3] = [
    "OWN:",
    "C               data     6     1   3 000-00-00",
    "files 1 free 33 largest 33",
];

#[test]
fn entries_are_changed(rt: HostRuntime) {
    let alloc = rt.alloc();
    let image = with_a(&rt, alloc);
    let named = answer!(&rt, alloc, pmach_change, &image, b"A", b"B");
    has_list(&rt, alloc, &named, &NAMED_B);
    answer!(&rt, alloc, pmach_change_slot, &image, 1, b"B").is(&rt, 0, &named.bytes);
    let kind = answer!(&rt, alloc, pmach_kind, &image, b"A", 2);
    has_list(&rt, alloc, &kind, &OF_KIND_2);
    answer!(&rt, alloc, pmach_kind_slot, &image, 1, 2).is(&rt, 0, &kind.bytes);
    answer!(&rt, alloc, pmach_copy, &blank(&rt, alloc), b"A", &image).is(&rt, 0, &image);
    let copy = answer!(
        &rt,
        alloc,
        pmach_copy_slot,
        &blank(&rt, alloc),
        1,
        b"C",
        &image
    );
    has_list(&rt, alloc, &copy, &COPIED);
    let dated = answer!(&rt, alloc, pmach_date, &blank(&rt, alloc), 84, 12, 1).bytes;
    let dated = answer!(&rt, alloc, pmach_put, &dated, b"A", 5, b"xyz");
    has_list(
        &rt,
        alloc,
        &dated,
        &[
            "OWN:",
            "A               data     6     1   3 084-12-01",
            "files 1 free 33 largest 33",
        ],
    );
}

/// Returns a volume with the program that the tests of jobs assemble.
pub(super) fn with_program(rt: &impl Abort, alloc: Global) -> Vec<u8> {
    let file = super::jobs::file(rt, alloc).bytes;
    answer!(rt, alloc, pmach_put, &blank(rt, alloc), b"OK", 2, &file).bytes
}

#[test]
fn a_program_is_debugged(rt: HostRuntime) {
    let alloc = rt.alloc();
    let image = with_program(&rt, alloc);
    answer!(
        &rt,
        alloc,
        pmach_debug,
        &image,
        b"OK",
        b"go 2\nwhere\nquit\n"
    )
    .says(&rt, 0, "limit 2\n1 1 6 RBP 0\n");
}

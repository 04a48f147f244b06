//! Tests of the numbers in the header that the tests of whole jobs do not cover. Each number is returned by a call.
use crate::calls::machines::{SUM, raw};
use crate::calls::volumes::blank;
use crate::calls::{Answer, NOTHING, NOWHERE, answer};
use crate::disks::*;
use crate::events::*;
use crate::filing::*;
use crate::handle::Handle;
use crate::jobs::*;
use crate::lines::*;
use crate::sentences::*;
use crate::session::*;
use crate::shows::*;
use crate::starts::*;
use crate::volumes::*;

#[test]
fn events_of_an_empty_handle_answer_8(rt: HostRuntime) {
    let alloc = rt.alloc();
    let mut h = Handle::empty();
    let (mut steps, mut address) = (7, 7);
    assert_eq!(rt; pmach_step(alloc, &mut h), 8);
    assert_eq!(rt; (pmach_run(alloc, &mut h, 9, &mut steps), steps), (8, 7));
    let code = pmach_go(alloc, &mut h, 9, &mut steps, &mut address);
    assert_eq!(rt; (code, steps, address), (8, 7, 7));
    assert_eq!(rt; pmach_key(alloc, &mut h, 65), 8);
    assert_eq!(rt; pmach_poke(alloc, &mut h, 1024, 7), 8);
    assert_eq!(rt; pmach_mount(alloc, &mut h, 5, b""), 8);
    assert_eq!(rt; pmach_eject(alloc, &mut h, 5), 8);
    assert_eq!(rt; pmach_command(alloc, &mut h, b"regs"), 8);
    assert_eq!(rt; pmach_break(alloc, &mut h, 1, 1, 0, true), 8);
    assert_eq!(rt; pmach_watch(alloc, &mut h, 1024, true), 8);
    pmach_free(alloc, &mut h);
}

#[test]
fn an_empty_handle_shows_nothing(rt: HostRuntime) {
    let alloc = rt.alloc();
    let mut h = Handle::empty();
    let (mut word, mut shown, mut place) = (7, NOTHING, NOWHERE);
    assert_eq!(rt; (pmach_word(alloc, &mut h, 1024, &mut word), word), (8, 7));
    assert_eq!(rt;
        (pmach_registers(alloc, &mut h, &mut shown), shown.sp),
        (8, 0)
    );
    assert_eq!(rt;
        (pmach_place(alloc, &mut h, &mut place), place.segment),
        (8, 0)
    );
    answer!(&rt, alloc, pmach_answer, &mut h).says(&rt, 8, "");
    answer!(&rt, alloc, pmach_ejected, &mut h).says(&rt, 8, "");
    answer!(&rt, alloc, pmach_line, &mut h).says(&rt, 8, "");
    answer!(&rt, alloc, pmach_instruction, &mut h, 1024).says(&rt, 8, "");
    answer!(&rt, alloc, pmach_console, &mut h, 0).says(&rt, 8, "");
    answer!(&rt, alloc, pmach_printer, &mut h, 0).says(&rt, 8, "");
}

// Two programs: one with SLDC 1, SLDC 0 and DVI, and one with RNP 0.
const BY_ZERO: [u8; 3] = [1, 0, 0x86];

const RETURNS: [u8; 2] = [0xAD, 0];

#[test]
fn errors_and_no_place_have_numbers(rt: HostRuntime) {
    let alloc = rt.alloc();
    let (mut steps, mut shown, mut place) = (0, NOTHING, NOWHERE);
    let mut h = raw(&rt, alloc, &BY_ZERO);
    assert_eq!(rt; (pmach_run(alloc, &mut h, 9, &mut steps), steps), (106, 2));
    assert_eq!(rt;
        (pmach_registers(alloc, &mut h, &mut shown), shown.status),
        (0, 106)
    );
    pmach_free(alloc, &mut h);
    // RNP sets JTAB to the word MSJTAB of its frame. The test makes this word odd.
    let mut h = raw(&rt, alloc, &RETURNS);
    assert_eq!(rt; pmach_poke(alloc, &mut h, 65_496, 1025), 0);
    assert_eq!(rt; pmach_step(alloc, &mut h), 2);
    assert_eq!(rt;
        (pmach_place(alloc, &mut h, &mut place), place.segment),
        (13, 0)
    );
    pmach_free(alloc, &mut h);
}

#[test]
fn what_is_too_much_has_numbers(rt: HostRuntime) {
    let alloc = rt.alloc();
    let mut long = Vec::new(alloc);
    long.resize(16_777_217, b' ').expect(&rt, "memory");
    answer!(&rt, alloc, pmach_assemble, &long, false).says(&rt, 4, "");
    let mut h = raw(&rt, alloc, &SUM);
    for offset in 0..64 {
        assert_eq!(rt; pmach_break(alloc, &mut h, 1, 1, offset, true), 0);
        assert_eq!(rt; pmach_watch(alloc, &mut h, 2 * offset, true), 0);
    }
    assert_eq!(rt; pmach_break(alloc, &mut h, 1, 1, 64, true), 501);
    assert_eq!(rt; pmach_watch(alloc, &mut h, 128, true), 501);
    pmach_free(alloc, &mut h);
    let mut h = Handle::empty();
    let mut code = Vec::new(alloc);
    code.resize(60_001, 0xD7).expect(&rt, "memory");
    assert_eq!(rt; pmach_new(alloc, &mut h, &code), 203);
}

#[test]
fn refusals_have_their_numbers(rt: HostRuntime) {
    let alloc = rt.alloc();
    let image = blank(&rt, alloc);
    let mut word = 7;
    let mut h = raw(&rt, alloc, &SUM);
    assert_eq!(rt; pmach_new(alloc, &mut h, &SUM), 9);
    assert_eq!(rt; pmach_boot(alloc, &mut h, &image, b"OK", 0), 9);
    assert_eq!(rt; (pmach_word(alloc, &mut h, 1025, &mut word), word), (10, 7));
    assert_eq!(rt; pmach_poke(alloc, &mut h, 1025, 7), 10);
    assert_eq!(rt; pmach_break(alloc, &mut h, 1, 1, 0, false), 502);
    assert_eq!(rt; pmach_watch(alloc, &mut h, 1025, true), 503);
    pmach_free(alloc, &mut h);
    assert_eq!(rt; pmach_boot(alloc, &mut h, &image, b"OK", 0), 201);
    assert_eq!(rt; pmach_boot(alloc, &mut h, b"short", b"OK", 0), 401);
    assert_eq!(rt; pmach_boot(alloc, &mut h, &image, b"\xFF", 0), 12);
    answer!(&rt, alloc, pmach_get, &image, b"\xFF").says(&rt, 12, "");
    answer!(&rt, alloc, pmach_put, &image, b"A", 16, b"").says(&rt, 14, "");
    answer!(&rt, alloc, pmach_kind, &image, b"A", 16).says(&rt, 14, "");
    answer!(&rt, alloc, pmach_kind_slot, &image, 1, 255).says(&rt, 14, "");
}

#[test]
fn a_short_buffer_stays(rt: HostRuntime) {
    let alloc = rt.alloc();
    let (mut bytes, mut needed) = ([7; 3], 0);
    let image = blank(&rt, alloc);
    let code = pmach_list(alloc, &image, &mut bytes, &mut needed);
    assert_eq!(rt; (code, needed, bytes), (7, 32, [7; 3]));
}

#[test]
fn numbers_have_sentences(rt: HostRuntime) {
    let alloc = rt.alloc();
    assert_eq!(rt; pmach_version(), 1);
    for status in 0..20 {
        let mut bytes = crate::calls::room(&rt, alloc);
        let mut needed = 0;
        assert_eq!(rt; pmach_sentence(status, &mut bytes, &mut needed), 0);
        assert!(rt; needed > 0);
    }
}

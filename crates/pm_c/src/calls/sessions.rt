//! Tests of continued runs and of variables.
use crate::calls::machines::{SUM, booted, raw};
use crate::events::*;
use crate::handle::Handle;
use crate::session::*;

#[test]
fn a_run_in_slices_is_one_run(rt: HostRuntime) {
    let alloc = rt.alloc();
    let mut handle = booted(&rt, alloc);
    let (mut steps, mut address) = (7, 7);
    let code = pmach_on(alloc, &mut handle, 9, &mut steps, &mut address);
    assert_eq!(rt; (code, steps, address), (506, 7, 7));
    assert_eq!(rt; pmach_break(alloc, &mut handle, 1, 1, 6, true), 0);
    let code = pmach_go(alloc, &mut handle, 1, &mut steps, &mut address);
    assert_eq!(rt; (code, steps), (0, 1));
    let code = pmach_on(alloc, &mut handle, 1, &mut steps, &mut address);
    assert_eq!(rt; (code, steps), (0, 2));
    // The machine is at the breakpoint, at which `pmach_go` does not stop before its first step.
    let code = pmach_on(alloc, &mut handle, 99, &mut steps, &mut address);
    assert_eq!(rt; (code, steps, address), (15, 2, 7));
    let code = pmach_on(alloc, &mut handle, 99, &mut steps, &mut address);
    assert_eq!(rt; (code, steps), (506, 2));
    pmach_free(alloc, &mut handle);
}

#[test]
fn a_continued_run_stops_at_a_change(rt: HostRuntime) {
    let alloc = rt.alloc();
    let mut handle = raw(&rt, alloc, &SUM);
    let (mut steps, mut address) = (0, 7);
    assert_eq!(rt; pmach_watch(alloc, &mut handle, 65_490, true), 0);
    let code = pmach_go(alloc, &mut handle, 1, &mut steps, &mut address);
    assert_eq!(rt; (code, steps, address), (0, 1, 7));
    let code = pmach_on(alloc, &mut handle, 9, &mut steps, &mut address);
    assert_eq!(rt; (code, steps, address), (16, 1, 65_490));
    pmach_free(alloc, &mut handle);
}

// In a machine of bare code, MP is 65,492. Variable number 3 of the running procedure is at MP + 10 + 2 * 3.
#[test]
fn variables_are_shown(rt: HostRuntime) {
    let alloc = rt.alloc();
    let mut handle = raw(&rt, alloc, &SUM);
    let mut word = 7;
    assert_eq!(rt; pmach_poke(alloc, &mut handle, 65_508, 1234), 0);
    let code = pmach_variable(alloc, &mut handle, 0, 3, &mut word);
    assert_eq!(rt; (code, word), (0, 1234));
    let code = pmach_variable(alloc, &mut handle, 128, 3, &mut word);
    assert_eq!(rt; (code, word), (505, 1234));
    assert_eq!(rt; pmach_poke(alloc, &mut handle, 65_492, 2001), 0);
    let code = pmach_variable(alloc, &mut handle, 1, 3, &mut word);
    assert_eq!(rt; (code, word), (503, 1234));
    assert_eq!(rt; pmach_poke(alloc, &mut handle, 65_492, 2000), 0);
    assert_eq!(rt; pmach_poke(alloc, &mut handle, 2016, 56), 0);
    let code = pmach_variable(alloc, &mut handle, 1, 3, &mut word);
    assert_eq!(rt; (code, word), (0, 56));
    pmach_free(alloc, &mut handle);
    let mut empty = Handle::empty();
    let code = pmach_variable(alloc, &mut empty, 0, 3, &mut word);
    assert_eq!(rt; (code, word), (8, 56));
    let (mut steps, mut address) = (7, 8);
    let code = pmach_on(alloc, &mut empty, 9, &mut steps, &mut address);
    assert_eq!(rt; (code, steps, address), (8, 7, 8));
}

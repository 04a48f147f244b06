//! Tests that execute each program step by step in two machines. In one machine, each word of memory is overwritten
//! with its own value before each step, so that cached static links and attribute tables are discarded. Both machines
//! must always have equal states.
ghost use Rattle.std.specs.Prelude.{◌≡◌, length, sum};

use crate::any_bytes::generated;
use crate::booted::{boots, volume};
use crate::codes::{CALLS, KEEPS, STORED_LINK, TOP};
use crate::programs::{EXITS, SEGMENTS};
use pm_calls::Registers;
use pm_debug::{DebugRefusal, Debugger};
use pm_machine::{Machine, Stop};
use pm_words::ExecError;
use std::alloc::Global;
use std::process::Abort;
use std::test::Fail;

/// A program in two machines.
#[derive(Drop)]
struct Twice {
    plain: Debugger,
    written: Debugger,
    made: u16,
}

/// Asserts that the machines `one` and `other` have equal memory and equal visible state.
fn are_same(rt: &impl Abort, one: &Machine, other: &Machine) {
    assert_eq!(rt; one.registers(), other.registers());
    assert_eq!(rt;
        (one.steps(), one.status()),
        (other.steps(), other.status())
    );
    assert!(rt; one.memory().bytes() == other.memory().bytes());
    assert_eq!(rt; one.console(), other.console());
    assert_eq!(rt; one.printer(), other.printer());
    for n in 0..16 {
        assert_eq!(rt; one.place(n), other.place(n));
        assert_eq!(rt; one.keeps(n), other.keeps(n));
    }
}

/// The words on the stack, and the frames of the static chain and of the dynamic chain.
type Chains = (
    Vec<u16>,
    Result<Vec<u16>, DebugRefusal>,
    Result<Vec<u16>, DebugRefusal>,
);

fn chains(rt: &impl Abort, alloc: Global, debugger: &Debugger) -> Chains {
    (
        debugger.stack(alloc, 20).expect(rt, "memory"),
        debugger.static_chain(alloc, 20),
        debugger.dynamic_chain(alloc, 20),
    )
}

/// Returns the values of variables in frames that static links reach.
fn locals(debugger: &mut Debugger) -> [Result<u16, DebugRefusal>; 4] {
    [
        debugger.local(0, 1),
        debugger.local(1, 1),
        debugger.local(2, 2),
        debugger.local(9, 1),
    ]
}

impl Twice {
    fn new(plain: Machine, written: Machine) -> Twice {
        Twice {
            plain: Debugger::new(plain),
            written: Debugger::new(written),
            made: 0,
        }
    }

    /// Returns two machines with the raw p-code `code`. The words in `pokes` are written before the first step.
    fn raw(rt: &impl Abort, alloc: Global, code: &[u8], pokes: &[(u16, u16)]) -> Twice {
        let mut plain = Machine::raw(alloc, code).expect(rt, "a machine");
        let mut written = Machine::raw(alloc, code).expect(rt, "a machine");
        for (address, word) in pokes {
            plain.poke(*address, *word);
            written.poke(*address, *word);
        }
        Twice::new(plain, written)
    }

    /// Returns two machines with the program of a code file, whose slots 1, 2 and 3 have the lengths `lengths` in
    /// bytes.
    fn booted(alloc: Global, lengths: [u16; 3], segments: &[u8]) -> Result<Twice, Fail>
        requires joined { sum lengths ≡ length segments.now }
    {
        let plain = boots(alloc, volume(alloc, 2, lengths, segments)?)?;
        let written = boots(alloc, volume(alloc, 2, lengths, segments)?)?;
        Ok(Twice::new(plain, written))
    }

    /// Overwrites each word of the second machine with its own value.
    fn write(&mut self, rt: &impl Abort) {
        let machine = self.written.machine();
        for n in 0..32768_u16 {
            let address = n.wrapping_mul(2);
            let word = machine.memory().word(address).unwrap_or(0);
            assert!(rt; machine.poke(address, word));
        }
    }

    fn is_same(&mut self, rt: &impl Abort, alloc: Global) {
        are_same(rt, self.plain.machine(), self.written.machine());
        assert!(rt; chains(rt, alloc, &self.plain) == chains(rt, alloc, &self.written));
        assert_eq!(rt; locals(&mut self.plain), locals(&mut self.written));
    }

    /// Executes one step of each machine. Asserts that both return the same result and have equal states.
    fn step(&mut self, rt: &impl Abort, alloc: Global) -> Stop {
        self.write(rt);
        let stop = self.plain.machine().step().expect(rt, "memory");
        let other = self.written.machine().step().expect(rt, "memory");
        assert_eq!(rt; other, stop);
        self.made = self.made.wrapping_add(1);
        self.is_same(rt, alloc);
        stop
    }

    /// Executes at most `limit` steps, and returns the result of the last step.
    fn run(&mut self, rt: &impl Abort, alloc: Global, limit: u16) -> Stop {
        self.is_same(rt, alloc);
        for _ in 0..limit {
            let stop = self.step(rt, alloc);
            if stop != Stop::Went {
                return stop;
            }
        }
        Stop::Went
    }

    /// Asserts that the program ends with step number `steps`, and returns the registers.
    fn ends(&mut self, rt: &impl Abort, alloc: Global, steps: u16) -> Registers {
        assert_eq!(rt; self.run(rt, alloc, 100), Stop::Ended);
        assert_eq!(rt; self.made, steps);
        self.plain.machine().registers()
    }
}

#[test]
fn stored_link(rt: HostRuntime) {
    let alloc = rt.alloc();
    let mut twice = Twice::raw(&rt, alloc, &STORED_LINK, &[(3012, 77)]);
    let registers = twice.ends(&rt, alloc, 6);
    assert_eq!(rt; registers.sp, 65488);
}

/// Tests two nested procedures. The outer procedure calls the inner one twice.
#[test]
fn nested_calls(rt: HostRuntime) {
    let alloc = rt.alloc();
    let mut twice = Twice::raw(&rt, alloc, &CALLS, &[TOP]);
    let registers = twice.ends(&rt, alloc, 6);
    assert_eq!(rt; registers.sp, 65492);
}

/// Tests an EXIT that leaves two segments.
#[test]
fn exits(rt: HostRuntime) -> Result<(), Fail> {
    let alloc = rt.alloc();
    let mut twice = Twice::booted(alloc, [36, 38, 0], &EXITS)?;
    twice.ends(&rt, alloc, 10);
    Ok(())
}

/// Tests two segments that are loaded one after the other at the same address.
#[test]
fn segments(rt: HostRuntime) -> Result<(), Fail> {
    let alloc = rt.alloc();
    let mut twice = Twice::booted(alloc, [22, 16, 16], &SEGMENTS)?;
    twice.ends(&rt, alloc, 5);
    Ok(())
}

/// Tests a segment that is kept, called twice and released.
#[test]
fn kept_segment(rt: HostRuntime) -> Result<(), Fail> {
    let alloc = rt.alloc();
    let mut twice = Twice::booted(alloc, [28, 16, 0], &KEEPS)?;
    twice.ends(&rt, alloc, 9);
    Ok(())
}

/// Raw p-code that overwrites one word of its later code. The word becomes the constants 2 and 3, which are then added.
const OWN_CODE: [u8; 12] = [
    0xC7, 0x08, 0x04, 0xC7, 0x02, 0x03, 0x9A, 0xD7, 0xD6, 0xD6, 0x82, 0xD6,
];

#[test]
fn own_code(rt: HostRuntime) {
    let alloc = rt.alloc();
    let mut twice = Twice::raw(&rt, alloc, &OWN_CODE, &[]);
    let registers = twice.ends(&rt, alloc, 8);
    let machine = twice.plain.machine();
    assert_eq!(rt; machine.memory().word(registers.sp), Some(5));
}

/// Tests a hundred pseudo-random codes, each for at most twenty steps.
#[test]
fn any_bytes(rt: HostRuntime) {
    let alloc = rt.alloc();
    assert_eq!(rt; generated(1).get(..3), Some([152, 238, 78].as_slice()));
    for seed in 1..=100 {
        let code = generated(seed);
        let mut twice = Twice::raw(&rt, alloc, &code, &[]);
        twice.run(&rt, alloc, 20);
    }
}

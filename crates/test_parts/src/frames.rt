//! Tests of single calls and returns: which static links and attribute tables are cached, and which words are watched.
//! A *watched* word is a word whose change makes the caches invalid.
use pm_calls::{Frames, Registers, ValidRegisters};
use pm_families::Call;
use pm_words::{ExecError, Memory};
use std::alloc::Global;
use std::process::Abort;

// Writes a segment to memory that ends at 2000 and has one procedure, whose attribute table is at 1900.
fn put_segment(memory: &mut Memory) {
    memory.set_word(2000, 256 + 1);
    memory.set_word(1998, 98);
    memory.set_word(1900, 1);
    memory.set_word(1898, 898);
    memory.set_word(1896, 896);
    memory.set_word(65492, 65492);
}

fn registers() -> ValidRegisters {
    ValidRegisters::of(Registers {
        sp: 60000,
        ipc: 0,
        seg: 2000,
        jtab: 1900,
        mp: 65492,
        base: 65492,
        np: 3000,
        ioresult: 0,
    })
}

// The code of a segment with one procedure.
const CODE: [u8; 16] = [0, 0, 0, 0, 0, 0, 0, 0, 0, 0, 1, 0, 2, 0, 3, 1];

// The memory, frames and registers that calls read and write.
#[derive(Drop)]
struct Parts {
    memory: Box<Memory>,
    scratch: Box<Memory>,
    frames: Frames,
    registers: ValidRegisters,
}

impl Parts {
    fn new(rt: &impl Abort, alloc: Global) -> Parts {
        let mut memory = Memory::new(alloc).expect(rt, "memory");
        put_segment(&mut memory);
        Parts {
            memory,
            scratch: Memory::new(alloc).expect(rt, "memory"),
            frames: Frames::new(),
            registers: registers(),
        }
    }

    fn call(&mut self, rt: &impl Abort) {
        self.frames
            .call(
                &mut self.memory,
                &mut self.registers,
                Call::Clp(1),
                None,
                &mut self.scratch,
            )
            .expect(rt, "a call");
    }

    // Calls procedure 1 of the slot `slot`. The code is passed by reference.
    fn call_slot(&mut self, rt: &impl Abort, slot: u8) {
        self.frames
            .call(
                &mut self.memory,
                &mut self.registers,
                Call::Cxp(slot, 1),
                Some(&CODE),
                &mut self.scratch,
            )
            .expect(rt, "a call");
    }

    fn call_segment(&mut self, rt: &impl Abort) {
        self.call_slot(rt, 3);
    }

    // Keeps slot 3. The code is passed by reference.
    fn keep_segment(&mut self, rt: &impl Abort) {
        self.frames
            .keep(&mut self.memory, &mut self.registers, 3, Some(&CODE))
            .expect(rt, "a segment");
    }

    // Returns from a procedure: by RBP if `base` is true, otherwise by RNP.
    fn ret(&mut self, rt: &impl Abort, base: bool) {
        self.frames
            .ret(&mut self.memory, &mut self.registers, 0, base)
            .expect(rt, "a return");
    }

    fn link(&mut self, n: u16) -> Result<u16, ExecError> {
        self.frames
            .link(&mut self.memory, self.registers.registers().mp, n)
    }

    fn has_bases(&self, rt: &impl Abort, count: usize) {
        assert!(rt; self.frames.bases().len() == count);
    }

    fn keeps_tables(&self, rt: &impl Abort, count: usize) {
        assert!(rt; self.frames.kept().len() == count);
    }

    // Asserts that no watched word was written.
    fn is_untouched(&self, rt: &impl Abort) {
        assert!(rt; !self.memory.touched());
    }
}

#[test]
fn few_words_are_watched(rt: HostRuntime) {
    let mut parts = Parts::new(&rt, rt.alloc());
    parts.call(&rt);
    parts.call(&rt);
    parts.call(&rt);
    assert!(rt; parts.link(3) == Ok(65492));
    parts.call(&rt);
    parts.has_bases(&rt, 5);
    parts.keeps_tables(&rt, 1);
    parts.is_untouched(&rt);
}

#[test]
fn kept_links_need_no_memory(rt: HostRuntime) {
    let mut parts = Parts::new(&rt, rt.alloc());
    let mut other = Memory::new(rt.alloc()).expect(&rt, "memory");
    parts.call(&rt);
    parts.call(&rt);
    parts.call(&rt);
    let mp = parts.registers.registers().mp;
    let link = parts.link(2);
    assert!(rt; link == Ok(59988));
    assert!(rt; parts.frames.link(&mut other, mp, 2) == link);
    parts.memory.set_word(mp, 65492);
    assert!(rt; parts.link(1) == Ok(65492));
}

#[test]
fn calls_and_returns_keep_what_is_kept(rt: HostRuntime) {
    let mut parts = Parts::new(&rt, rt.alloc());
    parts.call(&rt);
    parts.call(&rt);
    assert!(rt; parts.link(2) == Ok(65492));
    for _i in 0..1000 {
        parts.call(&rt);
        parts.ret(&rt, false);
        parts.is_untouched(&rt);
        parts.has_bases(&rt, 3);
        parts.keeps_tables(&rt, 1);
    }
}

// Executes 50 calls, and the returns from them.
fn descends(rt: &impl Abort, parts: &mut Parts) {
    for depth in 0..50 {
        parts.call(rt);
        let bases = parts.frames.bases().len();
        assert!(rt; bases == depth + 1 || bases == depth + 2);
    }
    assert!(rt; parts.link(50) == Ok(65492));
    parts.has_bases(rt, 51);
    for _depth in 0..50 {
        parts.ret(rt, false);
        parts.is_untouched(rt);
    }
    assert!(rt; parts.registers.registers().mp == 65492);
    parts.has_bases(rt, 1);
    parts.keeps_tables(rt, 1);
}

#[test]
fn a_deep_descent_keeps_all_bases(rt: HostRuntime) {
    let mut parts = Parts::new(&rt, rt.alloc());
    for _round in 0..20 {
        descends(&rt, &mut parts);
    }
}

// After 130 calls, the last 128 frames are cached. The words of the other frames are no longer watched. Hence the same
// calls, executed again, write no watched word.
#[test]
fn the_129th_base_gives_its_word_back(rt: HostRuntime) {
    let mut parts = Parts::new(&rt, rt.alloc());
    for _round in 0..2 {
        for _depth in 0..130 {
            parts.call(&rt);
            parts.is_untouched(&rt);
        }
        parts.has_bases(&rt, 128);
        for _depth in 0..130 {
            parts.ret(&rt, false);
            parts.is_untouched(&rt);
        }
        assert!(rt; parts.registers.registers().mp == 65492);
    }
}

// Segment 3 calls segment 4, which calls segment 3. The tables of segment 3 remain cached after the return from the
// inner call, because the outer call still runs. They are dropped when the outer call returns.
#[test]
fn tables_of_a_called_segment_stay_over_an_inner_return(rt: HostRuntime) {
    let mut parts = Parts::new(&rt, rt.alloc());
    for _i in 0..20 {
        parts.call_slot(&rt, 3);
        parts.call_slot(&rt, 4);
        parts.call_slot(&rt, 3);
        assert!(rt; parts.frames.place(3) == Some((59998, 2)));
        parts.keeps_tables(&rt, 2);
        parts.ret(&rt, true);
        assert!(rt; parts.frames.place(3) == Some((59998, 1)));
        parts.keeps_tables(&rt, 2);
        parts.ret(&rt, true);
        parts.keeps_tables(&rt, 1);
        parts.ret(&rt, true);
        parts.keeps_tables(&rt, 0);
        parts.is_untouched(&rt);
    }
}

#[test]
fn a_forgotten_segment_leaves_no_word_watched(rt: HostRuntime) {
    let mut parts = Parts::new(&rt, rt.alloc());
    parts.call(&rt);
    for _i in 0..20 {
        parts.call_segment(&rt);
        assert!(rt; parts.frames.place(3) == Some((59986, 1)));
        parts.keeps_tables(&rt, 2);
        parts.ret(&rt, true);
        assert!(rt; parts.frames.place(3).is_none());
        parts.keeps_tables(&rt, 1);
        parts.memory.set_word(59986, 7);
        parts.is_untouched(&rt);
    }
}

#[test]
fn calls_of_a_segment_that_stays_touch_nothing(rt: HostRuntime) {
    let mut parts = Parts::new(&rt, rt.alloc());
    parts.call_segment(&rt);
    parts.call(&rt);
    for _i in 0..100 {
        parts.call_segment(&rt);
        assert!(rt; parts.frames.place(3) == Some((59998, 1)));
        parts.ret(&rt, true);
        parts.is_untouched(&rt);
        parts.keeps_tables(&rt, 1);
    }
}

// The table of a kept segment also remains cached. After the segment is released, none of its words is watched.
#[test]
fn calls_of_a_kept_segment_keep_its_table(rt: HostRuntime) {
    let mut parts = Parts::new(&rt, rt.alloc());
    parts.call(&rt);
    let sp = parts.registers.registers().sp;
    parts.keep_segment(&rt);
    for _i in 0..100 {
        parts.call_segment(&rt);
        parts.ret(&rt, true);
        parts.keeps_tables(&rt, 2);
        parts.is_untouched(&rt);
    }
    assert!(rt; parts.registers.registers().sp == sp.wrapping_sub(16));
    parts
        .frames
        .unkeep(&mut parts.memory, &mut parts.registers, 3, 16)
        .expect(&rt, "a kept segment");
    assert!(rt; parts.registers.registers().sp == sp);
    parts.keeps_tables(&rt, 1);
    parts.memory.set_word(sp.wrapping_sub(2), 7);
    parts.is_untouched(&rt);
}

#[test]
fn exit_touches_nothing(rt: HostRuntime) {
    let mut parts = Parts::new(&rt, rt.alloc());
    parts.call(&rt);
    parts.call(&rt);
    assert!(rt; parts.link(2) == Ok(65492));
    parts
        .frames
        .exit(
            &mut parts.memory,
            &mut parts.registers,
            1,
            1,
            &mut parts.scratch,
        )
        .expect(&rt, "an exit");
    parts.is_untouched(&rt);
    parts.has_bases(&rt, 3);
    parts.keeps_tables(&rt, 1);
}

#[test]
fn sixteen_tables_are_kept(rt: HostRuntime) {
    let mut memory = Memory::new(rt.alloc()).expect(&rt, "memory");
    // Seventeen procedures, whose attribute tables are at 1900, 1888 and so on.
    memory.set_word(2000, 17 * 256 + 1);
    for p in 1..18_u16 {
        let table = 1912 - 12 * p;
        memory.set_word(2000 - 2 * p, 2000 - 2 * p - table);
        memory.set_word(table, p);
    }
    let mut frames = Frames::new();
    for p in 1..18 {
        assert!(rt; frames.attributes(&mut memory, 2000, p).is_ok());
    }
    assert!(rt; frames.kept().len() == 16);
    assert!(rt; frames.kept()[0].procedure == 17);
    assert!(rt; frames.kept()[15].procedure == 2);
    // The table of the first procedure was removed from the cache, so its words are no longer watched.
    memory.set_word(1900, 5);
    assert!(rt; !memory.touched());
    memory.set_word(1888, 5);
    assert!(rt; memory.touched());
}

//! The lines of a trace, one after the other.

ghost use Rattle.std.specs.Prelude.{◌≡◌, ◌<◌, ◌∷◌, [], ◌++◌, OnOk};
ghost use Rattle.pm_trace.specs.Trace.{trace_line};
ghost use Rattle.pm_disasm.specs.Text.{line_text};

use crate::cached_digits::{CachedColumn, CachedTens};
use crate::digits::{column, column_or_dashes};
use crate::number_text::add_short;
use crate::state_line::{TraceLine, top};
use pm_disasm::Line;
use pm_machine::Machine;
use pm_words::Memory;
use std::alloc::{AllocError, Global};

/// Appends the lines of a trace to a page, which is the output buffer. This value only caches digits that seldom
/// change, so the next line can be of any machine.
#[derive(Drop)]
pub struct Tracer {
    tens: CachedTens,
    mp: CachedColumn,
    base: CachedColumn,
    np: CachedColumn,
    // The text of an instruction whose operands are not numbers.
    text: String,
}

impl Tracer {
    /// Creates a value whose caches contain only the digits of 0.
    pub fn new(alloc: Global) -> Tracer {
        Tracer {
            tens: CachedTens::new(),
            mp: CachedColumn::new(),
            base: CachedColumn::new(),
            np: CachedColumn::new(),
            text: String::new(alloc),
        }
    }

    /// Appends the line of a trace for the next step of `machine` to `page`, with a line feed. After `AllocError` a
    /// part of the line may have been appended.
    #[tactic(auto, unfolding(crate::specs::Trace::trace_line))]
    pub fn add_line(&mut self, page: &mut Vec<u8>, machine: &Machine) -> Result<(), AllocError>
        ensures line { OnOk result (page.new.items
            ≡ page.old.items ++ trace_line machine.now.state ++ 10 ∷ []) }
    {
        let count = machine.steps();
        if count >= 100_000_000 {
            return self.add_long_line(page, machine);
        }
        let front = self.tens.front(count as u32);
        let registers = machine.registers();
        let memory = machine.memory();
        let columns = [
            column(registers.ipc),
            column(registers.sp),
            self.mp.of(registers.mp),
            self.base.of(registers.base),
            self.np.of(registers.np),
            column_or_dashes(top(memory, registers.sp)),
        ];
        page.extend_from_slice(&front)?;
        page.extend_from_slice(columns.as_flattened())?;
        self.add_place(page, memory, registers.ipc)?;
        page.push(b'\n')?;
        Ok(())
    }

    // Appends the line of `machine`, which has executed more steps than eight digits can count, to `page`.
    #[inline(never)]
    fn add_long_line(&mut self, page: &mut Vec<u8>, machine: &Machine) -> Result<(), AllocError>
        ensures line { OnOk result (page.new.items
            ≡ page.old.items ++ trace_line machine.now.state ++ 10 ∷ []) }
    {
        self.text.clear();
        writeln!(self.text, "{}", TraceLine::new(machine))?;
        page.extend_from_slice(self.text.as_bytes())
    }

    // Appends the text of the instruction at an address of `memory` to `page`.
    #[inline(always)]
    #[tactic(auto, unfolding(pm_disasm::specs::Text::line_text))]
    fn add_place(
        &mut self,
        page: &mut Vec<u8>,
        memory: &Memory,
        address: u16,
    ) -> Result<(), AllocError>
        ensures text { OnOk result (page.new.items ≡ page.old.items ++ line_text memory.now.words address) }
    {
        if add_short(page, memory.bytes(), usize::from(address))? {
            return Ok(());
        }
        self.add_text(page, &Line::new(memory, address))
    }

    // Appends the text of `line`, whose operands can be of any kind, to `page`.
    #[inline(never)]
    fn add_text(&mut self, page: &mut Vec<u8>, line: &Line<'_>) -> Result<(), AllocError>
        ensures text { OnOk result
            (page.new.items ≡ page.old.items ++ line_text line.now.memory.now.words line.now.address) }
    {
        self.text.clear();
        write!(self.text, "{line}")?;
        page.extend_from_slice(self.text.as_bytes())
    }
}

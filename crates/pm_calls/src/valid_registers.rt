//! The type `ValidRegisters`: registers whose SP and NP are even, with NP ≤ SP ≤ 65,504.

ghost use Rattle.std.specs.Prelude.{◌≡◌};
ghost use Rattle.pm_words.specs.Stack.{IsStack};

use crate::Registers;
use pm_words::Top;
use std::marker::Model;

/// The registers on which the instruction rules operate. SP and NP are even, and NP ≤ SP ≤ 65,504.
#[derive(Clone, Copy)]
pub struct ValidRegisters {
    pub(crate) registers: Registers,
}

impl Model for ValidRegisters {
    ghost use Rattle.pm_words.specs.Stack.{IsStack};
    ghost use Rattle.pm_calls.specs.declared.registers.Registers.{Registers};

    ghost Value = { Registers };

    ghost view = { λ v. v.registers };

    ghost inverse = { λ r. record { registers = r } };

    ghost invariant = { λ v. IsStack v.registers.sp v.registers.np };
}

impl ValidRegisters {
    /// Creates the value from `registers`. The caller proves that SP and NP are valid, so they are not checked at run
    /// time.
    #[inline(always)]
    pub fn of(registers: Registers) -> ValidRegisters
        requires stack { IsStack registers.sp registers.np }
        ensures registers { result ≡ registers }
    {
        ValidRegisters { registers }
    }

    /// Returns the registers.
    #[inline(always)]
    pub fn registers(self) -> Registers
        ensures registers { result ≡ self }
        ensures stack { IsStack self.sp self.np }
    {
        self.registers
    }

    /// Returns IPC.
    #[inline(always)]
    pub fn ipc(&self) -> u16
        ensures ipc { result ≡ self.now.ipc }
    {
        let registers = &self.registers;
        registers.ipc
    }

    /// Returns MP.
    #[inline(always)]
    pub fn mp(&self) -> u16
        ensures mp { result ≡ self.now.mp }
    {
        self.registers.mp
    }

    /// Returns SP and NP as one value.
    #[inline(always)]
    pub fn top(self) -> Top
        ensures sp { result.sp ≡ self.sp }
        ensures np { result.np ≡ self.np }
    {
        Top::of(self.registers.sp, self.registers.np)
    }

    /// Returns the registers with the SP and NP of `top`.
    #[inline(always)]
    pub fn with_top(self, top: Top) -> ValidRegisters
        ensures registers { result ≡ record self { sp = top.sp; np = top.np } }
    {
        let registers = Registers {
            sp: top.sp(),
            np: top.np(),
            ..self.registers
        };
        ValidRegisters { registers }
    }

    /// Returns the registers with the IPC `ipc`.
    #[inline(always)]
    pub fn with_ipc(self, ipc: u16) -> ValidRegisters
        ensures registers { result ≡ record self { ipc = ipc } }
    {
        let registers = Registers {
            ipc,
            ..self.registers
        };
        ValidRegisters { registers }
    }

    /// Sets SP and NP to those of `top`.
    #[inline(always)]
    pub fn set_top(&mut self, top: Top)
        ensures registers { self.new ≡ record self.old { sp = top.sp; np = top.np } }
    {
        self.registers.sp = top.sp();
        self.registers.np = top.np();
    }

    /// Sets IPC to `ipc`.
    #[inline(always)]
    pub fn set_ipc(&mut self, ipc: u16)
        ensures registers { self.new ≡ record self.old { ipc = ipc } }
    {
        self.registers.ipc = ipc;
    }

    /// Returns the registers with the IORESULT `ioresult`.
    #[inline(always)]
    pub fn with_ioresult(self, ioresult: u16) -> ValidRegisters
        ensures registers { result ≡ record self { ioresult = ioresult } }
    {
        let registers = Registers {
            ioresult,
            ..self.registers
        };
        ValidRegisters { registers }
    }
}

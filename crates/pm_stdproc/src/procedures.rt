//! The standard procedures and their numbers.

ghost use Rattle.std.specs.Prelude.{◌≡◌};
ghost use Rattle.pm_stdproc.specs.Procedures.{procedure_numbered};

/// A standard procedure that uses only the stack, the heap and the memory.
#[derive(Clone, Copy)]
pub enum OnMemory {
    /// IOCHECK: fails if IORESULT is not 0.
    CheckIo,
    /// NEW: allocates words on the heap.
    New,
    /// MOVELEFT: copies bytes, from the low end.
    MoveLeft,
    /// MOVERIGHT: copies bytes, from the high end.
    MoveRight,
    /// FILLCHAR: sets a range of bytes to one character.
    Fill,
    /// SCAN: searches a byte.
    Scan,
    /// MARK: saves NP.
    Mark,
    /// RELEASE: restores NP.
    Release,
    /// IORESULT: pushes the result of the latest input or output.
    IoResult,
    /// HALT: stops the program with an error.
    Halt,
    /// MEMAVAIL: pushes the number of free words.
    FreeMemory,
}

/// A standard procedure that uses the units or the clock.
#[derive(Clone, Copy)]
pub enum OnUnits {
    /// UNITREAD: reads from a unit to memory.
    Read,
    /// UNITWRITE: writes from memory to a unit.
    Write,
    /// TIME: reads the clock.
    Time,
    /// UNITBUSY: pushes 0, because no unit is ever busy.
    Busy,
    /// UNITWAIT: sets only IORESULT, because no unit is ever busy.
    Wait,
    /// UNITCLEAR: clears a unit. This empties the input queue if the unit is the console.
    Clear,
}

/// A standard procedure.
#[derive(Clone, Copy)]
pub enum Procedure {
    /// A standard procedure that uses only the stack, the heap and the memory.
    OnMemory(OnMemory),
    /// A standard procedure that uses the units or the clock.
    OnUnits(OnUnits),
    /// EXIT: leaves a procedure.
    Exit,
    /// Number 21: requests that a segment remains loaded. Loads it if needed.
    Keep,
    /// Number 22: withdraws such a request.
    Unkeep,
    /// A number for which this machine has no procedure.
    Unimplemented,
}

/// Returns the standard procedure with the number `n`.
#[tactic(auto, unfolding(crate::specs::Procedures::procedure_numbered))]
pub fn procedure_of(n: u8) -> Procedure
    ensures procedure { result ≡ procedure_numbered n }
{
    match n {
        0 => Procedure::OnMemory(OnMemory::CheckIo),
        1 => Procedure::OnMemory(OnMemory::New),
        2 => Procedure::OnMemory(OnMemory::MoveLeft),
        3 => Procedure::OnMemory(OnMemory::MoveRight),
        4 => Procedure::Exit,
        5 => Procedure::OnUnits(OnUnits::Read),
        6 => Procedure::OnUnits(OnUnits::Write),
        9 => Procedure::OnUnits(OnUnits::Time),
        10 => Procedure::OnMemory(OnMemory::Fill),
        11 => Procedure::OnMemory(OnMemory::Scan),
        21 => Procedure::Keep,
        22 => Procedure::Unkeep,
        32 => Procedure::OnMemory(OnMemory::Mark),
        33 => Procedure::OnMemory(OnMemory::Release),
        34 => Procedure::OnMemory(OnMemory::IoResult),
        35 => Procedure::OnUnits(OnUnits::Busy),
        37 => Procedure::OnUnits(OnUnits::Wait),
        38 => Procedure::OnUnits(OnUnits::Clear),
        39 => Procedure::OnMemory(OnMemory::Halt),
        40 => Procedure::OnMemory(OnMemory::FreeMemory),
        _ => Procedure::Unimplemented,
    }
}

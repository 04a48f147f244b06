//! The numbers of units, and the units that these numbers select.

ghost use Rattle.std.specs.Prelude.{◌≡◌};
ghost use Rattle.pm_units.specs.Devices.{HasPlace, known, mount_number, unit_of};

use thiserror::Error;

/// The unit that a unit number selects, such as the console or a disk unit.
#[derive(Clone, Copy)]
pub enum Port {
    /// The console with echo: each byte that is read from it is also written to it.
    Console,
    /// The terminal: the console without echo.
    Terminal,
    /// A unit that this machine does not have, such as unit 3.
    Absent,
    /// The printer.
    Printer,
    /// A disk unit. The field is its index, 0 to 5.
    Disk(u8),
    /// The number selects no unit.
    Unknown,
}

/// The reason why a disk cannot be mounted.
#[derive(Clone, Copy, Debug, Drop, Error)]
pub enum MountFault {
    /// 1: the number is not the number of a disk unit.
    #[error("not a disk unit")]
    NoUnit,
    /// 2: the unit already has a disk.
    #[error("the unit has a disk already")]
    Taken,
}

impl MountFault {
    /// Returns the number of the fault, as the program prints it.
    pub fn number(self) -> u8
        ensures value { result ≡ mount_number self }
    {
        match self {
            MountFault::NoUnit => 1,
            MountFault::Taken => 2,
        }
    }
}

/// Returns the unit that a 16-bit unit number selects. The disk units 4, 5, 9, 10, 11 and 12 have the indexes 0 to 5.
#[tactic(auto, unfolding(crate::specs::Devices::unit_of))]
pub fn unit_of(number: u16) -> Port
    ensures unit { result ≡ unit_of number }
    ensures place { HasPlace result }
{
    match number {
        1 => Port::Console,
        2 => Port::Terminal,
        3 | 7 | 8 => Port::Absent,
        4 => Port::Disk(0),
        5 => Port::Disk(1),
        6 => Port::Printer,
        9 => Port::Disk(2),
        10 => Port::Disk(3),
        11 => Port::Disk(4),
        12 => Port::Disk(5),
        _ => Port::Unknown,
    }
}

/// Returns the IORESULT of a query of `unit`: 2 if the number selected no unit, otherwise 0.
pub fn known(unit: Port) -> u16
    ensures ioresult { result ≡ known unit }
{
    match unit {
        Port::Unknown => 2,
        _ => 0,
    }
}

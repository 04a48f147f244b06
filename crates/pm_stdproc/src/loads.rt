//! The code of segments on disks: where each slot has its code, and which code a call loads.

ghost use Rattle.std.specs.Prelude.{◌≡◌, ◌%◌, ◌<◌, All, IfOk, IfSome, length, slice_get};
ghost use Rattle.pm_stdproc.specs.Loads.{code_lent, code_needed, length_of, slot_code};

use pm_calls::Frames;
use pm_families::Call;
use pm_units::Units;
use pm_words::ExecError;
use std::marker::Model;

/// Where a disk has the code of a slot.
#[derive(Clone, Copy)]
pub struct SlotRow {
    /// The number of the disk unit.
    pub unit: u8,
    /// The block of the disk at which the code begins. It is 0 for a slot with length 0.
    pub block: u16,
    /// The number of bytes of the code. It is 0 for an empty slot.
    pub length: u16,
}

/// For each of the 16 slots, where a disk has its code. Contracts describe it as the list of the 16 rows. Each length
/// is even.
#[derive(Clone, Copy)]
pub struct SlotRows {
    pub(crate) rows: [SlotRow; 16],
}

impl Model for SlotRows {
    ghost use Rattle.std.specs.Prelude.{◌≡◌, ◌%◌, All, List};
    ghost use Rattle.pm_stdproc.specs.declared.loads.SlotRow.{SlotRow};

    ghost Value = { List SlotRow };

    ghost view = { λ s. s.rows };

    ghost inverse = { λ rows. record { rows = rows } };

    ghost invariant = { λ s. All (λ row. row.length % 2 ≡ 0) s.rows };
}

impl SlotRows {
    /// Creates the value from its 16 rows. Each length must be even; this is not checked at run time.
    pub fn of(rows: [SlotRow; 16]) -> SlotRows
        requires even_rows { All (λ row. row.length % 2 ≡ 0) rows }
        ensures rows { result ≡ rows }
    {
        SlotRows { rows }
    }

    /// Returns the row of slot `n`, or `None` if `n` is above 15.
    pub fn get(&self, n: u16) -> Option<SlotRow>
        ensures row { result ≡ slice_get self.now n }
        ensures slot { IfSome result (λ row. n < 16) }
        ensures even { IfSome result (λ row. row.length % 2 ≡ 0) }
    {
        self.rows.get(usize::from(n)).copied()
    }
}

/// Returns the code that must be loaded for slot `n`, from the disk that is now in its unit. Returns `None` if the
/// segment of the slot is already loaded, if `n` is above 15, or if the slot is empty.
///
/// # Errors
///
/// `SystemIo`: the code must be loaded, but the disk is not mounted or does not contain it.
#[tactic(auto, unfolding(crate::specs::Loads::slot_code))]
pub fn slot_code<'a>(
    n: u16,
    frames: &Frames,
    rows: &SlotRows,
    units: &'a Units,
) -> Result<Option<&'a [u8]>, ExecError>
    ensures code { code_lent result ≡ slot_code n frames.now.places rows.now units.now.devices }
    ensures even { IfOk result (λ code. IfSome code (λ bytes. length bytes.now % 2 ≡ 0)) }
{
    let Some(row) = rows.get(n) else {
        return Ok(None);
    };
    if frames.place(n as u8).is_some() || row.length == 0 {
        return Ok(None);
    }
    match units.code(row.unit, row.block, row.length) {
        Some(code) => Ok(Some(code)),
        None => Err(ExecError::SystemIo),
    }
}

/// Returns the code that `call` must load, from the disk that is now in the unit. Only CXP loads code.
///
/// # Errors
///
/// `SystemIo`: as for `slot_code`.
#[tactic(auto, unfolding(crate::specs::Loads::code_needed))]
pub fn code_for<'a>(
    call: Call,
    frames: &Frames,
    rows: &SlotRows,
    units: &'a Units,
) -> Result<Option<&'a [u8]>, ExecError>
    ensures code { code_lent result ≡ code_needed call frames.now.places rows.now units.now.devices }
    ensures even { IfOk result (λ code. IfSome code (λ bytes. length bytes.now % 2 ≡ 0)) }
{
    match call {
        Call::Cxp(n, _) => slot_code(u16::from(n), frames, rows, units),
        _ => Ok(None),
    }
}

/// Returns the number of bytes of the code of slot `n`, or 0 if `n` is above 15.
pub fn length_of(n: u16, rows: &SlotRows) -> u16
    ensures length { result ≡ length_of (slice_get rows.now n) }
    ensures even { result % 2 ≡ 0 }
{
    match rows.get(n) {
        Some(row) => row.length,
        None => 0,
    }
}

//! The selected lines of a trace, one after the other.

ghost use Rattle.std.specs.Prelude.{◌≡◌, ◌≤◌, ◌++◌, OnOk};
ghost use Rattle.pm_trace.specs.Selected.{blanks, front, front_blanks, front_place, shown_line};

use crate::Tracer;
use crate::depth::depth;
use crate::place::add_place;
use crate::selected::is_selected;
use pm_jobs::Selection;
use pm_machine::{Machine, place_in_code};
use std::alloc::{AllocError, Global};

/// The spaces before the deepest line.
static BLANKS: [u8; 128] = [b' '; 128];

// Returns two spaces for each level of `depth`.
#[tactic(auto, using(crate::proofs::Depths::first_blanks))]
fn blanks(depth: u16) -> &'static [u8]
    requires most { depth ≤ 64 }
    ensures value { result.now ≡ blanks depth }
{
    &BLANKS[..2 * usize::from(depth)]
}

// Appends two spaces for each level of the call depth to `page`. Appends nothing if `wanted` is false.
fn add_blanks(page: &mut Vec<u8>, machine: &Machine, wanted: bool) -> Result<(), AllocError>
    ensures blanks { OnOk result (page.new.items ≡ page.old.items ++ front_blanks wanted machine.now.state) }
{
    if !wanted {
        return Ok(());
    }
    page.extend_from_slice(blanks(depth(machine)))
}

// Appends the position of the next step of `machine` to `page`. Appends nothing if `wanted` is false.
fn add_places(page: &mut Vec<u8>, machine: &Machine, wanted: bool) -> Result<(), AllocError>
    ensures places { OnOk result (page.new.items ≡ page.old.items ++ front_place wanted machine.now.state) }
{
    if !wanted {
        return Ok(());
    }
    add_place(page, place_in_code(machine))
}

// Appends the columns before a line to `page`: the indentation and the position, if `wanted` requests them.
fn add_front(page: &mut Vec<u8>, machine: &Machine, wanted: Selection) -> Result<(), AllocError>
    ensures front { OnOk result (page.new.items ≡ page.old.items ++ front wanted machine.now.state) }
{
    add_blanks(page, machine, wanted.calls)?;
    add_places(page, machine, wanted.places)?;
    Ok(())
}

/// Appends the selected lines of a trace to a page, which is the output buffer. This value only caches digits, so the
/// next line can be of any machine.
#[derive(Drop)]
pub struct Lines {
    tracer: Tracer,
}

impl Lines {
    /// Creates a value whose caches contain only the digits of 0.
    pub fn new(alloc: Global) -> Lines {
        Lines {
            tracer: Tracer::new(alloc),
        }
    }

    /// Appends the line of the next step of `machine` to `page`, with the columns before the line and a line feed.
    /// Appends nothing if `wanted` does not select the line. After `AllocError` a part of the line may have been
    /// appended.
    #[tactic(auto, unfolding(crate::specs::Selected::shown_line))]
    pub fn add(
        &mut self,
        page: &mut Vec<u8>,
        machine: &Machine,
        wanted: Selection,
    ) -> Result<(), AllocError>
        ensures line { OnOk result (page.new.items ≡ page.old.items ++ shown_line wanted machine.now.state) }
    {
        if !is_selected(wanted, machine) {
            return Ok(());
        }
        add_front(page, machine, wanted)?;
        self.tracer.add_line(page, machine)?;
        Ok(())
    }
}

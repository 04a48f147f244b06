//! The handle of a C program: one pointer, which is null if the handle has no machine.
ghost use Rattle.std.specs.Prelude.{◌≡◌, Option, Some, None, option_map};
ghost use Rattle.pm_c.specs.declared.held.Held.{Held};

use crate::held::Held;
use crate::loose::Loose;
use std::alloc::Global;
use std::marker::Model;
use std::mem;

/// A machine that a C program owns, or no machine. In C it is a struct with one pointer. The program sets the pointer
/// to null before the first call, and must not change it afterwards.
#[repr(C)]
#[derive(Drop)]
pub struct Handle {
    at: *mut u8,
    pub ghost held: { Option Held },
}

impl Model for Handle {
    ghost use Rattle.std.specs.Prelude.{Option};
    ghost use Rattle.pm_c.specs.contracts.held.Held.{the_row};
    ghost use Rattle.pm_c.specs.declared.held.Held.{Held};
    ghost use Rattle.pm_c.specs.Owned.{owned};

    ghost also_owns = { λ h. owned the_row h.at h.held };
}

impl Handle {
    /// Creates a handle without a machine.
    pub(crate) fn empty() -> Handle
        ensures none { result.held ≡ None }
    {
        Handle {
            at: std::ptr::null_mut(),
        }
    }

    // Returns the handle that owns the block `held`.
    fn of_loose(held: Loose<Held, Global>) -> Handle
        ensures value { result.held ≡ Some held.value }
    {
        let Loose { at, alloc: _ } = held;
        Handle { at: at as *mut u8 }
    }

    // Returns the block that the handle owns, or `None` if the handle is empty.
    fn into_loose(self, alloc: Global) -> Option<Loose<Held, Global>>
        ensures value { option_map (λ loose. loose.value) result ≡ self.held }
    {
        let Handle { at } = self;
        if at.is_null() {
            None
        } else {
            Some(Loose {
                at: at as *mut Held,
                alloc,
            })
        }
    }

    /// Returns the handle that owns the machine `held`.
    pub(crate) fn of(held: Box<Held>) -> Handle
        ensures value { result.held ≡ Some held.value }
    {
        Handle::of_loose(Loose::of(held))
    }

    // Returns the machine that the handle owns, or `None` if the handle is empty.
    fn into_box(self, alloc: Global) -> Option<Box<Held>>
        ensures value { option_map (λ held. held.value) result ≡ self.held }
    {
        match self.into_loose(alloc) {
            Some(held) => Some(held.into_box()),
            None => None,
        }
    }
}

/// Removes the machine from `handle` and returns it. The handle is empty afterwards. Returns `None` if the handle was
/// empty.
pub(crate) fn taken(alloc: Global, handle: &mut Handle) -> Option<Box<Held>>
    ensures value { option_map (λ held. held.value) result ≡ handle.old.held }
    ensures empty { handle.new.held ≡ None }
{
    let was = mem::replace(handle, Handle::empty());
    was.into_box(alloc)
}

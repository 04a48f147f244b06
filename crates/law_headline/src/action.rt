//! The actions that a program and its operator can perform on a machine.

ghost use Rattle.std.specs.Prelude.{◌≡◌, map, OnErr, OnOk};
ghost use Rattle.law_headline.specs.Actions.{IsCut, event_of};
ghost use Rattle.pm_machine.specs.Events.{after_all, next};

use pm_machine::Machine;
use pm_volume::Volume;
use std::alloc::AllocError;

/// One action on a machine.
#[derive(Drop)]
pub enum Action {
    /// One step: the instruction at IPC, if the machine is running.
    Step,
    /// Appends this byte to the console input queue.
    Key(u8),
    /// Writes a word of memory for the operator. The fields are its address and its value. An odd address changes
    /// nothing.
    Poke(u16, u16),
    /// Puts this volume on the disk unit. Nothing changes if the unit is no disk unit, or already has a disk.
    Mount(u8, Volume),
    /// Removes the disk of the unit, if it has one.
    Eject(u8),
}

/// Executes `action` on `machine`.
fn act(machine: &mut Machine, action: Action) -> Result<(), AllocError>
    ensures event { OnOk result (machine.new.state ≡ next machine.old.state (event_of action)) }
    ensures unchanged { OnErr result (machine.new ≡ machine.old) }
{
    match action {
        Action::Step => {
            machine.step()?;
        }
        Action::Key(byte) => machine.key(byte)?,
        Action::Poke(address, word) => {
            machine.poke(address, word);
        }
        Action::Mount(unit, volume) => {
            let _ = machine.mount(unit, volume);
        }
        Action::Eject(unit) => {
            machine.eject(unit);
        }
    }
    Ok(())
}

/// Executes `actions` one after the other, in any order and number. The machine is then in the state that the table
/// defines after the events of the actions.
///
/// # Errors
///
/// `AllocError` if memory is exhausted, for example for the output of a step or for a key. The machine is then in the
/// state after the actions before the one that failed.
pub fn play(machine: &mut Machine, actions: Vec<Action>) -> Result<(), AllocError>
    ensures order { OnOk result (machine.new.state ≡ after_all machine.old.state (map event_of actions.items)) }
    ensures cut { OnErr result (IsCut machine.old.state (map event_of actions.items) machine.new.state) }
{
    for action in actions {
        act(machine, action)?;
    }
    Ok(())
}

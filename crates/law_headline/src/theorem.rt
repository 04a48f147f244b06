//! The main theorem of the project.

ghost use Rattle.std.specs.Prelude.{◌≡◌, map, Err, IfErr, IfOk};
ghost use Rattle.law_headline.specs.Actions.{IsPlayed, event_of};
ghost use Rattle.law_headline.specs.Put.{PutProgramIsBooted, PutProgramIsFound};
ghost use Rattle.law_jobs.specs.Loaded.{AssembledBootsListed, AssembledKeepsListed, AssembledLoadsListed};
ghost use Rattle.law_jobs.specs.RoundTrip.{AssembledIsShownAgain};
ghost use Rattle.law_jobs.specs.Shown.{SessionsShowTheTable};
ghost use Rattle.pm_machine.specs.Boot.{Boots, boot_start, code_file};
ghost use Rattle.pm_source.specs.Denoted.{ListingDenotesSegments};

use crate::action::{Action, play};
use crate::put::put_program_is_booted;
use law_jobs::loaded::assembled_loads_listed;
use law_jobs::round_trip::assembled_is_shown_again;
use law_jobs::sessions::sessions_show_the_table;
use law_text::source::listing_is_read;
use pm_machine::{BootFault, Machine};
use pm_volume::Volume;
use std::alloc::Global;

/// The volumes on the units 4, 5, 9, 10, 11 and 12. `None` for a unit without a disk.
type Volumes = [Option<Volume>; 6];

/// Boots the program `name` from the volume on `unit`, and executes `actions` on the machine, one after the other.
/// Returns the machine, and whether all actions were executed. If memory is exhausted, the machine is in the state
/// after the actions before the one that failed.
///
/// The clauses are the main theorem. `refusal` and `order` hold for any volumes and any order of steps, keys and
/// operator actions: the machine starts in the state that the table defines for these volumes, and ends in the state
/// that the table defines after the events of the executed actions.
///
/// The next clauses are about texts. A code file of the assembler is loaded as its listing states:
///
/// - by a call (`loads`) and by standard procedure 21 (`keeps`), from the state of this machine on;
/// - by a boot (`starts`), and from a volume on which the file was put (`found`, `put`).
///
/// The characters of the listing denote the loaded bytes (`denotes`). The disassembler's text of the code file is
/// assembled to the same code file (`back`).
///
/// The last clause is about the debugger (`shows`): the output of a session is the output that the table defines after
/// the steps, keys and pokes of the session.
///
/// # Errors
///
/// The errors of [`Machine::boot`]. The volumes are returned with the error.
pub fn headline(
    alloc: Global,
    volumes: Volumes,
    unit: u8,
    name: &str,
    clock: u32,
    actions: Vec<Action>,
) -> Result<(Machine, bool), (BootFault, Volumes)>
    ensures refusal { IfErr result (λ e. Boots (Err e) (code_file volumes unit name.now)
        (boot_start volumes unit name.now clock)) }
    ensures order { IfOk result (λ r. IsPlayed (boot_start volumes unit name.now clock) (map event_of actions.items)
        r.0.state r.1) }
    ensures loads { IfOk result (λ r. AssembledLoadsListed r.0.state) }
    ensures keeps { IfOk result (λ r. AssembledKeepsListed r.0.state) }
    ensures starts { AssembledBootsListed }
    ensures found { PutProgramIsFound }
    ensures put { PutProgramIsBooted }
    ensures denotes { ListingDenotesSegments }
    ensures back { AssembledIsShownAgain }
    ensures shows { SessionsShowTheTable }
{
    put_program_is_booted();
    listing_is_read();
    assembled_is_shown_again();
    sessions_show_the_table();
    let mut machine = Machine::boot(alloc, volumes, unit, name, clock)?;
    let done = play(&mut machine, actions).is_ok();
    assembled_loads_listed(&machine);
    Ok((machine, done))
}

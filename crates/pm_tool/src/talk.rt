//! Jobs that use a machine interactively: a run with its input and output, or a debugger that answers lines.
ghost use Rattle.std.specs.Prelude.{◌≡◌, false, true, [], ◌++◌, List, ℕ, Ok, IfOk, IfErr, OnOk, OnErr};
ghost use Rattle.std.specs.Prelude.{None, option_map, vec_items};
ghost use Rattle.pm_machine.specs.Events.{Eject, next};
ghost use Rattle.pm_units.specs.Devices.{ejected_image};
ghost use Rattle.std.specs.Io.KnownBytes.{Appends};
ghost use Rattle.pm_tool.specs.Disks.{NamesFile, machine_at, images_of};
ghost use Rattle.pm_tool.specs.Outcomes.{IsOutcome, SaysWhy};
ghost use Rattle.pm_tool.specs.Run.{end_text, ended_run};
ghost use Rattle.pm_tool.specs.Said.{BreaksOff, Finishes, WritesInTime, first_kept, others_in, others_kept};
ghost use Rattle.pm_session.specs.Sessions.{whole_lines};
ghost use Rattle.pm_tool.specs.Said.{debugged, run_said, said_run, said_talk, shown_talk, typed_into};
ghost use Rattle.pm_jobs.specs.Streams.{AppendsFront, AreWell, IsCause, IsCounted, both};

use crate::debug::converse;
use crate::outcome::{Exit, OtherImages, Outcome, no_images, refuse_for};
use crate::pace::Quick;
use crate::programs::{Start, start_on};
use crate::steps::{Show, drive};
use crate::stopped::stopped_at;
use pm_debug::Debugger;
use pm_jobs::{Fault, Saving, Sink, Source, write_all};
use pm_machine::Machine;
use pm_session::{Ending, LastLine};
use pm_volume::Disk;
use std::alloc::{AllocError, Global};

/// How a job uses a machine.
#[derive(Drop)]
pub(crate) enum Talk {
    /// The machine runs for at most `limit` steps. The input of the job is the console input.
    Run { show: Show, limit: u64 },
    /// A debugger answers each line of the input. The bytes of `typed` are in the console input queue.
    Session { typed: Vec<u8> },
}

/// Ejects the disk of `unit` and returns its image. Returns None if the unit has no disk.
fn taken(machine: &mut Machine, unit: u8) -> Option<Vec<u8>>
    ensures image { option_map vec_items result ≡ ejected_image unit machine.old.state.devices }
    ensures event { machine.new.state ≡ next machine.old.state (Eject unit) }
{
    machine.eject(unit).map(Disk::into_bytes)
}

/// Ejects the disks of all units. Returns the image of unit 4, and the images of the other units.
#[tactic(auto, using(crate::proofs::Ejected::left))]
fn all_taken(machine: &mut Machine) -> (Option<Vec<u8>>, OtherImages)
    ensures first { option_map vec_items result.0 ≡ first_kept Saving.All machine.old.state.devices }
    ensures others { images_of result.1 ≡ others_in machine.old.state.devices }
{
    let first = taken(machine, 4);
    let others = [
        taken(machine, 5),
        taken(machine, 9),
        taken(machine, 10),
        taken(machine, 11),
        taken(machine, 12),
    ];
    (first, others)
}

/// Ejects the disks whose images `saving` selects. Returns the image of unit 4, and the images of the other units.
fn images_taken(machine: &mut Machine, saving: Saving) -> (Option<Vec<u8>>, OtherImages)
    ensures first { option_map vec_items result.0 ≡ first_kept saving machine.old.state.devices }
    ensures others { images_of result.1 ≡ others_kept saving machine.old.state.devices }
{
    match saving {
        Saving::Nothing => (None, no_images()),
        Saving::First => (taken(machine, 4), no_images()),
        Saving::All => all_taken(machine),
        Saving::Others => (None, all_taken(machine).1),
    }
}

/// Returns the outcome of a run that writes its console output. The outcome has the last line `last`, the printed
/// bytes, and the images that `saving` selects.
fn left_by_run(
    alloc: Global,
    machine: &mut Machine,
    saving: Saving,
    last: LastLine,
) -> Result<Outcome, AllocError>
    ensures outcome { last.steps ≡ machine.old.state.steps → IfOk result (λ outcome. (shown unread : List ℕ)
        → IsOutcome outcome (run_said saving (ended_run shown last.ending machine.old.state unread))) }
    ensures told { IfOk result SaysWhy }
    ensures accepted { IfOk result (λ outcome. outcome.refusal ≡ None) }
{
    let stopped = stopped_at(alloc, machine, last.ending);
    let message = format!(in alloc; "{last}")?;
    let printer = Vec::from_slice(alloc, machine.printer())?;
    let (image, others) = images_taken(machine, saving);
    Ok(Outcome {
        exit: Exit::of_ending(last.ending),
        message,
        image,
        others,
        printer,
        refusal: None,
        ending: Some(last.ending),
        line: None,
        stopped,
        about: None,
        hint: None,
    })
}

/// Writes `page`, the output that is not yet written, and for a trace the last line. Returns the outcome of the run.
fn tell<W: Sink>(
    alloc: Global,
    sink: &mut W,
    machine: &mut Machine,
    show: Show,
    ending: Ending,
    mut page: Vec<u8>,
) -> Result<Outcome, Fault>
    requires well { (W.seen sink.old).failed ≡ false }
    ensures written { OnOk result (Appends (W.seen sink.old).contents (W.seen sink.new).contents
        (page.items ++ end_text show ending machine.old.state.steps)) }
    ensures outcome { IfOk result (λ outcome. (shown unread : List ℕ)
        → IsOutcome outcome (said_run show (ended_run shown ending machine.old.state unread))) }
    ensures well { OnOk result ((W.seen sink.new).failed ≡ false) }
    ensures front { OnErr result (AppendsFront (W.seen sink.old).contents (W.seen sink.new).contents
        (page.items ++ end_text show ending machine.old.state.steps)) }
    ensures cause { IfErr result (λ fault. IsCause fault false (W.seen sink.new).failed []) }
    ensures told { IfOk result SaysWhy }
    ensures accepted { IfOk result (λ outcome. outcome.refusal ≡ None) }
{
    let last = LastLine {
        ending,
        steps: machine.steps(),
    };
    match show {
        Show::Trace(_) => {
            let line = format!(in alloc; "{last}\n")?;
            page.extend_from_slice(line.as_bytes())?;
            write_all(sink, &page)?;
            Ok(Outcome::plain(alloc, Exit::of_ending(ending), String::new(alloc)))
        }
        Show::Console { saving } => {
            write_all(sink, &page)?;
            Ok(left_by_run(alloc, machine, saving, last)?)
        }
    }
}

/// Runs `machine` for at most `limit` steps. Writes the output that `show` selects and returns the outcome.
fn do_run<R: Source, W: Sink>(
    alloc: Global,
    source: &mut R,
    sink: &mut W,
    machine: &mut Machine,
    show: Show,
    limit: u64,
) -> Result<Outcome, Fault>
    requires well { AreWell (both (R.seen source.old) (W.seen sink.old)) }
    ensures done { IfOk result (λ outcome. Finishes (both (R.seen source.old) (W.seen sink.old))
        (both (R.seen source.new) (W.seen sink.new)) outcome
        (said_talk (Talk.Run show limit) (Ok machine.old.state))) }
    ensures told { IfOk result SaysWhy }
    ensures well { OnOk result (AreWell (both (R.seen source.new) (W.seen sink.new))) }
    ensures broken { IfErr result (λ fault. BreaksOff (both (R.seen source.old) (W.seen sink.old))
        (both (R.seen source.new) (W.seen sink.new)) fault
        (said_talk (Talk.Run show limit) (Ok machine.old.state))) }
    ensures prompt { OnErr result (WritesInTime (both (R.seen source.old) (W.seen sink.old))
        (both (R.seen source.new) (W.seen sink.new)) (shown_talk (Talk.Run show limit) (Ok machine.old.state))) }
    ensures counts { IsCounted (R.seen source.old) (R.seen source.new) result }
    ensures accepted { IfOk result (λ outcome. outcome.refusal ≡ None) }
{
    let (ending, page) = drive(alloc, source, sink, machine, show, limit, &mut Quick)?;
    let outcome = tell(alloc, sink, machine, show, ending, page)?;
    Ok(outcome)
}

/// Appends `bytes` to the console input queue of `machine`, in their order.
fn type_into(machine: &mut Machine, bytes: &[u8]) -> Result<(), AllocError>
    ensures typed { OnOk result (machine.new.state ≡ typed_into bytes.now machine.old.state) }
{
    for byte in bytes {
        machine.key(*byte)?;
    }
    Ok(())
}

/// Creates a debugger of `machine`, which answers each line of the input. Returns the outcome of the session.
fn do_session<R: Source, W: Sink>(
    alloc: Global,
    source: &mut R,
    sink: &mut W,
    machine: Machine,
) -> Result<Outcome, Fault>
    requires well { AreWell (both (R.seen source.old) (W.seen sink.old)) }
    ensures done { IfOk result (λ outcome. Finishes (both (R.seen source.old) (W.seen sink.old))
        (both (R.seen source.new) (W.seen sink.new)) outcome (debugged machine.state)) }
    ensures told { IfOk result SaysWhy }
    ensures well { OnOk result (AreWell (both (R.seen source.new) (W.seen sink.new))) }
    ensures broken { IfErr result (λ fault. BreaksOff (both (R.seen source.old) (W.seen sink.old))
        (both (R.seen source.new) (W.seen sink.new)) fault (debugged machine.state)) }
    ensures prompt { OnErr result (WritesInTime (both (R.seen source.old) (W.seen sink.old))
        (both (R.seen source.new) (W.seen sink.new)) (λ read. (debugged machine.state (whole_lines read)).written)) }
    ensures counts { IsCounted (R.seen source.old) (R.seen source.new) result }
    ensures accepted { IfOk result (λ outcome. outcome.refusal ≡ None) }
{
    let mut debugger = Debugger::new(machine);
    converse(alloc, source, sink, &mut debugger)?;
    Ok(Outcome::plain(alloc, Exit::Ended, String::new(alloc)))
}

/// Starts the machine of `start` and uses it as `talk` states. If no machine starts, the job is refused and no input is
/// read.
pub(crate) fn do_talk<R: Source, W: Sink>(
    alloc: Global,
    source: &mut R,
    sink: &mut W,
    start: Start,
    talk: Talk,
) -> Result<Outcome, Fault>
    requires well { AreWell (both (R.seen source.old) (W.seen sink.old)) }
    ensures done { IfOk result (λ outcome. Finishes (both (R.seen source.old) (W.seen sink.old))
        (both (R.seen source.new) (W.seen sink.new)) outcome (said_talk talk (machine_at start))) }
    ensures told { IfOk result SaysWhy }
    ensures well { OnOk result (AreWell (both (R.seen source.new) (W.seen sink.new))) }
    ensures broken { IfErr result (λ fault. BreaksOff (both (R.seen source.old) (W.seen sink.old))
        (both (R.seen source.new) (W.seen sink.new)) fault (said_talk talk (machine_at start))) }
    ensures prompt { OnErr result (WritesInTime (both (R.seen source.old) (W.seen sink.old))
        (both (R.seen source.new) (W.seen sink.new)) (shown_talk talk (machine_at start))) }
    ensures counts { IsCounted (R.seen source.old) (R.seen source.new) result }
    ensures about { IfOk result (NamesFile start) }
{
    let mut machine = match start_on(alloc, start)? {
        Ok(machine) => machine,
        Err(none) => return Ok(refuse_for(alloc, none.refusal, none.line, none.about, none.hint)?),
    };
    match talk {
        Talk::Run { show, limit } => do_run(alloc, source, sink, &mut machine, show, limit),
        Talk::Session { typed } => {
            type_into(&mut machine, &typed)?;
            do_session(alloc, source, sink, machine)
        }
    }
}

//! Groups jobs by how they use their streams, and computes the group of a job.
ghost use Rattle.std.specs.Prelude.{◌≡◌};
ghost use Rattle.pm_batch.specs.Files.{opened_image};
ghost use Rattle.pm_check.specs.Forms.{form_seen};
ghost use Rattle.pm_tool.specs.Work.{work_of};

use crate::outcome::Job;
use crate::programs::Start;
use crate::steps::Show;
use crate::talk::Talk;
use pm_batch::{Batch, open};
use pm_check::form_seen;
use pm_filer::FileCommand;
use pm_jobs::{DisOutput, Selection};

/// A job, grouped by how it uses its streams.
#[derive(Drop)]
pub(crate) enum Work {
    /// Reads a program as text, and then traces its run.
    Raw { limit: u64, selection: Selection },
    /// Starts a machine, and then runs it or debugs it.
    Talk(Start, Talk),
    /// Writes the output for a code file.
    Dis(DisOutput),
    /// Converts bytes to bytes.
    Batch(Batch),
}

/// Creates the work that starts a machine on the program `name` of `disks` and uses it as `talk` states.
fn talk(disks: [Option<Vec<u8>>; 6], name: String, system: Option<Vec<u8>>, talk: Talk) -> Work
    ensures work { result ≡ Work.Talk (Start.Booted disks name system) talk }
{
    let start = Start::Booted {
        disks,
        name,
        system,
    };
    Work::Talk(start, talk)
}

/// Creates the use of a machine that runs at most `limit` steps and writes the output `show`.
fn run_of(show: Show, limit: u64) -> Talk
    ensures talk { result ≡ Talk.Run show limit }
{
    Talk::Run { show, limit }
}

/// Creates the work that traces the program in the input for at most `limit` steps. `selection` selects the lines.
fn traced(limit: u64, selection: Selection) -> Work
    ensures work { result ≡ Work.Raw limit selection }
{
    Work::Raw { limit, selection }
}

/// Creates the work that executes `command` on the volume of `image`. If `image` is no volume, its form is reported.
fn files(image: Vec<u8>, command: FileCommand) -> Work
    ensures work { result ≡ Work.Batch (Batch.Files (opened_image image.items) (form_seen image.items) command) }
{
    let form = form_seen(&image);
    let opened = open(image);
    Work::Batch(Batch::Files {
        opened,
        form,
        command,
    })
}

/// Returns the work that executes `job`.
pub(crate) fn work_of(job: Job) -> Work
    ensures work { result ≡ work_of job }
{
    match job {
        Job::Raw { limit, selection } => traced(u64::from(limit), selection),
        Job::Run {
            disks,
            name,
            limit,
            saving,
            system,
        } => talk(disks, name, system, run_of(Show::Console { saving }, limit)),
        Job::Trace {
            disks,
            name,
            limit,
            system,
            selection,
        } => talk(disks, name, system, run_of(Show::Trace(selection), limit)),
        Job::Debug {
            disks,
            name,
            system,
            typed,
        } => talk(disks, name, system, Talk::Session { typed }),
        Job::Asm(what) => Work::Batch(Batch::Asm(what)),
        Job::Dis(what) => Work::Dis(what),
        Job::Files { image, command } => files(image, command),
        Job::New { name, blocks } => Work::Batch(Batch::New { name, blocks }),
        Job::Repair { image } => Work::Batch(Batch::Repair { image }),
        Job::Check { image } => Work::Batch(Batch::Check { image }),
        Job::Salvage { image, second } => Work::Batch(Batch::Salvage { image, second }),
    }
}

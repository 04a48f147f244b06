//! The last line of a run.
ghost use Rattle.std.specs.Prelude.{Some};
ghost use Rattle.pm_session.specs.Endings.{last_line};

use pm_words::ExecError;
use std::fmt;

/// The reason of the end of a run.
#[derive(Clone, Copy, PartialEq, Eq)]
pub enum Ending {
    /// The program has ended.
    Ended,
    /// The program stopped at an execution error.
    Error(ExecError),
    /// The program has executed its maximum number of steps.
    Limit,
    /// The program waits for a byte of the console, and no byte is in the queue.
    Waiting,
}

/// The last line of a run: the reason of its end, and the number of steps that the machine has executed.
#[derive(Clone, Copy)]
pub struct LastLine {
    pub ending: Ending,
    pub steps: u64,
}

impl fmt::Display for LastLine {
    ghost output = { λ line. Some (last_line line.ending line.steps) };

    fn fmt<W: fmt::Write>(&self, f: &mut fmt::Formatter<W>) -> fmt::Result {
        let steps = self.steps;
        match self.ending {
            Ending::Ended => write!(f, "ended {steps}"),
            Ending::Error(error) => {
                let number = error.number();
                write!(f, "error {number} {steps}")
            }
            Ending::Limit => write!(f, "limit {steps}"),
            Ending::Waiting => write!(f, "waiting {steps}"),
        }
    }
}

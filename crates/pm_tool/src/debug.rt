//! The session of a debugger: commands are read line by line and answered.
ghost use Rattle.std.specs.Prelude.{◌≡◌, false, true, not, [], IfOk, IfErr, OnOk, OnErr};
ghost use Rattle.std.specs.Io.KnownBytes.{Appends};
ghost use Rattle.pm_debug.specs.Session.{session_of};
ghost use Rattle.pm_session.specs.Orders.{order_of};
ghost use Rattle.pm_session.specs.Answers.{session_after};
ghost use Rattle.pm_session.specs.Sessions.{answer_line, is_quit};
ghost use Rattle.pm_jobs.specs.Streams.{AppendsFront, IsCause, IsCounted, AreWell, both};
ghost use Rattle.pm_tool.specs.Talks.{IsAnswered, IsInterrupted};

use pm_debug::Debugger;
use pm_jobs::{Fault, Sink, Source, next_byte, write_all};
use pm_session::answer;
use std::alloc::Global;

/// Executes the command in `line` and writes the answer to `sink`. Returns false if the command was `quit`, and true
/// otherwise.
fn turn<W: Sink>(
    alloc: Global,
    sink: &mut W,
    debugger: &mut Debugger,
    line: &[u8],
) -> Result<bool, Fault>
    requires well { (W.seen sink.old).failed ≡ false }
    ensures going { IfOk result (λ going. going ≡ not (is_quit (order_of line.now))) }
    ensures written { OnOk result (Appends (W.seen sink.old).contents (W.seen sink.new).contents
        (answer_line (order_of line.now) (session_of debugger.old))) }
    ensures session { IfOk result (λ going. going ≡ true
        → (session_of debugger.new) ≡ session_after (order_of line.now) (session_of debugger.old)) }
    ensures well { OnOk result ((W.seen sink.new).failed ≡ false) }
    ensures front { OnErr result (AppendsFront (W.seen sink.old).contents (W.seen sink.new).contents
        (answer_line (order_of line.now) (session_of debugger.old))) }
    ensures cause { IfErr result (λ fault. IsCause fault false (W.seen sink.new).failed []) }
{
    let Some(text) = answer(alloc, debugger, line)? else {
        return Ok(false);
    };
    write_all(sink, text.as_bytes())?;
    Ok(true)
}

/// Reads lines from `source` and answers each with `debugger`, until `quit` or the end of the input. A last line
/// without a line feed is also answered if it is not empty.
pub(crate) fn converse<R: Source, W: Sink>(
    alloc: Global,
    source: &mut R,
    sink: &mut W,
    debugger: &mut Debugger,
) -> Result<(), Fault>
    requires well { AreWell (both (R.seen source.old) (W.seen sink.old)) }
    ensures told { OnOk result (IsAnswered (both (R.seen source.old) (W.seen sink.old))
        (both (R.seen source.new) (W.seen sink.new)) (session_of debugger.old)) }
    ensures well { OnOk result (AreWell (both (R.seen source.new) (W.seen sink.new))) }
    ensures cut { IfErr result (λ fault. IsInterrupted (both (R.seen source.old) (W.seen sink.old))
        (both (R.seen source.new) (W.seen sink.new)) (session_of debugger.old) fault) }
    ensures counts { IsCounted (R.seen source.old) (R.seen source.new) result }
{
    let mut line = Vec::new(alloc);
    let mut taken = 0;
    'bytes: while let Some(byte) = next_byte(source, &mut taken)? {
        if byte == b'\n' {
            if !turn(alloc, sink, debugger, &line)? {
                return Ok(());
            }
            line.clear();
        } else {
            let Ok(()) = line.push(byte) else {
                return Err(Fault::NoMemory);
            };
        }
    }
    if line.is_empty() {
        return Ok(());
    }
    turn(alloc, sink, debugger, &line)?;
    Ok(())
}

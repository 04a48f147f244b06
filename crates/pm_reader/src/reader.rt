//! The reader: the result of the lines that were read, and the faults of the next line.

ghost use Rattle.std.specs.Prelude.{◌≡◌, ◌==◌, ◌+◌, ◌++◌, List, [], Some, None, IfSome, IfErr, OnOk};
ghost use Rattle.std.specs.List.{list_any};
ghost use Rattle.pm_line.specs.Views.{statement_seen, flaw_seen, line_seen};
ghost use Rattle.pm_source.specs.Line as text;
ghost use Rattle.pm_source.specs.Line.{line_of};
ghost use Rattle.pm_source.specs.Line.Line.{Says};
ghost use Rattle.pm_source.specs.Faults as faults;
ghost use Rattle.pm_source.specs.Faults.{after, after_line, closed, ends, is_again, is_in_place};
ghost use Rattle.pm_source.specs.Faults.{is_miscounted, line_faults, procedure_count, start};
ghost use Rattle.pm_reader.specs.Views.{labelled_segments};
ghost use Rattle.pm_reader.specs.Counts.{AreCounts};
ghost use Rattle.pm_reader.specs.Each.{first_in};
ghost use Rattle.pm_reader.specs.Firsts.{IsFirstOf};
ghost use Rattle.pm_source.specs.declared.fault.AsmFault.TheVariants.{NoMemory};
ghost use Rattle.pm_reader.specs.Reader.{reader_seen, Answers, IsCountless, open_end};

use crate::counts::Counts;
use crate::current::Current;
use crate::entries::entries_taken;
use crate::noted::note;
use crate::sizes::code_end;
use crate::source::{Entry, LabelledSegment};
use pm_line::{Flaw, Line, Row, Statement, line};
use pm_source::AsmFault;
use std::alloc::{AllocError, Global};

/// The result of the lines that were read: the segments with their complete procedures, and the procedure that has not
/// ended.
#[derive(Drop)]
pub(crate) struct Reader<'a> {
    segments: Vec<LabelledSegment<'a>>,
    current: Option<Current<'a>>,
}

/// Returns whether one of `segments` has the number `number`.
fn any_number(segments: &[LabelledSegment<'_>], number: u8) -> bool
    ensures number { result ≡ list_any (λ s. s.number == number) segments.now }
{
    segments.iter().any(|segment| segment.number == number)
}

/// Returns the number of procedures of the last segment, or 0 if `segments` is empty.
fn last_count(segments: &[LabelledSegment<'_>]) -> usize
    ensures count { result ≡ procedure_count (labelled_segments segments.now) }
{
    match segments.last() {
        Some(segment) => segment.procedures.len(),
        None => 0,
    }
}

/// Returns whether `number` is the number of the next procedure after `count` procedures.
fn is_next(number: u8, count: usize) -> bool
    ensures next { result ≡ (number == count + 1) }
{
    number > 0 && usize::from(number) - 1 == count
}

/// Returns whether `statement` begins a procedure.
fn is_begin(statement: &Statement<'_>) -> bool
    ensures begin { result ≡ faults.is_begin (statement_seen statement.now) }
{
    matches!(statement, Statement::Begin { .. })
}

/// Returns whether `statement` ends a procedure.
fn is_end(statement: &Statement<'_>) -> bool
    ensures end { result ≡ faults.is_end (statement_seen statement.now) }
{
    matches!(statement, Statement::End)
}

impl<'a> Reader<'a> {
    /// Returns whether `statement` is allowed after the lines that were read.
    fn is_in_place(&self, statement: &Statement<'a>) -> bool
        ensures in_place { result ≡ is_in_place (reader_seen self.now) (statement_seen statement.now) }
    {
        match (statement, &self.current) {
            (Statement::Segment { .. }, current) => current.is_none(),
            (Statement::Begin { .. }, current) => current.is_none() && !self.segments.is_empty(),
            (_, None) => false,
            (Statement::Code(_), Some(current)) => current.procedure.entries.is_empty(),
            (Statement::Entry { .. }, Some(_)) => true,
            (Statement::End, Some(current)) => current.procedure.has_exit(),
        }
    }

    /// Returns whether `statement` defines a slot, a label of the procedure, or the exit code again.
    #[tactic(auto, using(crate::proofs::Seen::any_of_views))]
    fn is_again(&self, statement: &Statement<'a>) -> bool
        ensures again { result ≡ is_again (reader_seen self.now) (statement_seen statement.now) }
    {
        match (statement, &self.current) {
            (Statement::Segment { number, .. }, _) => {
                *number < 16 && any_number(&self.segments, *number)
            }
            (
                Statement::Code(
                    Row::One {
                        label: Some(label),
                        ..
                    }
                    | Row::Items {
                        label: Some(label),
                        ..
                    },
                ),
                Some(current),
            ) => current.has_label(label),
            (Statement::Code(Row::Exit), Some(current)) => current.procedure.has_exit(),
            _ => false,
        }
    }

    /// Returns whether `statement` begins a procedure with a number that is not the next one, or ends a procedure with
    /// an odd length or a wrong number of jump entries. Returns `None` only if the length does not fit in 64 bits.
    fn is_miscounted(&self, statement: &Statement<'a>) -> Option<bool>
        ensures miscounted { IfSome result (λ wrong. wrong
            ≡ is_miscounted (reader_seen self.now) (statement_seen statement.now)) }
        ensures too_long { result ≡ None → IsCountless (open_end (reader_seen self.now).current) }
    {
        match (statement, &self.current) {
            (Statement::Begin { number, .. }, None) => {
                Some(!is_next(*number, last_count(&self.segments)))
            }
            (Statement::End, Some(current)) => current.procedure.is_uneven(),
            _ => Some(false),
        }
    }

    /// Returns the first fault of the statement `said` on line `number`, or `None`. `ends_later` states whether a later
    /// line ends a procedure.
    ///
    /// The faults are checked in this order:
    ///
    /// - `Syntax`: the statement is not allowed after the lines that were read, or it begins a procedure that no later
    ///   line ends.
    /// - `Unknown`: a type keyword is unknown.
    /// - `Twice`: the statement defines a slot, a label or the exit code again.
    /// - `Range`: a number is out of range, a procedure has a wrong number, or its end has wrong counts.
    ///
    /// Returns `NoMemory` only if the length of the code does not fit in 64 bits.
    fn said_fault(
        &self,
        number: usize,
        said: &Statement<'a>,
        flaw: Flaw,
        ends_later: bool,
    ) -> Option<AsmFault>
        ensures fault { (rest : List text.Line) → ends_later ≡ list_any ends rest
            → Answers result (line_faults number (reader_seen self.now)
            (Says (statement_seen said.now) (flaw_seen flaw)) rest) }
        ensures too_long { result ≡ Some NoMemory → IsCountless (open_end (reader_seen self.now).current) }
    {
        if !self.is_in_place(said) || is_begin(said) && !ends_later {
            return Some(AsmFault::Syntax(number));
        }
        if flaw == Flaw::UnknownType {
            return Some(AsmFault::Unknown(number));
        }
        if self.is_again(said) {
            return Some(AsmFault::Twice(number));
        }
        if flaw == Flaw::OutOfRange {
            return Some(AsmFault::Range(number));
        }
        match self.is_miscounted(said) {
            None => Some(AsmFault::NoMemory),
            Some(true) => Some(AsmFault::Range(number)),
            Some(false) => None,
        }
    }

    /// Returns the first fault of the line `line` with the number `number`, or `None`. `ends_later` states whether a
    /// later line ends a procedure. Returns `NoMemory` only if the length of the code does not fit in 64 bits.
    fn line_fault(&self, number: usize, line: &Line<'a>, ends_later: bool) -> Option<AsmFault>
        ensures fault { (rest : List text.Line) → ends_later ≡ list_any ends rest
            → Answers result (line_faults number (reader_seen self.now) (line_seen line.now) rest) }
        ensures too_long { result ≡ Some NoMemory → IsCountless (open_end (reader_seen self.now).current) }
    {
        match line {
            Line::Blank => None,
            Line::Wrong { .. } => Some(AsmFault::Syntax(number)),
            Line::Strange => Some(AsmFault::Unknown(number)),
            Line::Says(said, flaw) => self.said_fault(number, said, *flaw, ends_later),
        }
    }
}

impl<'a> Reader<'a> {
    /// Creates a reader that has read no line.
    pub(crate) fn new(alloc: Global) -> Reader<'a>
        ensures start { reader_seen result ≡ start }
    {
        Reader {
            segments: Vec::new(alloc),
            current: None,
        }
    }

    /// Returns the segments. If a procedure has not ended, it is not included.
    pub(crate) fn into_segments(self) -> Vec<LabelledSegment<'a>>
        ensures segments { labelled_segments result.items ≡ (reader_seen self.entry).segments }
    {
        self.segments
    }

    /// Ends the procedure that has begun, and appends it to the last segment. If no procedure has begun, nothing
    /// changes.
    fn close(&mut self) -> Result<(), AllocError>
        ensures ok { OnOk result (reader_seen self.new
            ≡ closed (reader_seen self.old).segments (reader_seen self.old).current) }
    {
        if let Some(current) = self.current.take() {
            if let Some(mut segment) = self.segments.pop() {
                segment.procedures.push(current.procedure)?;
                self.segments.push(segment)?;
            }
        }
        Ok(())
    }

    /// Updates the reader by `statement`.
    fn say(&mut self, alloc: Global, statement: Statement<'a>) -> Result<(), AllocError>
        ensures ok { OnOk result (reader_seen self.new
            ≡ after (reader_seen self.old) (statement_seen statement.entry)) }
    {
        match statement {
            Statement::Segment { number, name } => {
                self.segments.push(LabelledSegment {
                    number,
                    name,
                    procedures: Vec::new(alloc),
                })?;
            }
            Statement::Begin {
                level,
                parameters,
                locals,
                ..
            } => {
                self.current = Some(Current::new(alloc, level, parameters, locals));
            }
            Statement::Code(row) => {
                if let Some(current) = self.current.take() {
                    self.current = Some(current.with_row(row)?);
                }
            }
            Statement::Entry { line, label } => {
                if let Some(current) = &mut self.current {
                    current.procedure.entries.push(Entry { line, label })?;
                }
            }
            Statement::End => self.close()?,
        }
        Ok(())
    }

    /// Updates the reader by `line`. The statement of the line has an effect only if it is allowed after the lines that
    /// were read. A line that ends a procedure always has this effect.
    fn take(&mut self, alloc: Global, line: Line<'a>) -> Result<(), AllocError>
        ensures ok { OnOk result (reader_seen self.new
            ≡ after_line (reader_seen self.old) (line_seen line.entry)) }
    {
        match line {
            Line::Says(said, _) => {
                if self.is_in_place(&said) {
                    self.say(alloc, said)
                } else if is_end(&said) {
                    self.close()
                } else {
                    Ok(())
                }
            }
            Line::Wrong { ends: true } => self.close(),
            Line::Blank | Line::Wrong { ends: false } | Line::Strange => Ok(()),
        }
    }

    /// Checks `line`, and updates the reader by it if it has no fault. `ends_later` states whether a later line ends a
    /// procedure.
    ///
    /// # Errors
    ///
    /// The first fault of the line, or `NoMemory`.
    fn step(
        &mut self,
        alloc: Global,
        number: usize,
        line: Line<'a>,
        ends_later: bool,
    ) -> Result<(), AsmFault>
        ensures faultless { (rest : List text.Line) → ends_later ≡ list_any ends rest
            → OnOk result (line_faults number (reader_seen self.old) (line_seen line.entry) rest ≡ []) }
        ensures taken { OnOk result (reader_seen self.new
            ≡ after_line (reader_seen self.old) (line_seen line.entry)) }
        ensures refusal { (rest : List text.Line) → ends_later ≡ list_any ends rest
            → IfErr result (λ fault. IsFirstOf fault (line_faults number (reader_seen self.old)
            (line_seen line.entry) rest)) }
    {
        if let Some(fault) = self.line_fault(number, &line, ends_later) {
            return Err(fault);
        }
        self.take(alloc, line).map_err(|_| AsmFault::NoMemory)
    }

    /// Parses and checks a line, and updates the reader by it if it has no fault. `number` is the number of the line,
    /// and `part` is its text. `ends_later` states whether a later line ends a procedure.
    ///
    /// # Errors
    ///
    /// The first fault of the line, or `NoMemory`.
    pub(crate) fn read_line(
        &mut self,
        alloc: Global,
        number: usize,
        part: &'a [u8],
        ends_later: bool,
    ) -> Result<(), AsmFault>
        ensures faultless { (rest : List text.Line) → ends_later ≡ list_any ends rest
            → OnOk result (line_faults number (reader_seen self.old) (line_of number part.now) rest ≡ []) }
        ensures taken { OnOk result (reader_seen self.new
            ≡ after_line (reader_seen self.old) (line_of number part.now)) }
        ensures refusal { (rest : List text.Line) → ends_later ≡ list_any ends rest
            → IfErr result (λ fault. IsFirstOf fault (line_faults number (reader_seen self.old)
            (line_of number part.now) rest)) }
    {
        let line = line(alloc, number, part).map_err(|_| AsmFault::NoMemory)?;
        self.step(alloc, number, line, ends_later)
    }

    /// Parses a line, and updates the reader by it, even if it has faults. `number` is the number of the line, and
    /// `part` is its text.
    pub(crate) fn take_line(
        &mut self,
        alloc: Global,
        number: usize,
        part: &'a [u8],
    ) -> Result<(), AllocError>
        ensures taken { OnOk result (reader_seen self.new
            ≡ after_line (reader_seen self.old) (line_of number part.now)) }
    {
        let line = line(alloc, number, part)?;
        self.take(alloc, line)
    }

    /// Returns the counts of the procedure that has begun, as they would be checked if the next line ended it. Returns
    /// `None` if no procedure has begun, or if a count does not fit in 64 bits.
    pub(crate) fn counts(&self) -> Option<Counts>
        ensures counts { IfSome result (AreCounts (reader_seen self.now)) }
    {
        let Current { procedure, .. } = self.current.as_ref()?;
        Some(Counts {
            procedure: last_count(&self.segments).checked_add(1)?,
            bytes: code_end(0, &procedure.code)?,
            entries: procedure.entries.len(),
            taken: entries_taken(&procedure.code),
        })
    }

    /// Parses a line, appends its first fault to `found`, and updates the reader by the line. `number` is the number of
    /// the line, and `part` is its text. `ends_later` states whether a later line ends a procedure.
    ///
    /// # Errors
    ///
    /// `NoMemory`: the host has no memory, or the length of the code does not fit in 64 bits.
    #[tactic(auto, using(crate::proofs::Eachs::first_noted))]
    pub(crate) fn note_line(
        &mut self,
        alloc: Global,
        number: usize,
        part: &'a [u8],
        ends_later: bool,
        found: &mut Vec<AsmFault>,
    ) -> Result<(), AsmFault>
        ensures noted { (rest : List text.Line) → ends_later ≡ list_any ends rest
            → OnOk result (found.new.items ≡ found.old.items
            ++ first_in (line_faults number (reader_seen self.old) (line_of number part.now) rest)) }
        ensures taken { OnOk result (reader_seen self.new
            ≡ after_line (reader_seen self.old) (line_of number part.now)) }
        ensures refusal { IfErr result (λ fault. fault ≡ NoMemory) }
    {
        let line = line(alloc, number, part).map_err(|_| AsmFault::NoMemory)?;
        note(found, self.line_fault(number, &line, ends_later))?;
        self.take(alloc, line).map_err(|_| AsmFault::NoMemory)
    }
}

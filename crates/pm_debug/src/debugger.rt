//! The debugger: a machine with breakpoints, watched words and views.

ghost use Rattle.std.specs.Prelude.{◌≡◌, ◌<◌, ◌≤◌, ◌+◌, Some, None, [], false, Ok, Err};
ghost use Rattle.std.specs.Prelude.{IfOk, IfErr, IfSome, IfNone, OnOk, OnErr};
ghost use Rattle.std.specs.Borrow.{sem};
ghost use Rattle.pm_debug.specs.Ahead.{addresses_ahead};
ghost use Rattle.pm_debug.specs.Breaks.{breakpoint, stands_at, with_break, without_break};
ghost use Rattle.pm_machine.specs.CodePlaces.{code_place, place_in_code};
ghost use Rattle.pm_debug.specs.Frames.{frames};
ghost use Rattle.pm_debug.specs.Lending.{LendsMachine};
ghost use Rattle.pm_debug.specs.Session.{StopsShort};
ghost use Rattle.pm_debug.specs.Passes.{GaveUpPast, left_past, made_of, passed};
ghost use Rattle.pm_debug.specs.Refusals.{or_refused};
ghost use Rattle.pm_debug.specs.Runs.{gone, gone_on, gone_out, gone_over, gone_to, gone_until, has_left, is_back};
ghost use Rattle.pm_debug.specs.Runs.{is_there, left_after, left_on, nowhere, stops_after};
ghost use Rattle.pm_debug.specs.Runs.Left.{Nothing};
ghost use Rattle.pm_debug.specs.declared.breaks.Spot.TheVariants.{Code};
ghost use Rattle.pm_debug.specs.declared.run.Depth.TheVariants.{Any, Back};
ghost use Rattle.pm_debug.specs.declared.run.Depth.TheVariants as depths;
ghost use Rattle.pm_machine.specs.Runs.{GaveUp};
ghost use Rattle.pm_debug.specs.Views.{ShowsChain, bytes_from, console_end, dynamic_chain, local, stack_words};
ghost use Rattle.pm_debug.specs.Views.{static_chain, words_from};
ghost use Rattle.pm_debug.specs.Watches.{with_watch, without_watch};

use crate::ahead::addresses_from;
use crate::breaks::{Breakpoint, Breaks, Condition, Spot};
use crate::frames::{Frame, frames};
use crate::reason::BreakReason;
use crate::refusal::{DebugRefusal, refusal_of};
use crate::run::{Depth, LastRun, has_ended, last_run, run, run_past};
use crate::views::{DYNAMIC_LINK, STATIC_LINK, chain, words_at};
use crate::watches::{WatchedWords, Watches, watched_words};
use crate::{breaks, watches};
use arrayvec::ArrayVec;
use pm_machine::{CodePlace, Machine, place_in_code};
use pm_words::layout::STACK_END;
use std::alloc::{AllocError, Global};
use std::marker::Model;

/// A machine with a debugger. A watched word is a word of memory whose change stops a run. A debugger has these parts:
///
/// - the machine,
/// - the breakpoints and the addresses of the watched words, which stop runs,
/// - the rest of the last run, if its limit or a breakpoint stopped it,
/// - the number of passes: how many breakpoints runs may still pass over,
/// - whether a session shows what its commands add to the console.
///
/// Contracts describe the machine by its state. The debugger shows this state as it is at the call.
#[derive(Drop)]
pub struct Debugger {
    machine: Machine,
    breaks: Breaks,
    watches: Watches,
    last_run: LastRun,
    watched: WatchedWords,
    passes: u32,
    shows_console: bool,
}

impl Model for Debugger {
    ghost use Rattle.pm_debug.specs.Runs.{left_seen};
    ghost use Rattle.pm_debug.specs.Session.{Debugged};

    ghost Value = { Debugged };

    ghost view = { λ d. record {
      machine = d.machine;
      breaks = d.breaks.items;
      watches = d.watches.items;
      left = left_seen d.last_run d.watched.items;
      passes = d.passes;
      shows_console = d.shows_console;
    } };
}

impl Debugger {
    /// Creates a debugger of `machine`, without breakpoints and watched words. Its session does not show the console.
    pub fn new(machine: Machine) -> Debugger
        ensures machine { result.machine ≡ machine }
        ensures breaks { result.breaks ≡ [] }
        ensures watches { result.watches ≡ [] }
        ensures left { result.left ≡ Nothing }
        ensures passes { result.passes ≡ 0 }
        ensures shows { result.shows_console ≡ false }
    {
        Debugger {
            machine,
            breaks: ArrayVec::new(),
            watches: ArrayVec::new(),
            last_run: LastRun::Over,
            watched: ArrayVec::new(),
            passes: 0,
            shows_console: false,
        }
    }

    /// Borrows the machine. If the caller changes the borrowed machine, the debugger's machine has these changes.
    pub fn machine(&mut self) -> &mut Machine
        ensures* lends { sem 𝓛 (LendsMachine self.entry result) }
        ensures value { result.now ≡ self.old.machine }
    {
        &mut self.machine
    }

    /// Returns the machine for reading.
    pub fn as_machine(&self) -> &Machine
        ensures value { result.now ≡ self.now.machine }
    {
        &self.machine
    }

    /// Returns the machine and drops the breakpoints and watched words.
    pub fn into_machine(self) -> Machine
        ensures machine { result ≡ self.machine }
    {
        let Debugger { machine, .. } = self;
        machine
    }

    /// Sets a breakpoint at a position in the code: a segment number, a procedure number and an offset in bytes from
    /// the entry of the procedure. If `condition` is not `None`, a run stops only if the condition is true.
    ///
    /// A breakpoint at the same position is replaced, and its index in the list is unchanged. This is also possible
    /// with 64 breakpoints.
    ///
    /// # Errors
    ///
    /// Nothing has changed after an error.
    ///
    /// - `OddAddress`: the address of the condition is odd.
    /// - `Full`: no breakpoint is at this position, and 64 are set.
    pub fn set_break(
        &mut self,
        segment: u8,
        procedure: u8,
        offset: u16,
        condition: Option<Condition>,
    ) -> Result<(), DebugRefusal>
        ensures alone { self.new ≡ record self.old { breaks = self.new.breaks } }
        ensures set { OnOk result (with_break (breakpoint (Code (code_place segment procedure offset)) condition)
            self.old.breaks ≡ Ok self.new.breaks) }
        ensures refusal { IfErr result (λ refusal. with_break
            (breakpoint (Code (code_place segment procedure offset)) condition) self.old.breaks ≡ Err refusal) }
        ensures unchanged { OnErr result (self.new ≡ self.old) }
    {
        let place = CodePlace {
            segment,
            procedure,
            offset,
        };
        let spot = Spot::Code(place);
        breaks::set(&mut self.breaks, Breakpoint { spot, condition })
    }

    /// Sets a breakpoint at `spot`: a position in the code, or words that a step writes or reads. If `condition` is not
    /// `None`, a run stops only if the condition is true.
    ///
    /// A breakpoint at the same spot is replaced, and its index in the list is unchanged. This is also possible with 64
    /// breakpoints.
    ///
    /// # Errors
    ///
    /// Nothing has changed after an error.
    ///
    /// - `OddAddress`: the address of the words or of the condition is odd.
    /// - `Full`: no breakpoint is at this spot, and 64 are set.
    pub fn set_break_on(
        &mut self,
        spot: Spot,
        condition: Option<Condition>,
    ) -> Result<(), DebugRefusal>
        ensures alone { self.new ≡ record self.old { breaks = self.new.breaks } }
        ensures set { OnOk result (with_break (breakpoint spot condition) self.old.breaks ≡ Ok self.new.breaks) }
        ensures refusal { IfErr result (λ refusal. with_break (breakpoint spot condition) self.old.breaks
            ≡ Err refusal) }
        ensures unchanged { OnErr result (self.new ≡ self.old) }
    {
        let new = Breakpoint { spot, condition };
        breaks::set(&mut self.breaks, new)
    }

    /// Removes the breakpoint at a position in the code, regardless of its condition. If no breakpoint is at this
    /// position, returns `NotSet` and changes nothing.
    pub fn clear_break(
        &mut self,
        segment: u8,
        procedure: u8,
        offset: u16,
    ) -> Result<(), DebugRefusal>
        ensures alone { self.new ≡ record self.old { breaks = self.new.breaks } }
        ensures cleared { OnOk result (without_break (Code (code_place segment procedure offset)) self.old.breaks
            ≡ Ok self.new.breaks) }
        ensures refusal { IfErr result (λ refusal.
            without_break (Code (code_place segment procedure offset)) self.old.breaks ≡ Err refusal) }
        ensures unchanged { OnErr result (self.new ≡ self.old) }
    {
        let place = CodePlace {
            segment,
            procedure,
            offset,
        };
        breaks::clear(&mut self.breaks, Spot::Code(place))
    }

    /// Removes the breakpoint at `spot`, regardless of its condition. The words of a spot must have the same address
    /// and number. If no breakpoint is at `spot`, returns `NotSet` and changes nothing.
    pub fn clear_break_on(&mut self, spot: Spot) -> Result<(), DebugRefusal>
        ensures alone { self.new ≡ record self.old { breaks = self.new.breaks } }
        ensures cleared { OnOk result (without_break spot self.old.breaks ≡ Ok self.new.breaks) }
        ensures refusal { IfErr result (λ refusal. without_break spot self.old.breaks ≡ Err refusal) }
        ensures unchanged { OnErr result (self.new ≡ self.old) }
    {
        breaks::clear(&mut self.breaks, spot)
    }

    /// Watches the word of memory at the even address `address`. A run stops before a step, except its first, if this
    /// word has changed since the run began. A word that is watched already remains watched.
    ///
    /// The last run cannot be continued afterwards.
    ///
    /// # Errors
    ///
    /// Nothing has changed after an error.
    ///
    /// - `OddAddress`: the address is odd.
    /// - `Full`: the word is not watched, and 64 others are.
    pub fn set_watch(&mut self, address: u16) -> Result<(), DebugRefusal>
        ensures alone { self.new ≡ record self.old { watches = self.new.watches; left = self.new.left } }
        ensures left { OnOk result (self.new.left ≡ Nothing) }
        ensures set { OnOk result (with_watch address self.old.watches ≡ Ok self.new.watches) }
        ensures refusal { IfErr result (λ refusal. with_watch address self.old.watches ≡ Err refusal) }
        ensures unchanged { OnErr result (self.new ≡ self.old) }
    {
        watches::set(&mut self.watches, address)?;
        self.last_run = LastRun::Over;
        Ok(())
    }

    /// Stops watching the word of memory at `address`. The last run cannot be continued afterwards. If the word is not
    /// watched, returns `NotSet` and changes nothing.
    pub fn clear_watch(&mut self, address: u16) -> Result<(), DebugRefusal>
        ensures alone { self.new ≡ record self.old { watches = self.new.watches; left = self.new.left } }
        ensures left { OnOk result (self.new.left ≡ Nothing) }
        ensures cleared { OnOk result (without_watch address self.old.watches ≡ Ok self.new.watches) }
        ensures refusal { IfErr result (λ refusal. without_watch address self.old.watches ≡ Err refusal) }
        ensures unchanged { OnErr result (self.new ≡ self.old) }
    {
        watches::clear(&mut self.watches, address)?;
        self.last_run = LastRun::Over;
        Ok(())
    }

    /// Sets whether a session shows what its commands add to the console.
    pub fn set_shows_console(&mut self, shows: bool)
        ensures set { self.new ≡ record self.old { shows_console = shows } }
    {
        self.shows_console = shows;
    }

    /// Sets the number of passes: how many breakpoints runs may pass over. Each call of `pass` that passes over a
    /// breakpoint uses one pass.
    pub fn set_passes(&mut self, passes: u32)
        ensures set { self.new ≡ record self.old { passes = passes } }
    {
        self.passes = passes;
    }

    // Runs at most `limit` steps, until the machine is at the destination `depth`.
    #[tactic(auto, unfolding(crate::specs::Runs::gone_to), using(crate::proofs::OnLaws::gave_up_first))]
    fn run_to(&mut self, depth: Depth, limit: u64) -> Result<(u64, BreakReason), AllocError>
        ensures alone { self.new ≡ record self.old { machine = self.new.machine; left = self.new.left } }
        ensures gone { IfOk result (λ r.
            gone_to self.old.breaks self.old.watches (is_there depth) limit self.old.machine.state
            ≡ record { steps = r.0; reason = r.1; machine = self.new.machine.state }) }
        ensures left { IfOk result (λ r. self.new.left
            ≡ left_after depth self.old.watches self.old.machine.state r.0 r.1) }
        ensures err { OnErr result (GaveUp
            (stops_after self.old.breaks self.old.watches (is_there depth) self.old.machine.state)
            limit self.old.machine self.new.machine) }
    {
        self.watched = watched_words(self.machine.memory(), &self.watches);
        self.last_run = LastRun::Over;
        if has_ended(self.machine.status()) {
            return Ok((0, BreakReason::Ended));
        }
        let machine = &mut self.machine;
        let ran = run(machine, &self.breaks, &self.watched, depth, 0, limit)?;
        self.last_run = last_run(depth, ran);
        Ok(ran)
    }

    /// Runs at most `limit` steps. The run stops earlier in these cases:
    ///
    /// - A watched word has changed since the run began. This is checked before each step except the first.
    /// - A breakpoint stops the run. This is checked before each step except the first.
    /// - The program ends.
    /// - A step waits or fails.
    ///
    /// Returns the number of steps that succeeded or ended the program, and the reason of the stop. If several watched
    /// words have changed, the reason is the first of them in the list. If a word has changed and a breakpoint also
    /// stops the run, the reason is the word. A change or a breakpoint at the limit is not reported.
    ///
    /// After `AllocError` the machine is in the state after the steps that succeeded, and the last run cannot be
    /// continued.
    pub fn go(&mut self, limit: u64) -> Result<(u64, BreakReason), AllocError>
        ensures alone { self.new ≡ record self.old { machine = self.new.machine; left = self.new.left } }
        ensures gone { IfOk result (λ r. gone self.old.breaks self.old.watches limit self.old.machine.state
            ≡ record { steps = r.0; reason = r.1; machine = self.new.machine.state }) }
        ensures left { IfOk result (λ r. self.new.left
            ≡ left_after Any self.old.watches self.old.machine.state r.0 r.1) }
        ensures err { OnErr result (GaveUp
            (stops_after self.old.breaks self.old.watches nowhere self.old.machine.state)
            limit self.old.machine self.new.machine) }
    {
        self.run_to(Depth::Any, limit)
    }

    /// Executes one instruction. If this instruction is a call, executes the whole called procedure. The run stops when
    /// the machine is in the current frame again, or in a frame at a higher address. It also stops as `go` does, and
    /// after `limit` steps.
    pub fn step_over(&mut self, limit: u64) -> Result<(u64, BreakReason), AllocError>
        ensures alone { self.new ≡ record self.old { machine = self.new.machine; left = self.new.left } }
        ensures gone { IfOk result (λ r. gone_over self.old.breaks self.old.watches limit self.old.machine.state
            ≡ record { steps = r.0; reason = r.1; machine = self.new.machine.state }) }
        ensures left { IfOk result (λ r. self.new.left
            ≡ left_after (Back self.old.machine.state.registers.mp) self.old.watches self.old.machine.state r.0 r.1) }
        ensures err { OnErr result (GaveUp (stops_after self.old.breaks self.old.watches
            (is_back self.old.machine.state.registers.mp) self.old.machine.state)
            limit self.old.machine self.new.machine) }
    {
        let depth = Depth::Back(self.machine.registers().mp);
        self.run_to(depth, limit)
    }

    /// Executes the rest of the running procedure and its return. The run stops when the machine is in a frame at a
    /// higher address than the current frame. It also stops as `go` does, and after `limit` steps.
    pub fn finish(&mut self, limit: u64) -> Result<(u64, BreakReason), AllocError>
        ensures alone { self.new ≡ record self.old { machine = self.new.machine; left = self.new.left } }
        ensures gone { IfOk result (λ r. gone_out self.old.breaks self.old.watches limit self.old.machine.state
            ≡ record { steps = r.0; reason = r.1; machine = self.new.machine.state }) }
        ensures left { IfOk result (λ r. self.new.left ≡ left_after
            (depths.Left self.old.machine.state.registers.mp) self.old.watches self.old.machine.state r.0 r.1) }
        ensures err { OnErr result (GaveUp (stops_after self.old.breaks self.old.watches
            (has_left self.old.machine.state.registers.mp) self.old.machine.state)
            limit self.old.machine self.new.machine) }
    {
        let depth = Depth::Left(self.machine.registers().mp);
        self.run_to(depth, limit)
    }

    /// Runs until the machine is at a position in the code, before the instruction at this position. The position is a
    /// segment number, a procedure number and an offset in bytes, as for a breakpoint. It is not checked before the
    /// first step. The run also stops as `go` does, and after `limit` steps.
    pub fn until(
        &mut self,
        segment: u8,
        procedure: u8,
        offset: u16,
        limit: u64,
    ) -> Result<(u64, BreakReason), AllocError>
        ensures alone { self.new ≡ record self.old { machine = self.new.machine; left = self.new.left } }
        ensures gone { IfOk result (λ r. gone_until self.old.breaks self.old.watches
            (code_place segment procedure offset) limit self.old.machine.state
            ≡ record { steps = r.0; reason = r.1; machine = self.new.machine.state }) }
        ensures left { IfOk result (λ r. self.new.left ≡ left_after
            (depths.Place (code_place segment procedure offset)) self.old.watches self.old.machine.state r.0 r.1) }
        ensures err { OnErr result (GaveUp (stops_after self.old.breaks self.old.watches
            (stands_at (code_place segment procedure offset)) self.old.machine.state)
            limit self.old.machine self.new.machine) }
    {
        let place = CodePlace {
            segment,
            procedure,
            offset,
        };
        self.run_to(Depth::Place(place), limit)
    }

    /// Continues the last run, which its limit stopped, for at most `limit` more steps. The result is as if the run had
    /// not been stopped:
    ///
    /// - The returned number is the number of steps of the whole run, at most 18,446,744,073,709,551,615.
    /// - The breakpoints, the watched words and the destination are checked before each step except the first of the
    ///   whole run.
    /// - The watched words are compared with their values when the whole run began.
    ///
    /// # Errors
    ///
    /// - `NothingLeft`: the limit did not stop the last run, or a word was watched or cleared since. Nothing has
    ///   changed.
    /// - `NoMemory`: the machine is in the state after the steps that succeeded.
    #[tactic(auto, unfolding(crate::specs::Runs::gone_on))]
    pub fn go_on(&mut self, limit: u64) -> Result<(u64, BreakReason), DebugRefusal>
        ensures alone { self.new ≡ record self.old { machine = self.new.machine; left = self.new.left } }
        ensures gone { IfOk result (λ r. gone_on self.old.breaks self.old.left limit self.old.machine.state
            ≡ Some (record { steps = r.0; reason = r.1; machine = self.new.machine.state })) }
        ensures left { OnOk result (self.new.left
            ≡ left_on self.old.breaks self.old.left limit self.old.machine.state) }
        ensures refusal { IfErr result (λ refusal. StopsShort refusal limit self.old self.new) }
    {
        match self.last_run {
            LastRun::Over | LastRun::AtBreak(..) => Err(DebugRefusal::NothingLeft),
            LastRun::AtLimit(depth, made) => {
                let most = limit.min(u64::MAX - made);
                let machine = &mut self.machine;
                let ran = run(machine, &self.breaks, &self.watched, depth, made, most)?;
                self.last_run = last_run(depth, ran);
                Ok(ran)
            }
        }
    }

    /// Passes over the breakpoint that stopped the last run, and uses one pass. The run continues as if this breakpoint
    /// had not stopped it, up to `most` steps of the whole run, and stops at the next breakpoint. If the machine is at
    /// the destination of the run, no step is executed.
    ///
    /// Returns `None` and changes nothing if no breakpoint stopped the last run or if no pass remains. After
    /// `AllocError` the machine is in the state after the steps that succeeded.
    #[tactic(auto, unfolding(crate::specs::Passes::passed))]
    pub fn pass(&mut self, most: u64) -> Result<Option<(u64, BreakReason)>, AllocError>
        ensures alone { self.new ≡ record self.old {
          machine = self.new.machine;
          left = self.new.left;
          passes = self.new.passes;
        } }
        ensures gone { IfOk result (λ found. IfSome found (λ r.
            passed self.old.breaks self.old.passes self.old.left most self.old.machine.state
            ≡ Some (record { steps = r.0; reason = r.1; machine = self.new.machine.state }))) }
        ensures left { IfOk result (λ found. IfSome found (λ r.
            self.new.left ≡ left_past self.old.breaks self.old.left most self.old.machine.state)) }
        ensures passes { IfOk result (λ found. IfSome found (λ r. self.old.passes ≡ self.new.passes + 1)) }
        ensures none { IfOk result (λ found. IfNone found
            (passed self.old.breaks self.old.passes self.old.left most self.old.machine.state ≡ None)) }
        ensures same { IfOk result (λ found. IfNone found (self.new ≡ self.old)) }
        ensures err { OnErr result (GaveUpPast self.old.breaks self.old.left most self.old.machine self.new.machine) }
    {
        let LastRun::AtBreak(depth, made) = self.last_run else {
            return Ok(None);
        };
        if self.passes == 0 {
            return Ok(None);
        }
        self.passes -= 1;
        let machine = &mut self.machine;
        let ran = run_past(machine, &self.breaks, &self.watched, depth, made, most)?;
        self.last_run = last_run(depth, ran);
        Ok(Some(ran))
    }

    /// Returns at most `n` words of the stack, from SP up. No word is at 65,504 or higher. If `n` is 0, no memory is
    /// needed.
    #[tactic(auto, unfolding(crate::specs::Views::stack_words))]
    pub fn stack(&self, alloc: Global, n: u16) -> Result<Vec<u16>, AllocError>
        ensures words { IfOk result (λ words. words.items ≡ stack_words self.now.machine.state n) }
        ensures wanted { OnErr result (0 < n) }
    {
        let sp = self.machine.registers().sp;
        let count = n.min((STACK_END - sp) / 2);
        let words = words_at(alloc, self.machine.memory(), sp, count)?;
        Ok(words)
    }

    /// Returns the addresses of at most `limit` frames. The first is MP, and each static link leads to the next one. If
    /// the chain reaches the system's frame at 65,492, this frame is the last. If `limit` is 0, no memory is needed.
    ///
    /// # Errors
    ///
    /// - `OddAddress`: the link of a frame at an odd address is needed.
    /// - `NoMemory`: out of memory.
    pub fn static_chain(&self, alloc: Global, limit: u16) -> Result<Vec<u16>, DebugRefusal>
        ensures frames { ShowsChain (λ frames. frames.items) result (static_chain self.now.machine.state limit) }
        ensures wanted { OnErr result (0 < limit) }
    {
        let frame = self.machine.registers().mp;
        chain(alloc, self.machine.memory(), STATIC_LINK, limit, frame)
    }

    /// Returns the addresses of at most `limit` frames. The first is MP, and each dynamic link leads to the next one.
    /// The last frame and the errors are those of `static_chain`.
    pub fn dynamic_chain(&self, alloc: Global, limit: u16) -> Result<Vec<u16>, DebugRefusal>
        ensures frames { ShowsChain (λ frames. frames.items) result (dynamic_chain self.now.machine.state limit) }
        ensures wanted { OnErr result (0 < limit) }
    {
        let frame = self.machine.registers().mp;
        chain(alloc, self.machine.memory(), DYNAMIC_LINK, limit, frame)
    }

    /// Returns variable number `b` of the procedure that is `depth` static links up. The running procedure has `depth`
    /// 0. The call changes nothing.
    ///
    /// # Errors
    ///
    /// - `TooDeep`: `depth` is above 127. This is checked before anything is read.
    /// - `OddAddress`: a link or the variable is at an odd address.
    #[tactic(auto, unfolding(crate::specs::Views::local))]
    pub fn local(&mut self, depth: u16, b: u16) -> Result<u16, DebugRefusal>
        ensures word { result ≡ or_refused (local self.old.machine.state depth b) }
        ensures same { self.new ≡ self.old }
    {
        let frame = match self.machine.link(depth) {
            Ok(frame) => frame,
            Err(error) => return Err(refusal_of(error)),
        };
        let address = frame.wrapping_add(10).wrapping_add(b.wrapping_mul(2));
        match self.machine.memory().word(address) {
            Some(word) => Ok(word),
            None => Err(DebugRefusal::OddAddress),
        }
    }

    /// Returns at most `n` words from the even address `address` on. No word is above 65,534. If `n` is 0, no memory is
    /// needed.
    ///
    /// # Errors
    ///
    /// - `OddAddress`: the address is odd.
    /// - `NoMemory`: out of memory.
    #[tactic(auto, unfolding(crate::specs::Views::words_from))]
    pub fn words(&self, alloc: Global, address: u16, n: u16) -> Result<Vec<u16>, DebugRefusal>
        ensures words { ShowsChain (λ words. words.items) result (words_from self.now.machine.state address n) }
        ensures wanted { IfErr result (λ refusal. refusal ≡ DebugRefusal.NoMemory → 0 < n) }
    {
        if address % 2 != 0 {
            return Err(DebugRefusal::OddAddress);
        }
        let count = n.min(32768 - address / 2);
        let words = words_at(alloc, self.machine.memory(), address, count)?;
        Ok(words)
    }

    /// Returns at most `n` bytes from `address` on. No byte is above 65,535.
    #[tactic(auto, unfolding(pm_words::specs::Words::bytes_at), using(std::proofs::lemmas::List::take_min))]
    pub fn bytes(&self, address: u16, n: u16) -> &[u8]
        ensures bytes { result.now ≡ bytes_from self.now.machine.state address n }
    {
        let bytes = &self.machine.memory().bytes()[address as usize..];
        &bytes[..(n as usize).min(bytes.len())]
    }

    /// Returns the last `n` bytes of the console output, or the whole output if it is shorter.
    #[tactic(auto, unfolding(crate::specs::Views::console_end))]
    pub fn console(&self, n: u16) -> &[u8]
        ensures bytes { result.now ≡ console_end self.now.machine.state n }
    {
        let console = self.machine.console();
        &console[console.len().saturating_sub(n as usize)..]
    }

    /// Returns the position of the machine in the code, or `None` if SEG or JTAB is odd.
    pub fn place_in_code(&self) -> Option<CodePlace>
        ensures place { result ≡ place_in_code self.now.machine.state }
    {
        place_in_code(&self.machine)
    }

    /// Returns the breakpoints in the order in which their spots were first set.
    pub fn breaks(&self) -> &[Breakpoint]
        ensures breaks { result.now ≡ self.now.breaks }
    {
        self.breaks.as_slice()
    }

    /// Returns the addresses of the watched words in the order in which they were added.
    pub fn watches(&self) -> &[u16]
        ensures watches { result.now ≡ self.now.watches }
    {
        self.watches.as_slice()
    }

    /// Returns the number of passes: how many breakpoints runs may still pass over.
    pub fn passes(&self) -> u32
        ensures passes { result ≡ self.now.passes }
    {
        self.passes
    }

    /// Returns the number of steps of the last run if its limit or a breakpoint stopped it. Otherwise returns 0.
    pub fn made(&self) -> u64
        ensures made { result ≡ made_of self.now.left }
    {
        match self.last_run {
            LastRun::Over => 0,
            LastRun::AtLimit(_, made) | LastRun::AtBreak(_, made) => made,
        }
    }

    /// Whether a session shows what its commands add to the console.
    pub fn shows_console(&self) -> bool
        ensures shows { result ≡ self.now.shows_console }
    {
        self.shows_console
    }

    /// Returns at most `limit` frames, in the order of `dynamic_chain`. Each frame has the position to which it
    /// returns. If `limit` is 0, no memory is needed.
    ///
    /// # Errors
    ///
    /// - `OddAddress`: a frame, or the SEG or JTAB that it contains, is odd.
    /// - `NoMemory`: out of memory.
    pub fn frames(&self, alloc: Global, limit: u16) -> Result<Vec<Frame>, DebugRefusal>
        ensures frames { ShowsChain (λ frames. frames.items) result (frames self.now.machine.state limit) }
        ensures wanted { OnErr result (0 < limit) }
    {
        let frame = self.machine.registers().mp;
        frames(alloc, self.machine.memory(), limit, frame)
    }

    /// Returns the addresses of at most `limit` consecutive instructions, the first of which is at IPC. No address is
    /// above 65,535. A byte that begins no instruction counts as one. If `limit` is 0, no memory is needed.
    pub fn addresses_ahead(&self, alloc: Global, limit: u16) -> Result<Vec<u16>, AllocError>
        ensures addresses { IfOk result (λ addresses.
            addresses.items ≡ addresses_ahead self.now.machine.state limit) }
        ensures wanted { OnErr result (0 < limit) }
    {
        let ipc = self.machine.registers().ipc;
        addresses_from(alloc, self.machine.memory(), limit, ipc)
    }
}

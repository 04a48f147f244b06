//! The commands of the debugger. A word of a line is a sequence of bytes without spaces.
ghost use Rattle.std.specs.Prelude.{◌≡◌, ◌<◌, ◌≤◌, ◌⊎◌, min, true, [], ◌∷◌, Some, None, IfSome, IfNone, length};
ghost use Rattle.std.specs.Char.{is_ascii_hexdigit};
ghost use Rattle.std.specs.List.{list_all};
ghost use Rattle.pm_session.specs.Commands.{conditional_break, command_in, command_of, command_rows, conditional};
ghost use Rattle.pm_session.specs.Commands.{clear_words, clear_words_of, conditional_words, conditional_words_of};
ghost use Rattle.pm_session.specs.Commands.{words_named};
ghost use Rattle.pm_session.specs.Commands.{decimal_number, hexadecimal_number};
ghost use Rattle.pm_notes.specs.Names.{is_digit};
ghost use Rattle.pm_session.specs.Commands.{number_up_to, numbers, setting_in, setting_rows, setting_with, word_number};
ghost use Rattle.std.specs.Str.{bytes_eq};
ghost use Rattle.pm_session.specs.Words.{begins_word, words_of_line, without_return};

use arrayvec::ArrayVec;
use pm_code::magnitude;
use pm_debug::{Condition, Spot};

/// The maximum number of steps of a run.
const MOST_STEPS: u32 = 4_294_967_295;

/// A command of the debugger.
#[derive(Clone, Copy)]
pub enum Command {
    /// Sets a breakpoint. The fields are segment, procedure, offset in bytes, and the condition, if any.
    Break(u8, u8, u16, Option<Condition>),
    /// Removes a breakpoint. The fields are segment, procedure and offset in bytes.
    Clear(u8, u8, u16),
    /// Sets a breakpoint on words. The fields are the words and the condition, if any.
    BreakOn(Spot, Option<Condition>),
    /// Removes a breakpoint on words. The field is the words.
    ClearOn(Spot),
    /// Watches the word of memory at this address.
    Watch(u16),
    /// Stops watching the word of memory at this address.
    Unwatch(u16),
    /// Writes a word of memory. The fields are address and word.
    Poke(u16, u16),
    /// Appends a byte to the console input queue.
    Key(u8),
    /// Sets whether the bytes that each command writes to the console are shown.
    ShowConsole(bool),
    /// Runs at most this number of steps, up to a breakpoint or to a watched word that has changed.
    Go(u32),
    /// Executes one instruction. If it is a call, executes the whole called procedure. The field is the limit of the
    /// steps.
    Step(u32),
    /// Executes the rest of the running procedure and its return. The field is the limit of the steps.
    Finish(u32),
    /// Runs to a position in the code. The fields are segment, procedure, offset in bytes, and the limit of the steps.
    Until(u8, u8, u16, u32),
    /// Continues the last run, which its limit stopped, for at most this number of steps.
    On(u32),
    /// Sets the number of breakpoints that runs may pass over.
    Ignore(u32),
    /// Shows the top words of the stack. The field is the maximum number of words.
    Stack(u16),
    /// Shows the frames along the static links. The field is the maximum number of frames.
    Static(u16),
    /// Shows the frames along the dynamic links. The field is the maximum number of frames.
    Dynamic(u16),
    /// Shows a variable. The fields are the number of static links up and the number of the variable.
    Local(u16, u16),
    /// Shows the registers.
    Registers,
    /// Shows the address of the segment in the slot with this number.
    Place(u8),
    /// Shows the line of a trace for the next step.
    Trace,
    /// Shows another view of the machine or of the debugger.
    Show(View),
    /// Ends the session.
    Quit,
}

/// A view of the machine or of the debugger. To show a view changes nothing.
#[derive(Clone, Copy)]
pub enum View {
    /// Words of the memory. The fields are the first address and the maximum number of words.
    Peek(u16, u16),
    /// Bytes of the memory. The fields are the first address and the maximum number of bytes.
    Bytes(u16, u16),
    /// The position of the machine in the code.
    Where,
    /// The breakpoints, and the number of breakpoints that runs may still pass over.
    Breaks,
    /// The addresses of the watched words.
    Watches,
    /// The frames of the dynamic chain, with the positions to which they return. The field is the maximum number of
    /// frames.
    Frames(u16),
    /// The next instructions. The field is the maximum number of instructions.
    Ahead(u16),
    /// The last bytes of the console output. The field is the maximum number of bytes.
    Console(u16),
    /// The list of the commands.
    Help,
}

/// Whether `word` has the bytes of `text`.
fn is_text(word: &[u8], text: &str) -> bool
    ensures same { result ≡ bytes_eq word.now text.now }
{
    word == text.as_bytes()
}

fn is_digit(byte: u8) -> bool
    ensures digit { result ≡ is_digit byte }
{
    b'0' <= byte && byte <= b'9'
}

/// Returns the number that `word` writes in decimal digits. Returns `None` if `word` has another byte, or if the number
/// is above 4,294,967,295.
fn decimal(word: &[u8]) -> Option<u32>
    ensures number { result ≡ decimal_number word.now }
{
    let mut value: u64 = 0;
    let mut rest = word;
    'digits: while let Some((byte, tail)) = rest.split_first() {
        if !is_digit(*byte) {
            return None;
        }
        value = 10 * value + u64::from(*byte - b'0');
        if value > 4_294_967_295 {
            return None;
        }
        rest = tail;
    }
    Some(value as u32)
}

fn are_hexadecimal(digits: &[u8]) -> bool
    ensures hexadecimal { result ≡ list_all is_ascii_hexdigit digits.now }
{
    digits.iter().all(|digit| digit.is_ascii_hexdigit())
}

/// Returns the number that `digits`, one to four hexadecimal digits, write. Returns `None` for other bytes.
#[tactic(auto, using(pm_code::proofs::Capped::four_digits))]
fn hexadecimal(digits: &[u8]) -> Option<u32>
    ensures number { result ≡ hexadecimal_number digits.now }
{
    if digits.is_empty() || digits.len() > 4 || !are_hexadecimal(digits) {
        return None;
    }
    Some(magnitude(16, digits))
}

/// Returns the number that `word` writes: decimal digits, or `$` and hexadecimal digits. Returns `None` for other
/// words.
fn number(word: &[u8]) -> Option<u32>
    ensures number { result ≡ word_number word.now }
{
    match word {
        [b'$', digits @ ..] => hexadecimal(digits),
        digits => decimal(digits),
    }
}

/// Whether `line` begins with a word. False if it is empty or begins with a space.
fn begins_word(line: &[u8]) -> bool
    ensures begins { result ≡ begins_word line.now }
{
    match line.split_first() {
        Some((byte, _)) => *byte != b' ',
        None => false,
    }
}

/// Returns `line` without its leading spaces.
fn without_spaces(line: &[u8]) -> &[u8]
    ensures words { words_of_line result.now ≡ words_of_line line.now }
    ensures begins { (result.now ≡ []) ⊎ (begins_word result.now ≡ true) }
    ensures shorter { length result.now ≤ length line.now }
{
    let mut rest = line;
    'spaces: while !begins_word(rest) {
        let Some((_, tail)) = rest.split_first() else {
            return rest;
        };
        rest = tail;
    }
    rest
}

/// Returns the first word of `line` and the bytes after this word. `line` must begin with a word.
fn word_and_rest(line: &[u8]) -> (&[u8], &[u8])
    requires begins { begins_word line.now ≡ true }
    ensures words { words_of_line line.now ≡ result.0.now ∷ words_of_line result.1.now }
    ensures shorter { length result.1.now < length line.now }
{
    let mut end = 0;
    let mut rest = line;
    'bytes: while begins_word(rest) {
        let Some((_, tail)) = rest.split_first() else {
            return (line, rest);
        };
        end += 1;
        rest = tail;
    }
    (line.split_at(end).0, rest)
}

/// Returns the first word of `line` and the bytes after this word. Returns `None` if `line` has no word.
fn next_word(line: &[u8]) -> Option<(&[u8], &[u8])>
    ensures some { IfSome result (λ r. words_of_line line.now ≡ r.0.now ∷ words_of_line r.1.now) }
    ensures shorter { IfSome result (λ r. length r.1.now < length line.now) }
    ensures none { IfNone result (words_of_line line.now ≡ []) }
{
    let line = without_spaces(line);
    if line.is_empty() {
        return None;
    }
    Some(word_and_rest(line))
}

/// Returns the numbers that the words of `line` write. Returns `None` if a word is not a number or if `line` has more
/// than four words.
fn numbers(line: &[u8]) -> Option<ArrayVec<u32, 4>>
    ensures some { IfSome result (λ ns. numbers 4 (words_of_line line.now) ≡ Some ns.items) }
    ensures none { IfNone result (numbers 4 (words_of_line line.now) ≡ None) }
{
    let mut numbers = ArrayVec::new();
    let mut rest = line;
    'words: while let Some((word, tail)) = next_word(rest) {
        let Some(number) = number(word) else {
            return None;
        };
        if numbers.len() >= 4 {
            return None;
        }
        numbers.push(number);
        rest = tail;
    }
    Some(numbers)
}

fn byte(n: u32) -> Option<u8>
    ensures byte { result ≡ number_up_to 255 n }
{
    if n <= 255 { Some(n as u8) } else { None }
}

fn word(n: u32) -> Option<u16>
    ensures word { result ≡ number_up_to 65535 n }
{
    if n <= 65535 { Some(n as u16) } else { None }
}

fn slot(n: u32) -> Option<u8>
    ensures slot { result ≡ number_up_to 15 n }
{
    if n <= 15 { Some(n as u8) } else { None }
}

/// Returns the command with the name `name` and no numbers, or `None` if no such command exists.
#[tactic(auto, unfolding(crate::specs::Commands::command_rows))]
fn named_alone(name: &[u8]) -> Option<Command>
    ensures command { result ≡ command_in command_rows name.now [] }
{
    let command = match name {
        _ if is_text(name, "regs") => Command::Registers,
        _ if is_text(name, "trace") => Command::Trace,
        _ if is_text(name, "where") => Command::Show(View::Where),
        _ if is_text(name, "breaks") => Command::Show(View::Breaks),
        _ if is_text(name, "step") => Command::Step(MOST_STEPS),
        _ if is_text(name, "finish") => Command::Finish(MOST_STEPS),
        _ if is_text(name, "watches") => Command::Show(View::Watches),
        _ if is_text(name, "help") => Command::Show(View::Help),
        _ if is_text(name, "quit") => Command::Quit,
        _ => return None,
    };
    Some(command)
}

/// Returns the command with the name `name` and the number `n`, or `None` if no such command exists.
#[tactic(auto, unfolding(crate::specs::Commands::command_rows))]
fn named_with_one(name: &[u8], n: u32) -> Option<Command>
    ensures command { result ≡ command_in command_rows name.now (n ∷ []) }
{
    let command = match name {
        _ if is_text(name, "key") => Command::Key(byte(n)?),
        _ if is_text(name, "go") => Command::Go(n),
        _ if is_text(name, "step") => Command::Step(n),
        _ if is_text(name, "finish") => Command::Finish(n),
        _ if is_text(name, "on") => Command::On(n),
        _ if is_text(name, "ignore") => Command::Ignore(n),
        _ if is_text(name, "stack") => Command::Stack(word(n)?),
        _ if is_text(name, "static") => Command::Static(word(n)?),
        _ if is_text(name, "dynamic") => Command::Dynamic(word(n)?),
        _ if is_text(name, "place") => Command::Place(slot(n)?),
        _ if is_text(name, "frames") => Command::Show(View::Frames(word(n)?)),
        _ if is_text(name, "list") => Command::Show(View::Ahead(word(n)?)),
        _ if is_text(name, "console") => Command::Show(View::Console(word(n)?)),
        _ if is_text(name, "watch") => Command::Watch(word(n)?),
        _ if is_text(name, "unwatch") => Command::Unwatch(word(n)?),
        _ => return None,
    };
    Some(command)
}

/// Returns the spot of `reads` or `writes`: `words` words from `address` on. Returns `None` for another `name`.
fn words_named(name: &[u8], address: u16, words: u16) -> Option<Spot>
    ensures spot { result ≡ words_named name.now address words }
{
    match name {
        _ if is_text(name, "reads") => Some(Spot::Reads { address, words }),
        _ if is_text(name, "writes") => Some(Spot::Writes { address, words }),
        _ => None,
    }
}

/// Returns the command with the name `name` and the numbers `a` and `n`, or `None` if no such command exists.
#[tactic(auto, unfolding(crate::specs::Commands::command_rows))]
fn named_with_two(name: &[u8], a: u32, n: u32) -> Option<Command>
    ensures command { result ≡ command_in command_rows name.now (a ∷ n ∷ []) }
{
    let command = match name {
        _ if is_text(name, "poke") => Command::Poke(word(a)?, word(n)?),
        _ if is_text(name, "local") => Command::Local(word(a)?, word(n)?),
        _ if is_text(name, "peek") => Command::Show(View::Peek(word(a)?, word(n)?)),
        _ if is_text(name, "bytes") => Command::Show(View::Bytes(word(a)?, word(n)?)),
        _ => Command::BreakOn(words_named(name, word(a)?, word(n)?)?, None),
    };
    Some(command)
}

/// Returns the command with the name `name` and the numbers `s`, `p` and `o`, or `None` if no such command exists.
#[tactic(auto, unfolding(crate::specs::Commands::command_rows))]
fn named_with_three(name: &[u8], s: u32, p: u32, o: u32) -> Option<Command>
    ensures command { result ≡ command_in command_rows name.now (s ∷ p ∷ o ∷ []) }
{
    let command = match name {
        _ if is_text(name, "break") => Command::Break(byte(s)?, byte(p)?, word(o)?, None),
        _ if is_text(name, "clear") => Command::Clear(byte(s)?, byte(p)?, word(o)?),
        _ if is_text(name, "until") => Command::Until(byte(s)?, byte(p)?, word(o)?, MOST_STEPS),
        _ => return None,
    };
    Some(command)
}

/// Returns the command with the name `name` and the numbers `s`, `p`, `o` and `n`, or `None` if no such command exists.
#[tactic(auto, unfolding(crate::specs::Commands::command_rows))]
fn named_with_four(name: &[u8], s: u32, p: u32, o: u32, n: u32) -> Option<Command>
    ensures command { result ≡ command_in command_rows name.now (s ∷ p ∷ o ∷ n ∷ []) }
{
    if !is_text(name, "until") {
        return None;
    }
    Some(Command::Until(byte(s)?, byte(p)?, word(o)?, n))
}

/// Returns the command with the name `name` and the given `numbers`, at most four. Returns `None` if no such command
/// exists.
fn command_named(name: &[u8], numbers: &[u32]) -> Option<Command>
    requires few { length numbers.now ≤ 4 }
    ensures command { result ≡ command_in command_rows name.now numbers.now }
{
    match numbers {
        [] => named_alone(name),
        [n] => named_with_one(name, *n),
        [a, n] => named_with_two(name, *a, *n),
        [s, p, o] => named_with_three(name, *s, *p, *o),
        [s, p, o, n] => named_with_four(name, *s, *p, *o, *n),
        _ => None,
    }
}

/// Returns the command with the name `name` and the word `value` after it, such as `console on`. Returns `None` if no
/// such command exists.
#[tactic(auto, unfolding(crate::specs::Commands::setting_rows))]
fn setting_named(name: &[u8], value: &[u8]) -> Option<Command>
    ensures command { result ≡ setting_in setting_rows name.now value.now }
{
    if !is_text(name, "console") {
        return None;
    }
    if is_text(value, "on") {
        return Some(Command::ShowConsole(true));
    }
    if is_text(value, "off") {
        return Some(Command::ShowConsole(false));
    }
    None
}

/// Returns the command with the name `name` and the word in `line`, as `setting_named` does. Returns `None` if `line`
/// does not have exactly one word.
fn setting(name: &[u8], line: &[u8]) -> Option<Command>
    ensures command { result ≡ setting_with name.now (words_of_line line.now) }
{
    let (value, rest) = next_word(line)?;
    match next_word(rest) {
        None => setting_named(name, value),
        Some(_) => None,
    }
}

/// Returns the command that sets a breakpoint with a condition. The numbers are the segment `s`, the procedure `p`, the
/// offset `o`, the address `a` of the condition, and its word `w`. Returns `None` if a number is out of range.
fn conditional_break(s: u32, p: u32, o: u32, a: u32, w: u32) -> Option<Command>
    ensures command { result ≡ conditional_break (Some s) (Some p) (Some o) (Some a) (Some w) }
{
    let (segment, procedure, offset) = (byte(s)?, byte(p)?, word(o)?);
    let condition = Condition {
        address: word(a)?,
        word: word(w)?,
    };
    Some(Command::Break(segment, procedure, offset, Some(condition)))
}

/// Returns the command for `line`, the part of a line after `break`. Returns `None` unless `line` is `S P O if A = W`.
fn conditional(line: &[u8]) -> Option<Command>
    ensures command { result ≡ conditional (words_of_line line.now) }
{
    let (s, rest) = next_word(line)?;
    let (p, rest) = next_word(rest)?;
    let (o, rest) = next_word(rest)?;
    let (mark, rest) = next_word(rest)?;
    let (a, rest) = next_word(rest)?;
    let (sign, rest) = next_word(rest)?;
    let (w, rest) = next_word(rest)?;
    match next_word(rest) {
        None if is_text(mark, "if") && is_text(sign, "=") => {
            conditional_break(number(s)?, number(p)?, number(o)?, number(a)?, number(w)?)
        }
        _ => None,
    }
}

/// Returns the command that sets a breakpoint on words with a condition. The numbers are the address `a` of the first
/// word, the number `n` of words, the address `b` of the condition, and its word `value`. Returns `None` if a number is
/// out of range, or if `name` is neither `reads` nor `writes`.
fn conditional_words_of(name: &[u8], a: u32, n: u32, b: u32, value: u32) -> Option<Command>
    ensures command { result ≡ conditional_words_of name.now (Some a) (Some n) (Some b) (Some value) }
{
    let (address, words) = (word(a)?, word(n)?);
    let condition = Condition {
        address: word(b)?,
        word: word(value)?,
    };
    let spot = words_named(name, address, words)?;
    Some(Command::BreakOn(spot, Some(condition)))
}

/// Returns the command for `line`, the part of a line after `name`, which is `reads` or `writes`. Returns `None` unless
/// `line` is `A N if B = W`.
fn conditional_words(name: &[u8], line: &[u8]) -> Option<Command>
    ensures command { result ≡ conditional_words name.now (words_of_line line.now) }
{
    let (a, rest) = next_word(line)?;
    let (n, rest) = next_word(rest)?;
    let (keyword, rest) = next_word(rest)?;
    let (b, rest) = next_word(rest)?;
    let (equals, rest) = next_word(rest)?;
    let (value, rest) = next_word(rest)?;
    match next_word(rest) {
        None if is_text(keyword, "if") && is_text(equals, "=") => {
            conditional_words_of(name, number(a)?, number(n)?, number(b)?, number(value)?)
        }
        _ => None,
    }
}

/// Returns the command that removes a breakpoint on the `n` words from address `a` on. Returns `None` if a number is
/// out of range, or if `name` is neither `reads` nor `writes`.
fn clear_words_of(name: &[u8], a: u32, n: u32) -> Option<Command>
    ensures command { result ≡ clear_words_of name.now (Some a) (Some n) }
{
    let (address, words) = (word(a)?, word(n)?);
    Some(Command::ClearOn(words_named(name, address, words)?))
}

/// Returns the command for `line`, the part of a line after `clear`. Returns `None` unless `line` is `reads A N` or
/// `writes A N`.
fn clear_words(line: &[u8]) -> Option<Command>
    ensures command { result ≡ clear_words (words_of_line line.now) }
{
    let (name, rest) = next_word(line)?;
    let (a, rest) = next_word(rest)?;
    let (n, rest) = next_word(rest)?;
    match next_word(rest) {
        None => clear_words_of(name, number(a)?, number(n)?),
        _ => None,
    }
}

/// Returns `line` without a carriage return at its end.
pub(crate) fn without_return(line: &[u8]) -> &[u8]
    ensures line { result.now ≡ without_return line.now }
{
    let Some((last, front)) = line.split_last() else {
        return line;
    };
    if *last == b'\r' { front } else { line }
}

/// Returns the command in `line`, which is given without its line feed. Returns `None` if `line` is not a valid
/// command.
#[tactic(auto, unfolding(crate::specs::Commands::command_of))]
pub fn command_of(line: &[u8]) -> Option<Command>
    ensures command { result ≡ command_of line.now }
{
    let (name, rest) = next_word(without_return(line))?;
    match numbers(rest) {
        Some(numbers) => command_named(name, &numbers),
        None if is_text(name, "break") => conditional(rest),
        None if is_text(name, "reads") || is_text(name, "writes") => conditional_words(name, rest),
        None if is_text(name, "clear") => clear_words(rest),
        None => setting(name, rest),
    }
}

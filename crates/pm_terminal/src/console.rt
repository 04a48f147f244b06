//! Standard input and output on a terminal: prompts, the key that ends the input, and control characters.
ghost use Rattle.std.specs.Prelude.{◌≡◌, map};
ghost use Rattle.std.specs.Io.{ReadsAtMost, WritesAtMost};
ghost use Rattle.pm_terminal.specs.Console.{shown_byte, typed_byte};

use std::alloc::Global;
use std::io;
use std::io::{Read, Write};

/// The byte of Ctrl-D, which ends the input from a terminal that delivers each key at once.
pub const END: u8 = 4;

/// The byte of Ctrl-], which ends the input if Ctrl-D is passed to the program.
pub const ESCAPE: u8 = 29;

/// A reader that prints a prompt on standard error, either before the first byte of each line or only once.
#[derive(Drop)]
pub struct Prompted<'a, E, R> {
    rt: &'a E,
    inner: R,
    prompt: &'a str,
    /// Whether a prompt is printed before each line.
    repeats: bool,
    /// Whether a prompt must be printed before the next read.
    due: bool,
}

impl<'a, E: Eprint, R: Read> Prompted<'a, E, R> {
    /// Returns a reader that prints `prompt` before each line.
    pub fn each_line(rt: &'a E, inner: R, prompt: &'a str) -> Prompted<'a, E, R> {
        Prompted {
            rt,
            inner,
            prompt,
            repeats: true,
            due: true,
        }
    }

    /// Returns a reader that prints `prompt` once. It prints nothing if `prompt` is empty.
    pub fn once(rt: &'a E, inner: R, prompt: &'a str) -> Prompted<'a, E, R> {
        Prompted {
            rt,
            inner,
            prompt,
            repeats: false,
            due: !prompt.is_empty(),
        }
    }
}

impl<E: Eprint, R: Read> Read for Prompted<'_, E, R> {
    ghost remaining = { λ s. R.remaining s.inner };

    fn read(&mut self, buf: &mut [u8]) -> io::Result<usize> {
        if self.due {
            let _ = self.rt.eprint(self.prompt);
            self.due = false;
        }
        let count = self.inner.read(buf)?;
        if let Some(last) = buf[..count].last() {
            self.due = self.repeats && *last == b'\n';
        }
        Ok(count)
    }
}

/// A reader that, on a terminal, returns the end of the input when it reads the byte `end`. Later reads can return
/// further bytes.
#[derive(Drop)]
pub struct Keys<R> {
    inner: R,
    is_terminal: bool,
    end: u8,
}

impl<R: Read> Keys<R> {
    /// Returns a reader of `inner`. `is_terminal` states whether `inner` is a terminal. `end` is the byte that ends the
    /// input of a terminal.
    pub fn new(inner: R, is_terminal: bool, end: u8) -> Keys<R> {
        Keys {
            inner,
            is_terminal,
            end,
        }
    }

    /// Reads one byte of a terminal into `buf`, and returns the number of bytes read. It reads only one byte, so that
    /// no byte after `end` is read. Returns 0 at the end of the input.
    fn key(&mut self, buf: &mut [u8]) -> io::Result<usize>
        ensures bound { ReadsAtMost result buf.new }
    {
        let Some(place) = buf.first_mut() else {
            return Ok(0);
        };
        let mut byte = [0; 1];
        let count = self.inner.read(&mut byte)?;
        if count == 0 || byte[0] == self.end {
            return Ok(0);
        }
        *place = byte[0];
        Ok(1)
    }
}

impl<R: Read> Read for Keys<R> {
    fn read(&mut self, buf: &mut [u8]) -> io::Result<usize> {
        if self.is_terminal {
            self.key(buf)
        } else {
            self.inner.read(buf)
        }
    }
}

/// Returns the byte that a program reads if the input has `byte`: a carriage return for a line feed.
#[tactic(auto, unfolding(crate::specs::Console::typed_byte))]
fn typed_byte(byte: u8) -> u8
    ensures value { result ≡ typed_byte byte }
{
    if byte == b'\n' { b'\r' } else { byte }
}

/// Replaces each line feed in `bytes` by a carriage return, the byte of the key Return.
fn type_returns(bytes: &mut [u8])
    ensures bytes { bytes.new ≡ map typed_byte bytes.old }
{
    for byte in bytes.iter_mut() {
        *byte = typed_byte(*byte);
    }
}

/// A reader of the console input of a run. With `--text` (`is_text`), a program reads the key Return (byte 13) where
/// the inner reader has a line feed. The reader also records which of these two bytes it has read.
#[derive(Drop)]
pub struct Typed<R> {
    inner: R,
    is_text: bool,
    has_feed: bool,
    has_return: bool,
}

impl<R: Read> Typed<R> {
    /// Returns a reader of `inner` that has read nothing.
    pub fn new(inner: R, is_text: bool) -> Typed<R> {
        Typed {
            inner,
            is_text,
            has_feed: false,
            has_return: false,
        }
    }

    /// Returns whether a line feed was read, and no carriage return.
    pub fn has_only_feeds(&self) -> bool {
        self.has_feed && !self.has_return
    }
}

impl<R: Read> Read for Typed<R> {
    fn read(&mut self, buf: &mut [u8]) -> io::Result<usize> {
        let count = self.inner.read(buf)?;
        let read = &mut buf[..count];
        self.has_feed = self.has_feed || read.contains(&b'\n');
        self.has_return = self.has_return || read.contains(&b'\r');
        if self.is_text {
            type_returns(read);
        }
        Ok(count)
    }
}

/// How a writer changes the bytes that it writes.
#[derive(Clone, Copy, PartialEq, Eq)]
pub enum Lines {
    /// Writes the bytes unchanged.
    Plain,
    /// Writes a line feed after each carriage return.
    Added,
    /// Writes only bytes that a text can contain, and fails at the first other byte.
    TextAlone,
    /// Writes `?` instead of each control character, except tab, line feed and carriage return.
    Shown,
    /// Collects the bytes, and writes up to 65,536 of them at a time.
    Paged,
    /// Writes a line feed instead of each carriage return.
    Feeds,
}

/// The number of bytes for which a `Paged` writer has memory.
const PAGE: usize = 65536;

/// The maximum number of bytes that a `Feeds` writer writes at a time.
const PIECE: usize = 512;

/// Returns the byte that is written if a program writes `byte`: a line feed for a carriage return.
#[tactic(auto, unfolding(crate::specs::Console::shown_byte))]
fn shown_byte(byte: u8) -> u8
    ensures value { result ≡ shown_byte byte }
{
    if byte == b'\r' { b'\n' } else { byte }
}

/// Replaces each carriage return in `bytes` by a line feed.
fn end_lines(bytes: &mut [u8])
    ensures bytes { bytes.new ≡ map shown_byte bytes.old }
{
    for byte in bytes.iter_mut() {
        *byte = shown_byte(*byte);
    }
}

/// The reason why a writer failed.
#[derive(Clone, Copy, PartialEq, Eq)]
pub enum Failed {
    /// The reader of the output, such as `head`, has closed it.
    Closed,
    /// A text cannot contain one of the bytes.
    NoText,
}

/// Returns whether a text cannot contain `byte`. These bytes are the control characters except backspace, tab, line
/// feed, vertical tab, form feed and carriage return.
fn is_binary(byte: u8) -> bool {
    byte < 8 || (14..32).contains(&byte) || byte == 127
}

/// Returns whether a terminal can interpret `byte` as the start of a command, such as a command that sets its title.
/// These bytes are the control characters except tab, line feed and carriage return. Bytes from 128 to 159 are control
/// characters.
fn is_control(byte: u8) -> bool {
    byte < 9 || (11..13).contains(&byte) || (14..32).contains(&byte) || (127..160).contains(&byte)
}

/// A writer that adapts bytes for a terminal, and records whether the last line is unfinished.
#[derive(Drop)]
pub struct Lined<W> {
    inner: W,
    lines: Lines,
    begun: bool,
    /// Whether a byte was written.
    has_written: bool,
    /// Whether a `?` was written instead of a control character.
    has_replaced: bool,
    failed: Option<Failed>,
    /// The collected bytes that are not written yet. Its capacity is a page, or 0 if nothing is collected.
    page: Vec<u8>,
}

impl<W: Write> Lined<W> {
    /// Returns a writer to `inner` that changes the bytes as `lines` states. If memory for a page is refused, the
    /// writer collects no bytes.
    pub fn new(alloc: Global, inner: W, lines: Lines) -> Lined<W> {
        let page = match lines {
            Lines::Paged => Vec::with_capacity(alloc, PAGE).unwrap_or(Vec::new(alloc)),
            _ => Vec::new(alloc),
        };
        Lined {
            inner,
            lines,
            begun: false,
            has_written: false,
            has_replaced: false,
            failed: None,
            page,
        }
    }

    /// Writes the collected bytes.
    pub fn finish(&mut self) -> io::Result<()> {
        if self.page.is_empty() {
            return Ok(());
        }
        let written = self.inner.write_all(&self.page);
        self.page.clear();
        self.note(&written);
        written
    }

    /// Records the reason if `written` is an error.
    fn note<T>(&mut self, written: &io::Result<T>) {
        if let Err(error) = written {
            if error.kind() == io::ErrorKind::BrokenPipe {
                self.failed = Some(Failed::Closed);
            }
        }
    }

    /// Collects the bytes `buf`. If the remaining capacity is too small, it first writes the collected bytes.
    fn write_paged(&mut self, buf: &[u8]) -> io::Result<usize>
        ensures bound { WritesAtMost result buf.now }
    {
        if buf.len() > self.page.capacity() - self.page.len() {
            self.inner.write_all(&self.page)?;
            self.page.clear();
        }
        if buf.len() > self.page.capacity() || self.page.extend_from_slice(buf).is_err() {
            return self.inner.write(buf);
        }
        Ok(buf.len())
    }

    /// Returns the reason why the writer failed. Returns `None` if it has not failed, or if the reason is not recorded.
    pub fn failed(&self) -> Option<Failed> {
        self.failed
    }

    /// Returns whether a byte was written.
    pub fn has_written(&self) -> bool {
        self.has_written
    }

    /// Returns whether a `?` was written instead of a control character.
    pub fn has_replaced(&self) -> bool {
        self.has_replaced
    }

    /// Returns whether the last line is unfinished. It is finished if the last byte written is a line feed, or a
    /// carriage return after which the writer added a line feed.
    pub fn has_begun(&self) -> bool {
        self.begun
    }

    /// Writes `buf` if a text can contain all its bytes. Fails with `InvalidData` otherwise.
    fn write_text(&mut self, buf: &[u8]) -> io::Result<usize>
        ensures bound { WritesAtMost result buf.now }
    {
        if buf.iter().any(|byte| is_binary(*byte)) {
            self.failed = Some(Failed::NoText);
            return Err(io::ErrorKind::InvalidData.into());
        }
        self.inner.write(buf)
    }

    /// Writes `buf` as `self.lines` states.
    fn write_some(&mut self, buf: &[u8]) -> io::Result<usize>
        ensures bound { WritesAtMost result buf.now }
    {
        match self.lines {
            Lines::Plain => self.inner.write(buf),
            Lines::Added => self.write_lines(buf),
            Lines::TextAlone => self.write_text(buf),
            Lines::Shown => self.write_shown(buf),
            Lines::Paged => self.write_paged(buf),
            Lines::Feeds => self.write_feeds(buf),
        }
    }

    /// Writes at most `PIECE` bytes of `buf`, with a line feed instead of each carriage return.
    fn write_feeds(&mut self, buf: &[u8]) -> io::Result<usize>
        ensures bound { WritesAtMost result buf.now }
    {
        let mut bytes = [0; PIECE];
        let count = buf.len().min(PIECE);
        let piece = &mut bytes[..count];
        piece.copy_from_slice(&buf[..count]);
        end_lines(piece);
        self.inner.write(piece)
    }

    /// Writes the bytes of `buf` before the first control character. If `buf` begins with a control character, writes
    /// `?` instead of that character.
    fn write_shown(&mut self, buf: &[u8]) -> io::Result<usize>
        ensures bound { WritesAtMost result buf.now }
    {
        let Some(place) = buf.iter().position(|byte| is_control(*byte)) else {
            return self.inner.write(buf);
        };
        if place > 0 {
            return self.inner.write(&buf[..place]);
        }
        self.inner.write_all(b"?")?;
        self.has_replaced = true;
        Ok(1)
    }

    /// Writes the bytes of `buf` before the first carriage return. If `buf` begins with a carriage return, writes a
    /// carriage return and a line feed.
    fn write_lines(&mut self, buf: &[u8]) -> io::Result<usize>
        ensures bound { WritesAtMost result buf.now }
    {
        let Some(place) = buf.iter().position(|byte| *byte == b'\r') else {
            return self.inner.write(buf);
        };
        if place > 0 {
            return self.inner.write(&buf[..place]);
        }
        self.inner.write_all(b"\r\n")?;
        Ok(1)
    }
}

impl<W: Write> Write for Lined<W> {
    fn write(&mut self, buf: &[u8]) -> io::Result<usize> {
        let written = self.write_some(buf);
        self.note(&written);
        if let Ok(count) = written {
            if let Some(last) = buf[..count].last() {
                let ends = matches!(self.lines, Lines::Added | Lines::Feeds) && *last == b'\r';
                self.begun = *last != b'\n' && !ends;
                self.has_written = true;
            }
        }
        written
    }

    fn flush(&mut self) -> io::Result<()> {
        self.inner.flush()
    }
}

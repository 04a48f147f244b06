//! Cases of images: a session of commands and changes on one image, which can contain any bytes.
use crate::case::{Came, Case, Line, MOST_SHOWN};
use crate::code_file::damage;
use crate::files::{command, two};
use crate::jobs::{Ran, do_job};
use pm_tool::Job;
use std::alloc::Global;
use std::io;
use test_parts::{digest_text, hex_bytes, measured, name, number, set_byte, unreadable, word};

/// An image, the remembered image (`kept`), and the volume that was salvaged last (`saved`).
#[derive(Drop)]
pub struct Session {
    alloc: Global,
    pub image: Vec<u8>,
    kept: Vec<u8>,
    saved: Vec<u8>,
    /// The maximum number of lines of a text that are answered unabridged.
    most: usize,
    /// The bytes of the content `program`.
    program: Vec<u8>,
    came: Came,
}

impl Session {
    /// Returns a session without an image. Texts of up to `most` lines are answered unabridged.
    pub fn new(alloc: Global, most: usize, program: Vec<u8>) -> Session {
        Session {
            alloc,
            image: Vec::new(alloc),
            kept: Vec::new(alloc),
            saved: Vec::new(alloc),
            most,
            program,
            came: Came::new(alloc),
        }
    }

    /// Stores the image of `ran`, the result of a command that changes the image, and adds its answers.
    fn add(&mut self, ran: Ran) -> io::Result<()> {
        if ran.is_refused() {
            self.came.answer("<", ran.outcome.text())?;
            return Ok(());
        }
        self.image = self.made(ran)?;
        Ok(())
    }

    /// Adds the digest of the image that a job made, and returns the image.
    fn made(&mut self, ran: Ran) -> io::Result<Vec<u8>> {
        let image = ran.into_image()?;
        let digest = digest_text(self.alloc, &image)?;
        self.came.answer("< ok", digest.as_str())?;
        Ok(image)
    }

    /// Adds the bytes of the file that `ran` wrote as an answer.
    fn add_file(&mut self, ran: &Ran) -> io::Result<()> {
        let bytes = ran.written.as_slice();
        let line = if ran.is_refused() {
            String::from_str(self.alloc, ran.outcome.text())?
        } else if bytes.len() > MOST_SHOWN {
            let (count, digest) = (bytes.len(), digest_text(self.alloc, bytes)?);
            format!(in self.alloc; "{count} bytes {digest}")?
        } else if bytes.is_empty() {
            String::from_str(self.alloc, "hex")?
        } else {
            let digits = hex::encode(self.alloc, bytes)?;
            format!(in self.alloc; "hex {digits}")?
        };
        self.came.answer("<", line.as_str())?;
        Ok(())
    }

    /// Adds the output about the image, and the refusal if the job was refused. If the output has more than `most`
    /// lines, adds their number and digest instead.
    fn add_told(&mut self, ran: &Ran) -> io::Result<()> {
        let text = ran.text(self.alloc)?;
        let count = text.as_str().lines().count();
        if count > self.most {
            let digest = digest_text(self.alloc, &ran.written)?;
            let line = format!(in self.alloc; "{count} lines {digest}")?;
            self.came.answer("<", line.as_str())?;
        } else {
            for line in text.as_str().lines() {
                self.came.answer("<", line)?;
            }
        }
        if ran.is_refused() {
            self.came.answer("<", ran.outcome.text())?;
        }
        Ok(())
    }

    /// Runs the command of a line.
    fn command(&mut self, line: Line<'_>, image: Vec<u8>) -> io::Result<()> {
        let (command, input) = command(self.alloc, line, &self.program)?;
        let ran = do_job(self.alloc, Job::Files { image, command }, &input);
        match line.word {
            "list" => self.add_told(&ran),
            "get" | "gettext" => self.add_file(&ran),
            _ => self.add(ran),
        }
    }

    /// Creates a new volume.
    fn make(&mut self, rest: &str) -> io::Result<()> {
        let (volume, blocks) = two(rest)?;
        let name = name(self.alloc, volume)?;
        let blocks = word(blocks)?;
        self.add(do_job(self.alloc, Job::New { name, blocks }, b""))
    }

    /// Adds the output of `salvage`, and stores the salvaged volume.
    fn salvage(&mut self, image: Vec<u8>, second: bool) -> io::Result<()> {
        let ran = do_job(self.alloc, Job::Salvage { image, second }, b"");
        self.add_told(&ran)?;
        if ran.is_refused() {
            return Ok(());
        }
        self.saved = self.made(ran)?;
        Ok(())
    }

    /// Adds bytes of the image from an offset on, as many as the line contains.
    fn add_place(&mut self, rest: &str) -> io::Result<()> {
        let (place, bytes) = two(rest)?;
        let count = match bytes.split_once(' ') {
            Some((count, _)) => number(count)?,
            None => bytes.len() / 2,
        };
        let first = number(place)?.min(self.image.len());
        let behind = &self.image.as_slice()[first..];
        let part = &behind[..count.min(behind.len())];
        let text = match bytes.split_once(' ') {
            Some(_) => measured(self.alloc, part)?,
            None => hex::encode(self.alloc, part)?,
        };
        let line = format!(in self.alloc; "{first} {text}")?;
        self.came.answer("@", line.as_str())?;
        Ok(())
    }

    /// Writes bytes from an offset of the image on.
    fn write(&mut self, place: usize, bytes: &[u8]) -> io::Result<()> {
        for (at, byte) in bytes.iter().enumerate() {
            set_byte(&mut self.image, place.saturating_add(at), *byte)?;
        }
        Ok(())
    }

    /// Copies bytes of the image to another offset. `rest` is `FROM N TO`.
    fn copy(&mut self, rest: &str) -> io::Result<()> {
        let (from, rest) = two(rest)?;
        let (count, to) = two(rest)?;
        let from = number(from)?;
        let end = from.saturating_add(number(count)?);
        let part = self.image.get(from..end).ok_or_else(unreadable)?;
        let part = part.to_vec(self.alloc)?;
        self.write(number(to)?, &part)
    }

    /// Writes bytes to the image. `rest` is `PLACE BYTES`, where `PLACE` is an offset.
    fn put(&mut self, rest: &str) -> io::Result<()> {
        let (place, spelled) = two(rest)?;
        let place = number(place)?;
        let bytes = hex_bytes(self.alloc, spelled)?;
        self.write(place, &bytes)
    }

    /// Sets the length of the image. Added bytes are zeros.
    fn resize(&mut self, rest: &str) -> io::Result<()> {
        self.image.resize(number(rest)?, 0)?;
        Ok(())
    }

    /// Executes one line of the session. The function first handles lines that change the image without an answer.
    pub fn line(&mut self, line: Line<'_>) -> io::Result<()> {
        let rest = line.rest;
        match line.word {
            "<" => Ok(()),
            "byte" => damage(&mut self.image, rest),
            "bytes" => self.put(rest),
            "copy" => self.copy(rest),
            "blank" => {
                self.image.clear();
                self.resize(rest)
            }
            "size" => self.resize(rest),
            "keep" => {
                self.kept = self.image.to_vec(self.alloc)?;
                Ok(())
            }
            "back" => {
                self.image = self.kept.to_vec(self.alloc)?;
                Ok(())
            }
            "take" => {
                self.image = self.saved.to_vec(self.alloc)?;
                Ok(())
            }
            "@" => self.add_place(rest),
            "new" => self.make(rest),
            _ => self.job(line),
        }
    }

    /// Runs the job of a line on the image.
    fn job(&mut self, line: Line<'_>) -> io::Result<()> {
        let image = self.image.to_vec(self.alloc)?;
        match (line.word, line.rest) {
            ("repair", "") => self.add(do_job(self.alloc, Job::Repair { image }, b"")),
            ("check", "") => self.add_told(&do_job(self.alloc, Job::Check { image }, b"")),
            ("salvage", "") => self.salvage(image, false),
            ("salvage", "second") => self.salvage(image, true),
            _ => self.command(line, image),
        }
    }
}

/// Returns the result of a case. Texts of up to `most` lines are unabridged.
pub fn answers(alloc: Global, case: &Case<'_>, most: usize) -> io::Result<Came> {
    let mut session = Session::new(alloc, most, Vec::new(alloc));
    for line in case.lines.iter() {
        session.line(*line)?;
    }
    Ok(session.came)
}

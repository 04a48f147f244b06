//! The lines of a script.
use crate::command::{CommandLine, come};
use crate::meanwhile::meanwhile;
use crate::sweep::sweep;
use std::alloc::Global;
use std::{fmt, io};
use test_host::{Came, Deed, Disk, Scene, add, deed_of};

/// The state of a script.
#[derive(Drop)]
pub struct Trials {
    /// The files of the disk, and the result of the last command line.
    scene: Scene,
    /// What another program does during the next command line of `$~`.
    deed: Option<Deed>,
    /// The lines before and after each text of `takes` and `refuses`.
    before: Vec<u8>,
    behind: Vec<u8>,
    /// The text to be printed.
    told: String,
    count: u32,
}

impl Trials {
    /// Returns the state without files and without command lines.
    pub fn new(alloc: Global) -> Trials {
        Trials {
            scene: Scene::new(alloc),
            deed: None,
            before: Vec::new(alloc),
            behind: Vec::new(alloc),
            told: String::new(alloc),
            count: 0,
        }
    }

    /// Returns the number of command lines that were executed. Those with a failing call are not counted.
    pub fn count(&self) -> u32 {
        self.count
    }

    /// Returns the text to be printed, and clears it.
    pub fn take_told(&mut self) -> String {
        std::mem::replace(&mut self.told, String::new(self.scene.alloc))
    }

    /// Stores and counts the result of a command line.
    fn keep(&mut self, came: Came) {
        self.scene.keep(came);
        self.count = self.count.wrapping_add(1);
    }

    /// Executes a command line.
    fn run(&mut self, words: &str) -> io::Result<bool> {
        let command = CommandLine {
            words,
            typed: self.scene.typed.as_slice(),
            on_terminal: self.scene.on_terminal,
        };
        let mut disk = std::mem::replace(&mut self.scene.came.disk, Disk::new(self.scene.alloc));
        disk.rewind();
        let came = come(self.scene.alloc, disk, command, None);
        self.keep(came);
        Ok(true)
    }

    /// Executes a command line, and once more for each of its calls, which then fails. `paths` are the files that it
    /// writes, in the order of writing.
    fn run_each(&mut self, words: &str, paths: &str) -> io::Result<bool> {
        let command = CommandLine {
            words,
            typed: self.scene.typed.as_slice(),
            on_terminal: self.scene.on_terminal,
        };
        let (holds, came) = sweep(self.scene.alloc, &self.scene.came.disk, command, paths)?;
        self.keep(came);
        Ok(holds)
    }

    /// Executes a command line while another program acts before each of its calls in turn. What `paths` then name is
    /// printed. The files of the disk are unchanged.
    fn run_beside(&mut self, words: &str, paths: &str) -> io::Result<bool> {
        let command = CommandLine {
            words,
            typed: self.scene.typed.as_slice(),
            on_terminal: self.scene.on_terminal,
        };
        let Some(deed) = self.deed.take() else {
            return Ok(false);
        };
        let told = meanwhile(
            self.scene.alloc,
            &self.scene.came.disk,
            command,
            &deed,
            paths,
        )?;
        self.told.push_str(words)?;
        self.told.push_str("\n")?;
        self.told.push_str(told.as_str())?;
        self.scene.typed.clear();
        self.count = self.count.wrapping_add(1);
        Ok(true)
    }

    /// Reads from a line what another program will do.
    fn begin_deed(&mut self, rest: &str) -> io::Result<bool> {
        let (word, path) = rest.split_once(' ').unwrap_or((rest, ""));
        self.deed = deed_of(self.scene.alloc, &self.scene.came.disk, word, path)?;
        self.told.push_str(rest)?;
        self.told.push_str(": ")?;
        Ok(self.deed.is_some())
    }

    /// Executes an invalid command line. Returns whether its status is 1 and its only call writes a text to standard
    /// error.
    fn run_wrong(&mut self, words: &str) -> io::Result<bool> {
        self.run(words)?;
        let disk = &self.scene.came.disk;
        Ok(self.scene.came.status == 1 && !disk.err.is_empty() && disk.log.as_str() == "E")
    }

    /// Executes a line of the script. Returns whether the line is valid, and true if it is a statement. `#` begins a
    /// comment.
    ///
    /// These lines do something:
    ///
    /// - `$ WORDS`: a command line. `$$ FILES WORDS`: the same, and once more for each call, which then fails. FILES
    ///   are separated by commas. `usage WORDS`: an invalid command line.
    /// - `~ put FILE FROM`, `~ replace FILE FROM`, `~ remove FILE`, `~ symlink FILE TO`, `~ lock FILE`, `~ unlock
    ///   FILE`, `~ move FILE FROM`: what another program does. `move` replaces the folder of the files by another one,
    ///   whose names are `elsewhere/FILE`.
    /// - `$~ FILES WORDS`: a command line during which another program does that, before each call in turn. It prints
    ///   what FILES then name.
    /// - `fail LETTER KIND`: the first call of the next command line with this letter fails with this error.
    /// - `< TEXT`: a line of standard input of the next command line. `key CODE`: one more byte of it. `<<`: its
    ///   standard input is the standard output of the last command line.
    /// - `> TEXT` and `] TEXT`: a line of the expected standard output, with and without a line feed. `! TEXT` and `?
    ///   TEXT`: the same for standard error.
    /// - `disk`: no files. `closed`: names can neither be added to the folder nor removed from it. `sticky`: a user
    ///   cannot remove the files of another user. `blind`: no path can be canonicalized. `plain`: the system has no
    ///   paths of open files. `user NUMBER`: the user whose program runs. `terminal on` or `terminal off`: whether the
    ///   standard streams are a terminal.
    /// - `hold`, `private`, `read-only`, `folder`: all files are locked by another program, cannot be read, cannot be
    ///   written, or are folders. Each of these lines clears the other three properties. With a FILE, it sets the
    ///   property of this file only.
    /// - `busy FILE`: no other file can replace it. `foreign FILE`: another program made it and has it open.
    /// - `copy FROM TO`, `poke FILE PLACE TEXT`, `link FILE NAME`, `symlink FILE TO`. `zeros FILE COUNT`: a file of
    ///   COUNT zeros. `store FILE`: a file with the standard output of the last command line. `mode FILE MODE`, `owner
    ///   FILE OWNER GROUP`.
    ///
    /// These lines are statements:
    ///
    /// - `= STATUS`: the status, and both streams have the expected contents. `status STATUS`: only the status.
    /// - `same FILE FILE`, `text FILE TEXT`, `size FILE BYTES`, `names COUNT`, `none FILE`. `own FILE`: no other
    ///   program made it.
    /// - `has-mode FILE MODE`, `has-owner FILE OWNER GROUP`. `leads FILE TO`: a symbolic link contains the path TO.
    /// - `widest MODE`: all permission bits that any file made by the program had at any moment. `took BYTES`: the
    ///   number of bytes of standard output.
    /// - `field LINE PLACE WORD`: a word of standard output. LINE and PLACE count from 0. `field LINE PLACE`: this word
    ///   does not exist.
    ///
    /// Other lines have bytes or texts of the assembler. PIECES are separated by spaces. A piece has two hexadecimal
    /// digits for each byte. `N*` before the digits repeats their bytes N times.
    ///
    /// - `[ TEXT`: standard input without a line feed. `hex PIECES`: bytes of it. `times N TEXT`: N lines of it.
    /// - `file FILE`: the collected standard input becomes a file. `set FILE PLACE PIECES`: overwrites bytes of a file.
    ///   `cut FILE PLACE COUNT TO`: copies COUNT bytes of a file to TO. The statement `bytes FILE PIECES`: the file has
    ///   these bytes.
    /// - `ends STATUS`: like `=`, but standard output only ends with the expected contents. `says STATUS`: the same for
    ///   standard error.
    /// - `before` and `behind`: the collected standard input becomes the first or the last lines of each text of the
    ///   assembler. `takes LINE` and `refuses FAULT AT LINE` use the collected standard input and then LINE as the
    ///   lines between. They are true if `pmach asm` accepts the text, or refuses it with this fault in line AT.
    pub fn line(&mut self, line: &str) -> io::Result<bool> {
        let (word, rest) = line.split_once(' ').unwrap_or((line, ""));
        let (first, second) = rest.split_once(' ').unwrap_or((rest, ""));
        match word {
            "" | "#" => Ok(true),
            "$" => self.run(rest),
            "$$" => self.run_each(second, first),
            "$~" => self.run_beside(second, first),
            "~" => self.begin_deed(rest),
            "usage" => self.run_wrong(rest),
            "before" | "behind" => Ok(self.surround(word)),
            "takes" => self.assembles(rest),
            "refuses" => self.refuses(first, second),
            _ => self.scene.line(word, rest),
        }
    }

    /// Moves the collected standard input to the lines before or after each text.
    fn surround(&mut self, word: &str) -> bool {
        let typed = std::mem::replace(&mut self.scene.typed, Vec::new(self.scene.alloc));
        if word == "before" {
            self.before = typed;
        } else {
            self.behind = typed;
        }
        true
    }

    /// Assembles a text that ends with this line and the lines of `behind`. Returns whether it has no fault.
    fn assembles(&mut self, line: &str) -> io::Result<bool> {
        let mut text = Vec::new(self.scene.alloc);
        text.extend_from_slice(self.before.as_slice())?;
        text.extend_from_slice(self.scene.typed.as_slice())?;
        add(&mut text, line, true)?;
        text.extend_from_slice(self.behind.as_slice())?;
        self.scene.typed = text;
        self.run("pmach asm")?;
        Ok(self.scene.came.status == 0 && self.scene.came.disk.err.is_empty())
    }

    /// Assembles a text. Returns whether it is refused with this fault in the line whose number is first in `rest`.
    fn refuses(&mut self, fault: &str, rest: &str) -> io::Result<bool> {
        let (at, line) = rest.split_once(' ').unwrap_or((rest, ""));
        self.assembles(line)?;
        let message = format!(in self.scene.alloc; "refused asm {fault} {at}\n")?;
        let disk = &self.scene.came.disk;
        Ok(
            self.scene.came.status == 2
                && disk.out.is_empty()
                && disk.err.as_str() == message.as_str(),
        )
    }
}

/// Prints the result of the last command line, for a test that failed.
impl fmt::Display for Trials {
    fn fmt<W: fmt::Write>(&self, f: &mut fmt::Formatter<W>) -> fmt::Result {
        self.scene.fmt(f)
    }
}

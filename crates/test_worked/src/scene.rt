//! Scenes: a machine with raw p-code or with a volume, and lines that are executed one after the other. The result of a
//! line that agrees is the line itself.
use crate::code_file::volume;
use crate::events::{is_event, on_machine};
use crate::views::view;
use pm_machine::{BootFault, Machine};
use pm_volume::{Volume, kinds};
use std::alloc::Global;
use std::io;
use test_parts::{Segment, byte, hex_bytes, number, unreadable};

/// A scene.
#[derive(Drop)]
pub struct Scene {
    /// Whether the scene has begun.
    pub goes: bool,
    /// Whether a line of the scene did not agree.
    pub fails: bool,
    machine: Option<Machine>,
    /// The raw p-code of the last scene that states raw p-code.
    code: Vec<u8>,
    segments: Vec<Segment>,
    kind: u8,
    clock: u32,
}

/// Mounts a blank volume on a unit. Returns the number of the fault if the mount is refused.
pub fn mount_blank(
    alloc: Global,
    machine: &mut Machine,
    unit: u8,
    blocks: u16,
) -> io::Result<Option<u8>> {
    let volume = Volume::blank(alloc, "V", blocks).map_err(|_| unreadable())?;
    Ok(mount(machine, unit, volume))
}

/// Mounts a volume on a unit. Returns the number of the fault if the mount is refused.
pub fn mount(machine: &mut Machine, unit: u8, volume: Volume) -> Option<u8> {
    match machine.mount(unit, volume) {
        Ok(()) => None,
        Err((fault, _)) => Some(fault.number()),
    }
}

/// Returns `line`, followed by the number of the refusal if `refusal` is not `None`.
pub fn with_refusal(alloc: Global, line: &str, refusal: Option<u8>) -> io::Result<String> {
    let mut text = String::from_str(alloc, line)?;
    if let Some(number) = refusal {
        let more = format!(in alloc; " refused {number}")?;
        text.push_str(more.as_str())?;
    }
    Ok(text)
}

/// Returns a line without ` refused` and the text after it.
pub fn asked(line: &str) -> &str {
    let (asked, _) = line.split_once(" refused").unwrap_or((line, ""));
    asked
}

impl Scene {
    /// Returns a scene that has not begun.
    pub fn new(alloc: Global) -> Scene {
        Scene {
            goes: false,
            fails: false,
            machine: None,
            code: Vec::new(alloc),
            segments: Vec::new(alloc),
            kind: kinds::CODE,
            clock: 0,
        }
    }

    /// Ends the scene. Its raw p-code remains for `again`.
    pub fn end(&mut self) {
        self.goes = false;
        self.fails = false;
        self.machine = None;
        self.segments.clear();
        self.kind = kinds::CODE;
        self.clock = 0;
    }

    /// Starts a machine on the raw p-code.
    fn begin(&mut self, alloc: Global) -> io::Result<()> {
        let machine = Machine::raw(alloc, &self.code).map_err(|_| unreadable())?;
        self.machine = Some(machine);
        Ok(())
    }

    /// Sets the code of a slot. `rest` is `N HEX`.
    fn add_segment(&mut self, alloc: Global, rest: &str) -> io::Result<()> {
        let (slot, digits) = rest.split_once(' ').ok_or_else(unreadable)?;
        let slot = number(slot)?;
        let bytes = hex_bytes(alloc, digits)?;
        for segment in self.segments.iter_mut() {
            if segment.slot == slot {
                segment.bytes = bytes;
                return Ok(());
            }
        }
        self.segments.push(Segment { slot, bytes })?;
        Ok(())
    }

    /// Boots a machine from the volume on a unit. `rest` is `UNIT NAME`. Returns the fault if the boot is refused.
    fn boot(&mut self, alloc: Global, rest: &str) -> io::Result<Option<BootFault>> {
        let (unit, name) = asked(rest).split_once(' ').ok_or_else(unreadable)?;
        let unit = byte(unit)?;
        let volume = volume(alloc, &self.segments, self.kind)?;
        let volumes = [Some(volume), None, None, None, None, None];
        match Machine::boot(alloc, volumes, unit, name, self.clock) {
            Ok(machine) => {
                self.machine = Some(machine);
                Ok(None)
            }
            Err((fault, _)) => Ok(Some(fault)),
        }
    }

    /// Mounts a volume that has the segments. `rest` is `UNIT`.
    fn mount(&mut self, alloc: Global, rest: &str) -> io::Result<Option<u8>> {
        let unit = byte(asked(rest))?;
        let volume = volume(alloc, &self.segments, self.kind)?;
        let machine = self.machine.as_mut().ok_or_else(unreadable)?;
        Ok(mount(machine, unit, volume))
    }

    /// Executes a line that prepares the scene. Its result is always the line itself.
    fn prepare(&mut self, alloc: Global, word: &str, rest: &str) -> io::Result<()> {
        match word {
            "code" => {
                self.code = hex_bytes(alloc, rest)?;
                self.begin(alloc)
            }
            "again" => self.begin(alloc),
            "segment" => self.add_segment(alloc, rest),
            "kind" => {
                self.kind = byte(rest)?;
                Ok(())
            }
            _ => {
                self.clock = rest.parse().map_err(|_| unreadable())?;
                Ok(())
            }
        }
    }

    /// Executes a line and returns it with the actual result.
    fn answer(&mut self, alloc: Global, line: &str) -> io::Result<String> {
        let (word, rest) = line.split_once(' ').unwrap_or((line, ""));
        match word {
            "code" | "again" | "segment" | "kind" | "clock" => {
                self.prepare(alloc, word, rest)?;
                Ok(String::from_str(alloc, line)?)
            }
            "boot" => {
                let refusal = self.boot(alloc, rest)?.map(|fault| fault.number());
                with_refusal(alloc, asked(line), refusal)
            }
            "mount" => {
                let refusal = self.mount(alloc, rest)?;
                with_refusal(alloc, asked(line), refusal)
            }
            _ => {
                let machine = self.machine.as_mut().ok_or_else(unreadable)?;
                if is_event(word) {
                    on_machine(alloc, machine, line)
                } else {
                    view(alloc, machine, word, rest)
                }
            }
        }
    }

    /// Returns the actual result if the line does not agree, and `None` otherwise.
    pub fn differing(&mut self, alloc: Global, line: &str) -> io::Result<Option<String>> {
        let answer = self.answer(alloc, line)?;
        if answer.as_str() == line {
            Ok(None)
        } else {
            Ok(Some(answer))
        }
    }
}

//! The code file of a scene, on a volume.
use pm_volume::Volume;
use std::alloc::Global;
use std::io;
use test_parts::{Segment, code_file, unreadable};

/// Returns a volume of 83 blocks with the code file of these segments as `P`, with this kind.
pub fn volume(alloc: Global, segments: &[Segment], kind: u8) -> io::Result<Volume> {
    let file = code_file(alloc, segments)?;
    let mut volume = Volume::blank(alloc, "WORK", 83).map_err(|_| unreadable())?;
    match volume.add("P", kind, &file, 0) {
        Ok(_) => Ok(volume),
        Err(_) => Err(unreadable()),
    }
}

//! The cases of examples/conformance/bare.txt: a name, lines with the bytes in hexadecimal, and the trace.
use crate::bare::add_trace;
use crate::case::{Came, Case};
use std::alloc::Global;
use std::io;
use test_parts::hex_bytes;

/// The maximum number of steps.
const STEPS: u32 = 10_000;

/// Returns the result of a case.
pub fn answers(alloc: Global, case: &Case<'_>) -> io::Result<Came> {
    let mut code = Vec::new(alloc);
    for line in case.lines.iter() {
        if line.word.len() == 2 {
            code.extend_from_slice(&hex_bytes(alloc, line.text)?)?;
        }
    }
    let mut came = Came::new(alloc);
    add_trace(alloc, &code, STEPS, &mut came)?;
    came.answers = std::mem::replace(&mut came.shown, String::new(alloc));
    Ok(came)
}

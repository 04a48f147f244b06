//! The names that salvaged files and the new volume get.
ghost use Rattle.std.specs.Prelude.{◌≡◌, ◌++◌, IfOk, OnOk, string_bytes};
ghost use Rattle.pm_check.specs.Naming.{free_name, good_character, good_name, numbered, volume_name};

use pm_volume::Volume;
use std::alloc::{AllocError, Global};

// Returns `byte` in upper case, or `-` if a new name cannot contain `byte`.
fn good_character(byte: u8) -> u8
    ensures value { result ≡ good_character byte }
{
    if 33 <= byte && byte <= 126 && byte != b':' {
        byte.to_ascii_uppercase()
    } else {
        b'-'
    }
}

// Appends the bytes of `name` to `text`, each converted by `good_character`.
fn push_good(text: &mut String, name: &[u8]) -> Result<(), AllocError>
    ensures text { OnOk result (string_bytes text.new ≡ string_bytes text.old ++ good_name name.now) }
{
    for byte in name {
        text.push(char::from(good_character(*byte)))?;
    }
    Ok(())
}

// Returns `name`, converted by `good_character`, with the number `n` after it. If `n` is 0, the number is omitted.
// Otherwise `name` is cut to 12 characters.
#[tactic(auto, unfolding(crate::specs::Naming::numbered), using(crate::proofs::Names::padded_two))]
fn numbered(alloc: Global, name: &[u8], n: u16) -> Result<String, AllocError>
    ensures name { IfOk result (λ text. string_bytes text ≡ numbered name.now n) }
{
    let mut text = String::new(alloc);
    if n == 0 {
        push_good(&mut text, name)?;
        return Ok(text);
    }
    push_good(&mut text, &name[..name.len().min(12)])?;
    write!(text, ".{n:02}")?;
    Ok(text)
}

/// Returns the first of the names with the numbers 0 to 76 that no file of `volume` has. Returns the name with the
/// number 77 if files have all of them.
pub fn free_name(alloc: Global, volume: &Volume, name: &[u8]) -> Result<String, AllocError>
    ensures name { IfOk result (λ text. string_bytes text ≡ free_name volume.now name.now) }
{
    for n in 0..77 {
        let text = numbered(alloc, name, n)?;
        if volume.find(text.as_str()).is_none() {
            return Ok(text);
        }
    }
    numbered(alloc, name, 77)
}

/// Returns the name of the new volume: `name`, converted by `good_character`, or `SALVAGE` if `name` is empty.
#[tactic(auto, unfolding(crate::specs::Naming::volume_name))]
pub fn volume_name(alloc: Global, name: &[u8]) -> Result<String, AllocError>
    ensures name { IfOk result (λ text. string_bytes text ≡ volume_name name.now) }
{
    if name.len() == 0 {
        return String::from_str(alloc, "SALVAGE");
    }
    let mut text = String::new(alloc);
    push_good(&mut text, name)?;
    Ok(text)
}

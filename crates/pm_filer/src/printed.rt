//! The printable form of a name: each byte below 32 or above 126 is printed as a question mark.
ghost use Rattle.std.specs.Prelude.{◌≡◌, ◌++◌, OnOk, string_bytes};
ghost use Rattle.pm_filer.specs.Listing.{printable_name, shown_byte};

use std::alloc::AllocError;

/// Returns `byte`, or a question mark if it is below 32 or above 126.
fn shown_byte(byte: u8) -> u8
    ensures value { result ≡ shown_byte byte }
{
    if 32 <= byte && byte <= 126 {
        byte
    } else {
        b'?'
    }
}

/// Appends the printable form of `name` to `text`.
///
/// # Errors
///
/// `AllocError`: memory was refused.
pub fn push_name(text: &mut String, name: &[u8]) -> Result<(), AllocError>
    ensures text { OnOk result (string_bytes text.new ≡ string_bytes text.old ++ printable_name name.now) }
{
    for byte in name {
        text.push(char::from(shown_byte(*byte)))?;
    }
    Ok(())
}

/// Appends the printable form of `name` to `text`, which is a list of bytes.
///
/// # Errors
///
/// `AllocError`: memory was refused.
pub fn push_shown(text: &mut Vec<u8>, name: &[u8]) -> Result<(), AllocError>
    ensures text { OnOk result (text.new.items ≡ text.old.items ++ printable_name name.now) }
{
    for byte in name {
        text.push(shown_byte(*byte))?;
    }
    Ok(())
}

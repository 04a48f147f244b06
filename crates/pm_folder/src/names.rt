//! The names that the files of a volume get in a folder.
ghost use Rattle.std.specs.Prelude.{◌≡◌, ◌++◌, ◌<◌, OnOk, string_bytes};
ghost use Rattle.pm_folder.specs.Names.{dotless, host_name, listed_name, plain_host};

use percent_encoding::{AsciiSet, CONTROLS, ascii_set, percent_encode};
use std::alloc::AllocError;

/// The ASCII characters that are escaped in a name in `LIST`, as `%` and two hexadecimal digits.
pub const LISTED: AsciiSet = ascii_set!(CONTROLS.add(b' ').add(b'%'));

/// The ASCII characters that are escaped in the name of a file of the folder, as `%` and two hexadecimal digits.
pub const HOSTED: AsciiSet = ascii_set!(CONTROLS.add(b' ').add(b'%').add(b'/'));

/// The name of the file in the folder that lists the other files.
const LIST: &str = "LIST";

/// Appends `name` to `text`, escaped as in `LIST`.
pub(crate) fn push_listed(text: &mut String, name: &[u8]) -> Result<(), AllocError>
    ensures text { OnOk result (string_bytes text.new ≡ string_bytes text.old ++ listed_name name.now) }
{
    percent_encode(name, LISTED).append_to(text)
}

/// Appends `name` to `text`, escaped as in the folder. A full stop at the start is escaped too.
fn push_dotless(text: &mut String, name: &[u8]) -> Result<(), AllocError>
    ensures text { OnOk result (string_bytes text.new ≡ string_bytes text.old ++ dotless name.now) }
{
    let Some((first, rest)) = name.split_first() else {
        return Ok(());
    };
    if *first == b'.' {
        text.push_str("%2E")?;
        percent_encode(rest, HOSTED).append_to(text)
    } else {
        percent_encode(name, HOSTED).append_to(text)
    }
}

/// Appends the name in the folder of the first file with the name `name` to `text`.
fn push_plain(text: &mut String, name: &[u8]) -> Result<(), AllocError>
    ensures text { OnOk result (string_bytes text.new ≡ string_bytes text.old ++ plain_host name.now) }
{
    if name == LIST.as_bytes() {
        text.push_str("%4CIST")
    } else {
        push_dotless(text, name)
    }
}

/// Appends to `text` the name in the folder of a file with the name `name` that follows `before` files with the same
/// name.
pub(crate) fn push_host(text: &mut String, before: u16, name: &[u8]) -> Result<(), AllocError>
    requires few { before < 65535 }
    ensures text { OnOk result (string_bytes text.new ≡ string_bytes text.old ++ host_name before name.now) }
{
    push_plain(text, name)?;
    if before > 0 {
        let number = before + 1;
        write!(text, "%%{number}")?;
    }
    Ok(())
}

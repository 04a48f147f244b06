//! The names of the procedures that instructions call by number.

ghost use Rattle.std.specs.Prelude.{◌≡◌, option_and_then, option_map};
ghost use Rattle.pm_notes.specs.Names.{behind, name_called, number_in, standard_called, standard_name};
ghost use Rattle.pm_notes.specs.Names.{system_called, system_name};

/// Returns the name of the standard procedure `number`, or `None` if the machine does not have it. The procedures that
/// load and unload a segment have a description instead of a name.
#[tactic(auto, unfolding(crate::specs::Names::standard_name, crate::specs::Names::standard_names))]
pub fn standard_name(number: u8) -> Option<&'static str>
    ensures name { option_map (λ name. name.now) result ≡ standard_name number }
{
    match number {
        0 => Some("IOCHECK"),
        1 => Some("NEW"),
        2 => Some("MOVELEFT"),
        3 => Some("MOVERIGHT"),
        4 => Some("EXIT"),
        5 => Some("UNITREAD"),
        6 => Some("UNITWRITE"),
        9 => Some("TIME"),
        10 => Some("FILLCHAR"),
        11 => Some("SCAN"),
        21 => Some("load a segment"),
        22 => Some("unload a segment"),
        32 => Some("MARK"),
        33 => Some("RELEASE"),
        34 => Some("IORESULT"),
        35 => Some("UNITBUSY"),
        37 => Some("UNITWAIT"),
        38 => Some("UNITCLEAR"),
        39 => Some("HALT"),
        40 => Some("MEMAVAIL"),
        _ => None,
    }
}

/// Returns the name of procedure `number` of segment 0, the operating system, or `None` if its name is not known.
#[tactic(auto, unfolding(crate::specs::Names::system_name, crate::specs::Names::system_names))]
pub fn system_name(number: u8) -> Option<&'static str>
    ensures name { option_map (λ name. name.now) result ≡ system_name number }
{
    match number {
        2 => Some("EXECERROR"),
        3 => Some("FINIT"),
        4 => Some("FRESET"),
        5 => Some("FOPEN"),
        6 => Some("FCLOSE"),
        7 => Some("FGET"),
        8 => Some("FPUT"),
        9 => Some("FSEEK"),
        10 => Some("FEOF"),
        11 => Some("FEOLN"),
        12 => Some("FREADINT"),
        13 => Some("FWRITEINT"),
        14 => Some("FREADREAL"),
        15 => Some("FWRITEREAL"),
        16 => Some("FREADCHAR"),
        17 => Some("FWRITECHAR"),
        18 => Some("FREADSTRING"),
        19 => Some("FWRITESTRING"),
        20 => Some("FWRITEBYTES"),
        21 => Some("FREADLN"),
        22 => Some("FWRITELN"),
        23 => Some("SCONCAT"),
        24 => Some("SINSERT"),
        25 => Some("SCOPY"),
        26 => Some("SDELETE"),
        27 => Some("SPOS"),
        28 => Some("FBLOCKIO"),
        29 => Some("FGOTOXY"),
        _ => None,
    }
}

/// Returns the number that `digits` writes in one or two decimal digits. Returns `None` for any other bytes.
pub(crate) fn number_in(digits: &[u8]) -> Option<u8>
    ensures number { result ≡ number_in digits.now }
{
    match digits {
        [d @ b'0'..=b'9'] => Some(d - b'0'),
        [c @ b'0'..=b'9', d @ b'0'..=b'9'] => Some(10 * (c - b'0') + (d - b'0')),
        _ => None,
    }
}

/// Returns the number that is the rest of `line` after the prefix `front`. Returns `None` if `line` has another form.
fn number_behind(front: &[u8], line: &[u8]) -> Option<u8>
    ensures number { result ≡ option_and_then number_in (behind front.now line.now) }
{
    number_in(line.strip_prefix(front)?)
}

/// Returns the name of the standard procedure that `line` calls, or `None` if it calls none or the name is not known.
#[tactic(auto, unfolding(crate::specs::Names::standard_called))]
fn standard_called(line: &[u8]) -> Option<&'static str>
    ensures name { option_map (λ name. name.now) result ≡ standard_called line.now }
{
    standard_name(number_behind(b"  CSP ", line)?)
}

/// Returns the name of the procedure of the operating system that `line` calls, or `None` if it calls none or the name
/// is not known.
#[tactic(auto, unfolding(crate::specs::Names::system_called))]
fn system_called(line: &[u8]) -> Option<&'static str>
    ensures name { option_map (λ name. name.now) result ≡ system_called line.now }
{
    system_name(number_behind(b"  CXP 0, ", line)?)
}

/// Returns the name of the procedure that `line` calls, or `None` if it calls none or the name is not known.
#[tactic(auto, unfolding(crate::specs::Names::name_called))]
pub(crate) fn name_called(line: &[u8]) -> Option<&'static str>
    ensures name { option_map (λ name. name.now) result ≡ name_called line.now }
{
    match standard_called(line) {
        Some(name) => Some(name),
        None => system_called(line),
    }
}

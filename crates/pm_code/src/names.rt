//! Names of segments.

ghost use Rattle.std.specs.Prelude.{◌≡◌};
ghost use Rattle.pm_code.specs.Program.{is_name_character};

/// Whether the name of a segment in a source text may contain `byte`: 33 to 126, except `;`, `,` and `"`.
pub fn is_name_character(byte: u8) -> bool
    ensures character { result ≡ is_name_character byte }
{
    (33..=126).contains(&byte) && byte != b';' && byte != b',' && byte != b'"'
}

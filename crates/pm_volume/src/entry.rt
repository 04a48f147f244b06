//! The entries of a directory, and the names of files and volumes.

ghost use Rattle.std.specs.Prelude.{◌≡◌, ◌≤◌, ◌++◌, drop, length};
ghost use Rattle.std.specs.Str.{str_to_ascii_uppercase};
ghost use Rattle.pm_volume.specs.Entries.{entry_of, is_sound_entry};
ghost use Rattle.pm_volume.specs.Names.{characters_of, is_new_name, is_same_name, name_field};
ghost use Rattle.pm_volume.specs.declared.fields.TheConstants.{LONGEST_NAME, LONGEST_VOLUME_NAME, SLOT};

use crate::fields::{
    ENTRY_DATE, ENTRY_END, ENTRY_FIRST, ENTRY_KIND, ENTRY_LAST_BYTES, ENTRY_NAME, LONGEST_NAME,
    SLOT,
};
use pm_bytes::{BLOCK, set_bytes, set_word, word};

/// The entry of a file: the contents of its directory slot.
#[derive(Clone, Copy)]
pub struct Entry {
    /// The name as stored in the directory: a byte with its length, then up to 15 characters.
    pub name: [u8; 16],
    /// The kind, 0 to 15. The module `kinds` names 0 to 8; kinds 9 to 15 have no meaning.
    pub kind: u8,
    /// The first block of the file.
    pub first: u16,
    /// The block after the last block of the file. For a file without blocks it equals `first`.
    pub end: u16,
    /// The number of bytes in the last block: 1 to 512 if the file has blocks.
    pub last_bytes: u16,
    /// The date as a word. `Date::of` returns its parts.
    pub date: u16,
}

impl Entry {
    ghost use Rattle.pm_volume.specs.Changes.{entry_slot};

    // Returns the entry that the 26 bytes `slot` of a directory contain.
    #[tactic(auto, unfolding(crate::specs::Entries::entry_of))]
    pub(crate) fn read(slot: &[u8]) -> Entry
        requires size { length slot.now ≡ SLOT }
        ensures entry { result ≡ entry_of slot.now }
    {
        let mut name = [0; 16];
        name.copy_from_slice(&slot[ENTRY_NAME..ENTRY_LAST_BYTES]);
        Entry {
            name,
            kind: (word(slot, ENTRY_KIND) % 16) as u8,
            first: word(slot, ENTRY_FIRST),
            end: word(slot, ENTRY_END),
            last_bytes: word(slot, ENTRY_LAST_BYTES),
            date: word(slot, ENTRY_DATE),
        }
    }

    // Returns the entry as the 26 bytes of a directory slot.
    #[tactic(auto, unfolding(crate::specs::Changes::entry_slot))]
    pub(crate) fn slot(&self) -> [u8; 26]
        ensures fields { result ≡ entry_slot self.now }
        ensures size { length result ≡ SLOT }
    {
        let mut slot = [0; SLOT];
        set_word(&mut slot, ENTRY_FIRST, self.first);
        set_word(&mut slot, ENTRY_END, self.end);
        set_word(&mut slot, ENTRY_KIND, u16::from(self.kind));
        set_bytes(&mut slot, ENTRY_NAME, &self.name);
        set_word(&mut slot, ENTRY_LAST_BYTES, self.last_bytes);
        set_word(&mut slot, ENTRY_DATE, self.date);
        slot
    }

    // Is true if the entry is valid as the next entry after files that end before block `from`.
    #[tactic(auto, unfolding(crate::specs::Entries::is_sound_entry))]
    pub(crate) fn is_sound(&self, from: u16) -> bool
        ensures sound { result ≡ is_sound_entry from self.now }
    {
        matches!(self.name[0], 1..=15)
            && from <= self.first
            && self.first <= self.end
            && (self.first == self.end || matches!(self.last_bytes, 1..=512))
    }

    /// Returns the characters of the name. Their number is the length byte of `name`, but at most 15.
    #[tactic(auto, unfolding(crate::specs::Names::characters_of))]
    pub fn characters(&self) -> &[u8]
        ensures characters { result.now ≡ characters_of self.now.name }
    {
        let length = usize::from(self.name[0]).min(LONGEST_NAME);
        &self.name[1..1 + length]
    }

    // Is true if the entry has the name `name`. Case is ignored.
    pub(crate) fn is_named(&self, name: &str) -> bool
        ensures named { result ≡ is_same_name (characters_of self.now.name) name.now }
    {
        is_same_name(self.characters(), name.as_bytes())
    }
}

/// Is true if the names `left` and `right` are equal. Case is ignored.
#[tactic(auto, unfolding(crate::specs::Names::is_same_name))]
pub fn is_same_name(left: &[u8], right: &[u8]) -> bool
    ensures same { result ≡ is_same_name left.now right.now }
{
    left.len() == right.len()
        && left
            .iter()
            .zip(right)
            .all(|(a, b)| a.to_ascii_uppercase() == b.to_ascii_uppercase())
}

// Is true if `name` can be given to a file or volume: it has 1 to `most` characters from 33 to 126, and no `:`.
#[tactic(auto, unfolding(crate::specs::Names::is_new_name))]
pub(crate) fn is_new_name(most: usize, name: &[u8]) -> bool
    ensures accepted { result ≡ is_new_name most name.now }
{
    1 <= name.len()
        && name.len() <= most
        && name.iter().all(|c| 33 <= *c && *c <= 126 && *c != b':')
}

// Returns `name` as a directory stores it: a byte with the length, the characters in upper case, and zeros. The field
// of a volume's name is the first eight bytes of the result.
#[tactic(auto, unfolding(crate::specs::Names::name_field))]
pub(crate) fn name_field(name: &[u8]) -> [u8; 16]
    requires short { length name.now ≤ LONGEST_NAME }
    ensures field { result ≡ name_field LONGEST_NAME name.now }
{
    let mut field = [0; 16];
    field[0] = name.len() as u8;
    raise_into(&mut field[1..], name);
    field
}

// Writes the characters of `name`, in upper case, to the start of `field`.
fn raise_into(field: &mut [u8], name: &[u8])
    requires room { length name.now ≤ length field.old }
    ensures raised { field.new ≡ str_to_ascii_uppercase name.now ++ drop (length name.now) field.old }
{
    for i in 0..name.len() {
        field[i] = name[i].to_ascii_uppercase();
    }
}

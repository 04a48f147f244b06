//! Writing of code files.

ghost use Rattle.std.specs.Prelude.{All, ◌≡◌, ◌+◌, ◌-◌, ◌*◌, ◌%◌, ◌<◌, ◌≤◌, ◌++◌, length, replicate, slice_index_or};
ghost use Rattle.std.specs.Prelude.{sum, ℕ, [], IfOk, OnOk};
ghost use Rattle.byteorder.specs.Endian.{little_bytes};
ghost use Rattle.pm_codefile.specs.Layout.{blocks_for, layout, name_for, names_for};
ghost use Rattle.pm_codefile.specs.Layout.{in_blocks, block_padding, slot_pair, pairs};
ghost use Rattle.pm_codefile.specs.ReadBack.{ReadsBack};

use byteorder::{ByteOrder, LittleEndian};
use pm_bytes::BLOCK;
use std::alloc::{AllocError, Global};

const BLANK: [u8; 8] = [b' '; 8];

/// Returns a code file in the canonical layout. Slot n has the name `names[n]` and the length `lengths[n]` in bytes.
///
/// `segments` has the bytes of all segments, joined in the order of the slots. The sum of `lengths` must be the number
/// of these bytes.
///
/// In the file, the segments follow the dictionary in the order of their slots. Each segment begins at the next block,
/// and is padded with zeros to whole blocks. A slot with length 0 gets block 0 and a name of spaces. All kinds are 0.
/// If all 16 lengths are 0, the file is only the dictionary, 512 bytes.
#[tactic(auto, unfolding(crate::specs::Layout::layout))]
pub fn write(
    alloc: Global,
    names: &[[u8; 8]; 16],
    lengths: &[u16; 16],
    segments: &[u8],
) -> Result<Vec<u8>, AllocError>
    requires joined { sum lengths.now ≡ length segments.now }
    ensures layout { IfOk result (λ file. file.items ≡ layout names.now lengths.now segments.now) }
    ensures reads_back { All (λ n. n % 2 ≡ 0) lengths.now →
        IfOk result (λ file. ReadsBack names.now lengths.now segments.now file.items) }
{
    let mut file = Vec::new(alloc);
    put_pairs(&mut file, lengths)?;
    put_names(&mut file, names, lengths)?;
    put_zeros(&mut file, 320)?;
    put_segments(&mut file, lengths, segments)?;
    Ok(file)
}

// Appends `word` to `file`, the low byte first.
fn put_word(file: &mut Vec<u8>, word: u16) -> Result<(), AllocError>
    ensures added { OnOk result (file.new.items ≡ file.old.items ++ little_bytes 2 word) }
{
    let mut bytes = [0; 2];
    LittleEndian::write_u16(&mut bytes, word);
    file.extend_from_slice(&bytes)
}

// Appends `count` zeros to `file`.
fn put_zeros(file: &mut Vec<u8>, count: usize) -> Result<(), AllocError>
    ensures added { OnOk result (file.new.items ≡ file.old.items ++ replicate count 0) }
{
    for _done in 0..count {
        file.push(0)?;
    }
    Ok(())
}

// Returns the number of blocks that `count` bytes need.
fn blocks_for(count: u16) -> u16
    ensures blocks { result ≡ blocks_for count }
    ensures few { result ≤ 128 }
{
    pm_bytes::blocks_for(usize::from(count)) as u16
}

// Appends the block and the length of a slot whose segment has `count` bytes. If `count` is 0, the block is written as
// 0.
fn put_pair(file: &mut Vec<u8>, block: u16, count: u16) -> Result<(), AllocError>
    ensures added { OnOk result (file.new.items ≡ file.old.items ++ slot_pair block count) }
{
    put_word(file, if count == 0 { 0 } else { block })?;
    put_word(file, count)
}

// Appends the blocks and the lengths of the slots with the lengths `lengths`. The first segment is at block 1.
fn put_pairs(file: &mut Vec<u8>, lengths: &[u16]) -> Result<(), AllocError>
    requires few { length lengths.now ≤ 16 }
    ensures added { OnOk result (file.new.items ≡ file.old.items ++ pairs 1 lengths.now) }
{
    let mut block = 1;
    for count in lengths {
        put_pair(file, block, *count)?;
        block += blocks_for(*count);
    }
    Ok(())
}

// Appends the name of a slot whose segment has `count` bytes. If `count` is 0, the name is written as spaces.
fn put_name(file: &mut Vec<u8>, name: &[u8; 8], count: u16) -> Result<(), AllocError>
    ensures added { OnOk result (file.new.items ≡ file.old.items ++ name_for name.now count) }
    ensures eight { OnOk result (length name.now ≡ 8) }
{
    if count == 0 {
        return file.extend_from_slice(&BLANK);
    }
    file.extend_from_slice(name)
}

// Appends the names of the slots with the names `names` and the lengths `lengths`.
fn put_names(file: &mut Vec<u8>, names: &[[u8; 8]], lengths: &[u16]) -> Result<(), AllocError>
    requires each { length names.now ≡ length lengths.now }
    ensures added { OnOk result (file.new.items ≡ file.old.items ++ names_for names.now lengths.now) }
    ensures eight { OnOk result ((k : ℕ) → k < length names.now → length (slice_index_or names.now k []) ≡ 8) }
{
    for n in 0..names.len() {
        put_name(file, &names[n], lengths[n])?;
    }
    Ok(())
}

// Appends `segment`, padded with zeros to whole blocks.
fn put_segment(file: &mut Vec<u8>, segment: &[u8]) -> Result<(), AllocError>
    requires size { length segment.now < 65536 }
    ensures added { OnOk result (file.new.items ≡ file.old.items
        ++ (segment.now ++ block_padding (length segment.now))) }
{
    file.extend_from_slice(segment)?;
    let count = segment.len();
    put_zeros(file, BLOCK * pm_bytes::blocks_for(count) - count)
}

// Appends the segments with the lengths `lengths`, each padded with zeros to whole blocks. `segments` has their joined
// bytes.
fn put_segments(file: &mut Vec<u8>, lengths: &[u16], segments: &[u8]) -> Result<(), AllocError>
    requires joined { sum lengths.now ≡ length segments.now }
    ensures added { OnOk result (file.new.items ≡ file.old.items ++ in_blocks lengths.now segments.now) }
{
    let mut rest = segments;
    for count in lengths {
        let (segment, left) = rest.split_at(usize::from(*count));
        put_segment(file, segment)?;
        rest = left;
    }
    Ok(())
}

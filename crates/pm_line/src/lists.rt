//! Parsing of lists of operands of the same kind.

ghost use Rattle.std.specs.Prelude.{◌≡◌, length, map, option_map, IfOk};
ghost use Rattle.pm_code.specs.Item.Item.{OneByte};
ghost use Rattle.pm_source.specs.Line.{all_operands, byte_operand, flat_words, label_operand, word_operand};
ghost use Rattle.pm_line.specs.Views.{items_seen, labels_seen, operand_seen, texts_seen, vec_seen};

use crate::operand::{byte_operand, label_operand, word_operand};
use pm_code::Item;
use std::alloc::{AllocError, Global};

/// Parses the operands `texts`, which are words. Returns their values and whether all are in range. Returns `None` if
/// an operand is malformed.
#[tactic(auto, using(crate::proofs::Onto::onto_more, crate::proofs::Onto::onto_none))]
pub(crate) fn word_operands(
    alloc: Global,
    texts: &[&[u8]],
) -> Result<Option<(Vec<u16>, bool)>, AllocError>
    ensures operands { IfOk result (λ list. operand_seen vec_seen list
        ≡ all_operands word_operand (texts_seen texts.now)) }
{
    let mut words = Vec::new(alloc);
    let mut in_range = true;
    for text in texts {
        let Some((word, good)) = word_operand(text) else {
            return Ok(None);
        };
        words.push(word)?;
        in_range = in_range && good;
    }
    Ok(Some((words, in_range)))
}

/// Parses the operands `texts`, which are bytes. Returns their values and whether all are in range. Returns `None` if
/// an operand is malformed.
#[tactic(auto, using(crate::proofs::Onto::onto_more, crate::proofs::Onto::onto_none))]
pub(crate) fn byte_operands(
    alloc: Global,
    texts: &[&[u8]],
) -> Result<Option<(Vec<u8>, bool)>, AllocError>
    ensures operands { IfOk result (λ list. operand_seen vec_seen list
        ≡ all_operands byte_operand (texts_seen texts.now)) }
{
    let mut bytes = Vec::new(alloc);
    let mut in_range = true;
    for text in texts {
        let Some((byte, good)) = byte_operand(text) else {
            return Ok(None);
        };
        bytes.push(byte)?;
        in_range = in_range && good;
    }
    Ok(Some((bytes, in_range)))
}

/// Parses the operands `texts`, which are labels. Returns them and true, because labels are always in range. Returns
/// `None` if an operand is malformed.
#[tactic(auto, using(crate::proofs::Onto::onto_more, crate::proofs::Onto::onto_none))]
pub(crate) fn label_operands<'a>(
    alloc: Global,
    texts: &[&'a [u8]],
) -> Result<Option<(Vec<&'a [u8]>, bool)>, AllocError>
    ensures operands { IfOk result (λ list. operand_seen labels_seen list
        ≡ all_operands label_operand (texts_seen texts.now)) }
{
    let mut labels = Vec::new(alloc);
    let mut in_range = true;
    for text in texts {
        let Some((label, good)) = label_operand(text) else {
            return Ok(None);
        };
        labels.push(label)?;
        in_range = in_range && good;
    }
    Ok(Some((labels, in_range)))
}

/// Returns the bytes of the items of `words`, the low byte of each word first.
pub(crate) fn flat_words(alloc: Global, words: &[u16]) -> Result<Vec<u8>, AllocError>
    ensures bytes { IfOk result (λ bytes. bytes.items ≡ flat_words words.now) }
{
    let mut bytes = Vec::new(alloc);
    for word in words {
        bytes.push((*word % 256) as u8)?;
        bytes.push((*word / 256) as u8)?;
    }
    Ok(bytes)
}

/// Returns a list with one item for each byte of `bytes`.
pub(crate) fn byte_items<'a>(alloc: Global, bytes: &[u8]) -> Result<Vec<Item<&'a [u8]>>, AllocError>
    ensures items { IfOk result (λ items. items_seen items ≡ map OneByte bytes.now) }
{
    let mut items = Vec::with_capacity(alloc, bytes.len())?;
    for byte in bytes {
        items.push(Item::OneByte(*byte))?;
    }
    Ok(items)
}

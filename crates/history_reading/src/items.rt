//! The rows of listings, each a word.
ghost use Rattle.std.specs.Prelude.{◌≡◌, map};
ghost use Rattle.history_reading.specs.Reading.{extent_item_of, fileset_item_of, name_item_of, original_of, volume_item_of, volume_of};
ghost use Rattle.script_text.specs.word_forms.Read.{Gives};

use script_text::from_word_forms::name;
use script_text::{
    ExtentItem, FilesetItem, FilesetName, NameItem, VolumeItem, WordFault, fileset, halves,
    has_byte, parts, small_number,
};
use std::alloc::Global;

/// A name, followed by a `/` if it is a directory's.
#[tactic(auto, unfolding(crate::specs::Reading::name_item_of))]
pub fn name_item(alloc: Global, word: &[u8]) -> Result<NameItem, WordFault>
    ensures { Gives result (name_item_of word.now) }
{
    let name = name(alloc, halves(word, b'/').0)?;
    Ok(NameItem {
        name,
        directory: has_byte(word, b'/'),
    })
}

/// The original of a clone, after a `<`.
#[tactic(auto, unfolding(crate::specs::Reading::original_of))]
fn original(alloc: Global, word: &[u8]) -> Result<Option<FilesetName>, WordFault>
    ensures { Gives result (original_of word.now) }
{
    if !has_byte(word, b'<') {
        return Ok(None);
    }
    let name = fileset(alloc, halves(word, b'<').1)?;
    Ok(Some(name))
}

/// A fileset, followed by its original if it is a clone.
#[tactic(auto, unfolding(crate::specs::Reading::fileset_item_of))]
pub fn fileset_item(alloc: Global, word: &[u8]) -> Result<FilesetItem, WordFault>
    ensures { Gives result (fileset_item_of word.now) }
{
    let fileset = fileset(alloc, halves(word, b'<').0)?;
    let original = original(alloc, word)?;
    Ok(FilesetItem { fileset, original })
}

/// A volume by the parts of its word.
#[tactic(auto, unfolding(crate::specs::Reading::volume_of))]
fn volume(words: &[&[u8]]) -> Option<VolumeItem>
    ensures { result ≡ volume_of (map (λ word. word.now) words.now) }
{
    let [vol, pages, used, free, flag] = words else {
        return None;
    };
    Some(VolumeItem {
        vol: small_number(vol)?,
        pages: small_number(pages)?,
        used: small_number(used)?,
        free: small_number(free)?,
        has_log: has_byte(flag, b'L'),
        closed: has_byte(flag, b'C'),
    })
}

/// A volume's number, its pages, the used and the free ones, and a flag, with `:` between them.
pub fn volume_item(alloc: Global, word: &[u8]) -> Result<VolumeItem, WordFault>
    ensures { Gives result (volume_item_of word.now) }
{
    let words = parts(alloc, word, b':')?;
    volume(words.as_slice()).ok_or(WordFault::Malformed)
}

/// A page, after a `+` the number of pages, after an `@` the volume, and after a `:` the page of
/// that volume.
#[tactic(auto, unfolding(crate::specs::Reading::extent_item_of))]
pub fn extent_item(word: &[u8]) -> Option<ExtentItem>
    ensures { result ≡ extent_item_of word.now }
{
    let (page, behind_page) = halves(word, b'+');
    let (count, behind_count) = halves(behind_page, b'@');
    let (vol, first) = halves(behind_count, b':');
    Some(ExtentItem {
        page: small_number(page)?,
        count: small_number(count)?,
        vol: small_number(vol)?,
        first: small_number(first)?,
    })
}

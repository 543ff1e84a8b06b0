//! Labels of both versions, and where the first pages of a volume stand.

use crate::telling::push_numbers;
use disk_label::{FirstPages, Label, Rack, Version, VolIx, read_label, usable_pages, write_label};
use table_words::{Told, Words};

fn version_of(number: u32) -> Version {
    if number == 3 {
        Version::Three
    } else {
        Version::Four
    }
}

/// Writes a label for `pages` pages if its conditions hold, and reads it.
fn labelled<R: Rack>(rack: &mut R, vol: u32, pages: u32, version: Version) -> Option<Label> {
    let vol = VolIx::new(vol)?;
    let most = usable_pages(rack, vol, version);
    if vol.number() > rack.volumes() || pages < 1 || pages > most {
        return None;
    }
    match write_label(rack, vol, pages, version) {
        Ok(()) => read_label(rack, vol).unwrap_or(None),
        Err(_) => None,
    }
}

/// Whether a label that numbers say is read again once it is written: the volume, its pages and the
/// version.
pub fn is_labelled<R: Rack>(rack: &mut R, words: &mut Words) -> bool {
    let (vol, pages) = (words.number_if_any(' '), words.number_if_any(' '));
    let version = version_of(words.number_if_any(' '));
    labelled(rack, vol, pages, version) == Some(Label { pages, version })
}

/// Tells the first pages of a volume by its version and its number of pages.
pub fn first_pages(words: &mut Words, told: &mut Told) {
    let version = version_of(words.number_if_any(' '));
    let first = FirstPages::of(version, words.number_if_any(' '));
    let pages = [
        first.label,
        first.anchors,
        first.bitmap,
        first.cells,
        first.log,
        first.table,
    ];
    push_numbers(told, &pages.map(u64::from));
}

//! What a row asks: the name of an image of the table, the number of the read that fails, and words
//! for what is brought.
use crate::loading::tell_loaded;
use image_lines::{Asking, Image, Told, Words, image_of};
use std::alloc::Global;

/// Answers rows about what is brought.
pub(crate) struct Loads;

/// Adds lines with semicolons between them: those that begin with `held` to an image whose pages
/// are held in memory, and the others to one that stands on a rack.
fn add(lines: &str, image: &mut Image, held: &mut Image) {
    for line in lines.split("; ") {
        match line.strip_prefix("held ") {
            Some(line) => held.add(line),
            None => image.add(line),
        }
    }
}

impl Asking for Loads {
    fn tell(&self, alloc: Global, table: &str, front: &mut Words, lines: &str, told: &mut Told) {
        let mut image = image_of(alloc, table, front.until(' '));
        let mut held = Image::new(alloc);
        add(lines, &mut image, &mut held);
        tell_loaded(alloc, front, &image, &mut held.pages, told);
        told.check(image.is_right() && held.is_right());
    }
}

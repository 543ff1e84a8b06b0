//! What a row asks: a word for what is asked, the name of an image of the table, and numbers.
use crate::given::Given;
use crate::pages::tell;
use image_lines::{Asking, Told, Words, image_of};
use std::alloc::Global;

/// Answers rows about faults.
pub(crate) struct Faults;

impl Asking for Faults {
    fn tell(&self, alloc: Global, table: &str, front: &mut Words, lines: &str, told: &mut Told) {
        let asked = front.until(' ');
        let image = image_of(alloc, table, front.until(' '));
        match Given::read(alloc, image, lines) {
            Some(given) => tell(alloc, asked, front, &given, told),
            None => told.check(false),
        }
    }
}

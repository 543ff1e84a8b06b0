//! What a row asks: a word for what is asked, the name of an image of the table, and more words.
use crate::attached::tell_attached;
use crate::brought::tell_brought;
use crate::faults::tell_faults;
use crate::fetched::{tell_fetched, tell_zeros};
use crate::left::{tell_left, tell_quotas};
use crate::meant::tell_meaning;
use image_lines::{Asking, Image, Told, Words, image_of};
use std::alloc::Global;

/// Answers rows about whole images.
pub(crate) struct Images;

/// Tells the faults of an image by all its pages and by those that are brought, which are the same.
fn tell_twice(alloc: Global, image: &mut Image, told: &mut Told) {
    let mut brought = Told::new(alloc);
    tell_brought(alloc, image, &mut brought);
    tell_faults(alloc, image, told);
    if told.text() != brought.text() {
        told.push("but brought\n");
        told.push(brought.text());
    }
    told.check(brought.is_right());
}

/// Tells what is asked of an image.
fn tell(alloc: Global, asked: &str, words: &mut Words, image: &mut Image, told: &mut Told) {
    match asked {
        "faults" => tell_twice(alloc, image, told),
        "meaning" => tell_meaning(alloc, image, told),
        "domain" => tell_fetched(alloc, image, told),
        "domain-of-zeros" => tell_zeros(alloc, words, told),
        "attached" => tell_attached(alloc, image, told),
        "left" => tell_left(alloc, image, told),
        "quotas" => tell_quotas(alloc, image, told),
        _ => told.check(false),
    }
}

impl Asking for Images {
    fn tell(&self, alloc: Global, table: &str, front: &mut Words, lines: &str, told: &mut Told) {
        let asked = front.until(' ');
        let mut image = image_of(alloc, table, front.until(' '));
        image.add_parts(lines);
        tell(alloc, asked, front, &mut image, told);
        told.check(image.is_right());
    }
}

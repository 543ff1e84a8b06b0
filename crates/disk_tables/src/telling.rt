//! What lines of calls tell.
use table_words::Told;

/// Tells a number after a space.
pub fn push_number(told: &mut Told, number: u64) {
    told.push(" ");
    told.push_number(number);
}

/// Tells numbers, after a colon.
pub fn push_numbers(told: &mut Told, numbers: &[u64]) {
    told.push(":");
    for number in numbers {
        push_number(told, *number);
    }
}

/// Tells whether each of some things is the case, after a colon.
pub fn push_whether(told: &mut Told, all: &[bool]) {
    told.push(":");
    for is_so in all {
        told.push(if *is_so { " yes" } else { " no" });
    }
}

//! Lines of calls: a word, and numbers after it.

use std::alloc::Global;
use std::test::Fail;

/// The first word of a line, which is empty if the line has none.
pub fn word_of(line: &str) -> &str {
    line.split_whitespace().next().unwrap_or("")
}

/// What follows the first word of a line.
pub fn rest_of(line: &str) -> &str {
    match line.split_once(' ') {
        Some((_, rest)) => rest,
        None => "",
    }
}

/// The numbers after the first word of a line.
pub fn numbers_of(alloc: Global, line: &str) -> Result<Vec<u64>, Fail> {
    let mut numbers = Vec::new(alloc);
    for word in line.split_whitespace().skip(1) {
        numbers.push(word.parse()?)?;
    }
    Ok(numbers)
}

/// The number at a place; 0 if there are fewer.
pub fn at(numbers: &[u64], place: usize) -> u64 {
    numbers.get(place).copied().unwrap_or(0)
}

/// The number at a place, in 32 bits.
pub fn small(numbers: &[u64], place: usize) -> u32 {
    u32::try_from(at(numbers, place)).unwrap_or(u32::MAX)
}

/// The number at a place, in a byte.
pub fn byte(numbers: &[u64], place: usize) -> u8 {
    u8::try_from(at(numbers, place)).unwrap_or(u8::MAX)
}

/// The numbers from a place on, in 32 bits.
pub fn all_small(alloc: Global, numbers: &[u64], from: usize) -> Result<Vec<u32>, Fail> {
    let mut all = Vec::new(alloc);
    for place in from..numbers.len() {
        all.push(small(numbers, place))?;
    }
    Ok(all)
}

/// Says numbers, after a colon.
pub fn say_numbers(out: &mut String, numbers: &[u64]) -> Result<(), Fail> {
    out.push(':')?;
    for number in numbers {
        write!(out, " {number}")?;
    }
    Ok(())
}

/// Says whether each of some things is the case, after a colon.
pub fn say_whether(out: &mut String, all: &[bool]) -> Result<(), Fail> {
    out.push(':')?;
    for is_so in all {
        out.push_str(if *is_so { " yes" } else { " no" })?;
    }
    Ok(())
}

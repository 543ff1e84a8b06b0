//! Random calls of a quota book. Twenty calls stand in a row: c charges, r refunds, x may not be
//! refunded, l limits a user, k keeps the book, and b takes it back. After them stands what three
//! users, three groups and the fileset use then, each with its limit.

use crate::quotas::{charge, refund};
use crate::random::{Random, two_numbers};
use fileset_table::{Limits, OutOfMemory, Owner, Usage};
use quota_book::QuotaBook;
use std::alloc::Global;

/// Limits a user.
fn limit(book: &mut QuotaBook, uid: u32, numbers: &Usage) -> Option<()> {
    let limits = Limits {
        files: numbers.files,
        blocks: numbers.blocks,
    };
    book.set_limits(Owner::User(uid), limits).ok()
}

/// A random call, and the letter for it.
fn step(random: &mut Random, book: &mut QuotaBook) -> Option<char> {
    let (uid, gid) = (random.next() % 3, random.next() % 3);
    let numbers = Usage {
        files: (random.next() % 3) as u64,
        blocks: (random.next() % 3 * 16) as u64,
    };
    match random.next() % 8 {
        0 | 1 | 2 => charge(book, uid, gid, &numbers).map(|_| 'c'),
        3 | 4 => Some(refund(book, uid, gid, &numbers).map_or('x', |_| 'r')),
        5 => limit(book, uid, &numbers).map(|_| 'l'),
        6 => {
            book.keep();
            Some('k')
        }
        _ => {
            book.take_back();
            Some('b')
        }
    }
}

/// The first three are users, the next three groups, and the others the fileset.
fn owner_at(number: u32) -> Owner {
    match number {
        0..=2 => Owner::User(number),
        3..=5 => Owner::Group(number - 3),
        _ => Owner::Fileset,
    }
}

/// Adds what an owner uses, each with its limit.
fn push_owner(book: &QuotaBook, who: Owner, out: &mut String) -> Result<(), OutOfMemory> {
    let usage = book.usage(who);
    let limits = book.limits(who);
    write!(out, " {}/{}", usage.files, limits.files)?;
    write!(out, " {}/{},", usage.blocks, limits.blocks)
}

/// Adds what all owners use.
fn push_owners(book: &QuotaBook, out: &mut String) -> Result<(), OutOfMemory> {
    for number in 0..7 {
        push_owner(book, owner_at(number), out)?;
    }
    out.push('\n')
}

/// Makes `calls` calls, and says what they leave.
fn push_calls(
    random: &mut Random,
    book: &mut QuotaBook,
    calls: u32,
    out: &mut String,
) -> Option<()> {
    for call in 0..calls {
        out.push(step(random, book)?).ok()?;
        if call % 20 == 19 {
            push_owners(book, out).ok()?;
        }
    }
    Some(())
}

/// Says what random calls of a book leave: a line has the seed and the number of calls.
pub fn random_books(alloc: Global, line: &str, out: &mut String) -> Option<()> {
    let (seed, calls) = two_numbers(line)?;
    let mut random = Random { state: seed };
    let mut book = QuotaBook::new(alloc);
    push_calls(&mut random, &mut book, calls, out)
}

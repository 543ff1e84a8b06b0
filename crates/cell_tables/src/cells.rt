//! Chains of cells on pages that were written by hand. `page` puts bytes on a page, `head` and
//! `chain` read a cell, `write` writes one, and `bytes` tells those of a page.

use crate::blocks::{is_idle, push_answer};
use crate::lines::{cell_of, home_of, push_chain, push_head, push_page, put_line};
use crate::writing::write;
use free_cells::{CellAt, MemoryPages, read_head};
use std::alloc::Global;
use table_words::{Told, Words};

/// Tells the head of a cell.
fn tell_head(told: &mut Told, pages: &MemoryPages, at: CellAt) {
    match read_head(pages, at) {
        Some(head) => push_head(told, &head),
        None => told.push("nothing"),
    }
}

/// Does what a line says.
fn call(alloc: Global, pages: &mut MemoryPages, line: &str, told: &mut Told) {
    let mut words = Words::new(line);
    match words.until(' ') {
        "page" => put_line(alloc, pages, &mut words),
        "write" => write(alloc, pages, &mut words),
        "head" => tell_head(told, pages, cell_of(&mut words)),
        "chain" => push_chain(alloc, told, pages, cell_of(&mut words)),
        "bytes" => push_page(told, pages, &home_of(&mut words)),
        _ => words.check(false),
    }
    told.check(words.is_right());
}

/// Tells lines of pages and readings, with what they answer.
pub fn push_cells(alloc: Global, told: &mut Told, lines: &str) {
    let mut pages = MemoryPages::new(alloc);
    for line in lines.lines() {
        let mut answer = Told::new(alloc);
        if !is_idle(line) {
            call(alloc, &mut pages, line, &mut answer);
        }
        push_answer(told, line, &answer);
    }
}

//! Racks of files of the operating system, in the folder in which the program runs.

use crate::telling::push_numbers;
use disk_label::OutOfMemory;
use memory_disk::FileRack;
use std::alloc::Global;
use std::fs::{File, OpenOptions};
use std::os::unix::fs::FileExt;
use std::{fs, io};
use table_words::{Told, Words};

/// A new file of `pages` pages of zeros.
fn new_file(rt: &HostRuntime, path: &str, pages: u32) -> io::Result<File> {
    let _ = fs::remove_file(rt, path);
    let file = OpenOptions::new()
        .read(true)
        .write(true)
        .create_new(true)
        .open(rt, path)?;
    file.set_len(8_192 * u64::from(pages))?;
    Ok(file)
}

/// A rack of two files, of 64 and 65 pages.
fn rack_of(alloc: Global, first: File, second: File) -> Result<FileRack, OutOfMemory> {
    let mut files = Vec::new(alloc);
    files.push(first)?;
    files.push(second)?;
    let mut sizes = Vec::new(alloc);
    sizes.push(64)?;
    sizes.push(65)?;
    Ok(FileRack::new(files, sizes))
}

/// A rack of two files, whose numbers of pages words say. The second can be written only if the
/// last number is 1.
pub fn files(rt: &HostRuntime, words: &mut Words) -> Option<FileRack> {
    let (first, second) = (words.number_if_any(' '), words.number_if_any(' '));
    let first = new_file(rt, "first", first).ok()?;
    let mut second = new_file(rt, "second", second).ok()?;
    if words.long_if_any(' ') != 1 {
        second = File::open(rt, "second").ok()?;
    }
    rack_of(rt.alloc(), first, second).ok()
}

/// The device that takes what is written and keeps nothing of it, and that cannot be synced.
fn null(rt: &HostRuntime) -> io::Result<File> {
    OpenOptions::new()
        .read(true)
        .write(true)
        .open(rt, "/dev/null")
}

/// A rack of two of these devices.
pub fn nulls(rt: &HostRuntime) -> Option<FileRack> {
    let first = null(rt).ok()?;
    let second = null(rt).ok()?;
    rack_of(rt.alloc(), first, second).ok()
}

/// Tells four bytes of a rack's second file.
pub fn tell_bytes(rack: FileRack, from: u64, told: &mut Told) {
    let mut bytes = [9; 4];
    if let Some(file) = rack.into_files().get(1) {
        told.check(file.read_exact_at(&mut bytes, from).is_ok());
    }
    push_numbers(told, &bytes.map(u64::from));
}

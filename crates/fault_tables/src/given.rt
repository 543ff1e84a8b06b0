//! What a row gives: a domain, and files and directories that are said to be there.
use crate::files::file_of;
use image_lines::{Image, frame_of};
use index_row_faults::{
    DomainFrame, FileThere, FilesetTable, Home, OutOfMemory, TableRead, VolIx, read_table,
};
use std::alloc::Global;

/// The pages of a domain, its anchor, what its fileset table says, and files and directories.
#[derive(Drop)]
pub(crate) struct Given {
    pub image: Image,
    pub frame: DomainFrame,
    pub table: FilesetTable,
    pub files: Vec<FileThere>,
}

/// A page of volume 1.
pub(crate) fn home(page: u32) -> Home {
    Home {
        vol: VolIx::new(1).unwrap(),
        page,
    }
}

/// The fileset table of an image, or one without filesets if it says none.
fn table_of(alloc: Global, image: &Image) -> Result<FilesetTable, OutOfMemory> {
    match read_table(alloc, &image.pages, &frame_of(image))? {
        TableRead::There { table } => Ok(table),
        _ => FilesetTable::new(alloc),
    }
}

/// Adds a file or directory that a line tells; whether it is one, and memory sufficed.
fn is_file_added(alloc: Global, line: &str, files: &mut Vec<FileThere>) -> bool {
    match file_of(alloc, line) {
        Some(file) => files.push(file).is_ok(),
        None => false,
    }
}

/// Adds what lines tell that have semicolons between them: files and directories, or something of
/// the image. Whether all was right.
fn is_read(alloc: Global, lines: &str, image: &mut Image, files: &mut Vec<FileThere>) -> bool {
    let mut is_right = true;
    for line in lines.split("; ") {
        match line.strip_prefix("there ") {
            Some(file) => is_right = is_file_added(alloc, file, files) && is_right,
            None => image.add_parts(line),
        }
    }
    is_right && image.is_right()
}

impl Given {
    /// What an image gives that is changed by lines with semicolons between them; None if something
    /// is wrong with them, or memory is short.
    pub(crate) fn read(alloc: Global, mut image: Image, lines: &str) -> Option<Given> {
        let mut files = Vec::new(alloc);
        if !is_read(alloc, lines, &mut image, &mut files) {
            return None;
        }
        match table_of(alloc, &image) {
            Ok(table) => Some(Given {
                frame: frame_of(&image),
                table,
                image,
                files,
            }),
            Err(_) => None,
        }
    }
}

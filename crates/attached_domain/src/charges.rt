//! What the files and directories of a fileset count for.
ghost use Rattle.std.specs.Prelude.{◌≡◌, ◌≤◌, IsTrue, OnOk, length};
ghost use Rattle.no_faults.specs.domain_base.Limits.{file_pages};
ghost use Rattle.no_faults.specs.filesets_reading.Seen.{HasFewHomes};
ghost use Rattle.no_faults.specs.quota_book.Book.{IsBelow, used};
ghost use Rattle.attached_domain.specs.Counted.{Counts, CountsAll, HaveFewHomes, blocks_there, pages_there};

use no_faults::from_domain_base::limits::BLOCKS_PER_PAGE;
use no_faults::{Home, Kind, OutOfMemory, Owner, QuotaBook, Tag, TaggedFile};

/// The tag of the root, which counts for nobody.
const ROOT: Tag = Tag { slot: 1, seq: 1 };

/// How many pages of a file are there.
fn count_pages(homes: &[Option<Home>]) -> u64
    requires { length homes.now ≤ file_pages }
    ensures count { result ≡ pages_there homes.now }
    ensures few { result ≤ file_pages }
{
    let mut count = 0;
    for home in homes {
        if home.is_some() {
            count += 1;
        }
    }
    count
}

/// How many blocks of 512 bytes the pages of a file take; the pages of a directory count for none.
fn count_blocks(file: &TaggedFile) -> u64
    requires { HasFewHomes file.now.seen }
    ensures { result ≡ blocks_there file.now }
{
    match file.seen.is.kind {
        Kind::Directory => 0,
        Kind::File => u64::from(BLOCKS_PER_PAGE) * count_pages(file.seen.homes.as_slice()),
    }
}

/// Whether what an owner uses stays below 2^64 with one more file and `blocks` more blocks.
fn fits(book: &QuotaBook, who: Owner, blocks: u64) -> bool
    ensures { IsTrue result → IsBelow 1 blocks (used book.now.book who) }
{
    let usage = book.usage(who);
    usage.files < u64::MAX && blocks <= u64::MAX - usage.blocks
}

/// Adds what a file or directory counts to what its user, its group and the fileset use.
fn charge_file(book: &mut QuotaBook, file: &TaggedFile) -> Result<(), OutOfMemory>
    requires { HasFewHomes file.now.seen }
    ensures { OnOk result (Counts file.now book.old.book book.new.book) }
{
    if file.tag == ROOT {
        return Ok(());
    }
    let uid = file.seen.is.uid;
    let gid = file.seen.is.gid;
    let blocks = count_blocks(file);
    if !fits(book, Owner::User(uid), blocks)
        || !fits(book, Owner::Group(gid), blocks)
        || !fits(book, Owner::Fileset, blocks)
    {
        return Err(OutOfMemory);
    }
    book.charge(uid, gid, 1, blocks)
}

/// Adds what files and directories count. Fails only if memory runs out, or if a sum is 2^64 or
/// more, for which no domain has the pages.
pub(crate) fn charge_files(book: &mut QuotaBook, files: &[TaggedFile]) -> Result<(), OutOfMemory>
    requires { HaveFewHomes files.now }
    ensures { OnOk result (CountsAll files.now book.old.book book.new.book) }
{
    for file in files {
        charge_file(book, file)?;
    }
    Ok(())
}

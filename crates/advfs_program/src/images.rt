//! Images: files of the operating system that are opened as the volumes of a rack.
ghost use Rattle.std.specs.Prelude.{◌≡◌, ◌+◌, ◌≤◌, IfOk, OnErr, OnOk, length, vec_len};

use advfs_run::limits::{BLOCK_BYTES, BLOCKS_PER_PAGE, MAX_VOLUMES, PAGE_BYTES};
use advfs_run::{FileRack, OutOfMemory};
use std::alloc::Global;
use std::fs::{self, File, Metadata, OpenOptions, TryLockError};
use std::io::{Seek, SeekFrom};
use std::os::unix::fs::{FileExt, FileTypeExt, MetadataExt};
use std::rt::Files;
use std::{fmt, io};

/// The byte with which a block of an image begins.
fn first_byte(block: u32) -> u64 {
    BLOCK_BYTES as u64 * u64::from(block)
}

/// What a program does with images.
#[derive(Clone, Copy, Debug, PartialEq, Eq)]
pub enum Access {
    /// It only reads them. Other programs may read them, too.
    Reads,
    /// It writes them. No other program may use them meanwhile.
    Writes,
}

/// Why a file is not taken as an image.
#[derive(Debug, Drop)]
pub enum ImageFault {
    /// It cannot be opened.
    Closed(io::Error),
    /// It is a directory.
    Directory,
    /// It is a pipe, a socket or a character device, whose bytes have no places.
    Stream,
    /// Another program uses it.
    InUse,
    /// The operating system gives no lock on it.
    NotLocked(io::Error),
    /// It is the same file as an image before it.
    Twice,
    /// There are eight images already, and a domain has at most eight volumes.
    TooMany,
    /// There was no memory for it.
    OutOfMemory,
}

impl fmt::Display for ImageFault {
    fn fmt<W: fmt::Write>(&self, f: &mut fmt::Formatter<W>) -> fmt::Result {
        match self {
            ImageFault::Closed(error) => write!(f, "cannot be opened: {error}"),
            ImageFault::Directory => f.write_str("cannot be opened: it is a directory"),
            ImageFault::Stream => {
                f.write_str("cannot be opened: it is neither a file nor a block device")
            }
            ImageFault::InUse => f.write_str("cannot be opened: another program uses it"),
            ImageFault::NotLocked(error) => write!(f, "cannot be locked: {error}"),
            ImageFault::Twice => f.write_str("cannot be opened: it is named twice"),
            ImageFault::TooMany => f.write_str(
                "cannot be opened: a domain has at most eight volumes",
            ),
            ImageFault::OutOfMemory => f.write_str("cannot be opened: out of memory"),
        }
    }
}

/// What the operating system answered, or why the file is not opened.
fn known<T: Drop>(answer: io::Result<T>) -> Result<T, ImageFault> {
    match answer {
        Ok(known) => Ok(known),
        Err(error) => Err(ImageFault::Closed(error)),
    }
}

/// Which file an image is, whatever its name.
#[derive(Clone, Copy, PartialEq, Eq)]
struct Identity {
    device: u64,
    number: u64,
}

impl Identity {
    /// That of a file with this metadata; that of a block device is its own number.
    fn of(metadata: &Metadata) -> Identity {
        if metadata.file_type().is_block_device() {
            return Identity {
                device: metadata.rdev(),
                number: 0,
            };
        }
        Identity {
            device: metadata.dev(),
            number: metadata.ino(),
        }
    }
}

/// Refuses what has no bytes at places.
fn check_kind(metadata: &Metadata) -> Result<(), ImageFault> {
    if metadata.is_dir() {
        return Err(ImageFault::Directory);
    }
    if metadata.is_file() || metadata.file_type().is_block_device() {
        return Ok(());
    }
    Err(ImageFault::Stream)
}

/// Opens a file, and takes a lock on it: one that others may have too if it is only read, else one
/// that no other has. The lock is held as long as the file is open.
fn open_locked(
    rt: &impl Files<File = File>,
    name: &str,
    access: Access,
) -> Result<File, ImageFault> {
    let writes = access == Access::Writes;
    let file = known(OpenOptions::new().read(true).write(writes).open(rt, name))?;
    let locked = match access {
        Access::Reads => file.try_lock_shared(),
        Access::Writes => file.try_lock(),
    };
    match locked {
        Ok(()) => Ok(file),
        Err(TryLockError::WouldBlock) => Err(ImageFault::InUse),
        Err(TryLockError::Error(error)) => Err(ImageFault::NotLocked(error)),
    }
}

/// How many bytes an open file has; of a block device the metadata do not tell it.
fn size_of(file: &mut File, metadata: &Metadata) -> io::Result<u64> {
    if metadata.file_type().is_block_device() {
        return file.seek(SeekFrom::End(0));
    }
    Ok(metadata.len())
}

/// What the label of an image says.
#[derive(Clone, Copy, Debug, PartialEq, Eq)]
pub struct ImageLabel {
    /// The version of the layout in which it was made.
    pub version: u32,
    /// Its number among the volumes of its domain, from 1.
    pub number: u32,
    /// How many of its pages the domain uses.
    pub pages: u32,
    /// The pages of its bitmap.
    pub bitmap_pages: u32,
}

/// The bytes with which a label begins.
const LABEL: &[u8; 8] = b"ADVFSLAB";

/// The bytes of a label that are read.
const LABEL_BYTES: usize = 24;

/// What the label at the start of a file says; None if there is none.
pub fn label_of(file: &File) -> io::Result<Option<ImageLabel>> {
    let mut bytes = [0; LABEL_BYTES];
    file.read_exact_at(&mut bytes, 0)?;
    if !bytes.starts_with(LABEL) {
        return Ok(None);
    }
    Ok(Some(ImageLabel {
        version: u32::from_le_bytes([bytes[8], bytes[9], bytes[10], bytes[11]]),
        number: u32::from_le_bytes([bytes[12], bytes[13], bytes[14], bytes[15]]),
        pages: u32::from_le_bytes([bytes[16], bytes[17], bytes[18], bytes[19]]),
        bitmap_pages: u32::from_le_bytes([bytes[20], bytes[21], bytes[22], bytes[23]]),
    }))
}

/// The first block of a volume's bitmap.
const BITMAP_BLOCK: u32 = 2 * BLOCKS_PER_PAGE;

/// How many of the first `count` bits of a byte are 0, the lowest bit first.
fn zero_bits(byte: u8, count: u32) -> u32 {
    let mut zeros: u32 = 0;
    for bit in 0..count.min(8) {
        if byte >> bit & 1 == 0 {
            zeros = zeros.saturating_add(1);
        }
    }
    zeros
}

/// How many of the first `count` bits of a block are 0.
fn zeros_in(bytes: &[u8; BLOCK_BYTES], count: u32) -> u32 {
    let mut zeros: u32 = 0;
    let mut left = count;
    for byte in bytes.iter() {
        zeros = zeros.saturating_add(zero_bits(*byte, left));
        left = left.saturating_sub(8);
    }
    zeros
}

/// The bits of a block.
const BLOCK_BITS: u32 = 8 * BLOCK_BYTES as u32;

/// How many of the first `pages` pages of a volume its bitmap says to be free.
pub fn free_pages(file: &File, pages: u32) -> io::Result<u32> {
    let mut free: u32 = 0;
    let mut bytes = [0; BLOCK_BYTES];
    for block in 0..pages.div_ceil(BLOCK_BITS) {
        let left = pages.saturating_sub(block.saturating_mul(BLOCK_BITS));
        file.read_exact_at(&mut bytes, first_byte(block.saturating_add(BITMAP_BLOCK)))?;
        free = free.saturating_add(zeros_in(&bytes, left));
    }
    Ok(free)
}

/// A file that is open as a volume. Only its whole pages count.
#[derive(Drop)]
pub struct Image {
    file: File,
    pages: u32,
    identity: Identity,
}

impl Image {
    /// Opens a file as an image, locked against what other programs must not do meanwhile.
    fn open(rt: &impl Files<File = File>, name: &str, access: Access) -> Result<Image, ImageFault> {
        let mut file = open_locked(rt, name, access)?;
        let metadata = known(file.metadata())?;
        let bytes = known(size_of(&mut file, &metadata))?;
        let pages = u32::try_from(bytes / PAGE_BYTES as u64).unwrap_or(u32::MAX);
        Ok(Image {
            file,
            pages,
            identity: Identity::of(&metadata),
        })
    }

    /// How many whole pages of 8,192 bytes it has.
    pub fn pages(&self) -> u32 {
        self.pages
    }
}

/// Images that are open, in the order of their volumes' numbers.
#[derive(Drop)]
pub struct Images {
    list: Vec<Image>,
    ghost few: { vec_len list ≤ 8 },
}

impl Images {
    ghost use Rattle.advfs_run.specs.memory_disk.Files.{file_disk};
    ghost use Rattle.advfs_program.specs.Images.{image_count, image_sizes};

    /// No image yet.
    pub fn new(alloc: Global) -> Images
        ensures { image_count result ≡ 0 }
    {
        Images {
            list: Vec::new(alloc),
        }
    }

    /// The images.
    pub fn list(&self) -> &[Image]
        ensures { length result.now ≡ image_count self.now }
    {
        self.list.as_slice()
    }

    /// Opens one more. After an error the images are those of before.
    pub fn add(
        &mut self,
        rt: &impl Files<File = File>,
        name: &str,
        access: Access,
    ) -> Result<(), ImageFault>
        ensures ok { OnOk result (image_count self.new ≡ image_count self.old + 1) }
        ensures err { OnErr result (image_count self.new ≡ image_count self.old) }
    {
        if self.list.len() >= MAX_VOLUMES as usize {
            return Err(ImageFault::TooMany);
        }
        let metadata = known(fs::metadata(rt, name))?;
        check_kind(&metadata)?;
        let identity = Identity::of(&metadata);
        for other in self.list.iter() {
            if other.identity == identity {
                return Err(ImageFault::Twice);
            }
        }
        match self.list.push(Image::open(rt, name, access)?) {
            Ok(()) => Ok(()),
            Err(_) => Err(ImageFault::OutOfMemory),
        }
    }

    /// The rack that has each of them as a volume, with its pages. An error is returned only if
    /// memory runs out.
    pub fn into_rack(self, alloc: Global) -> Result<FileRack, OutOfMemory>
        ensures sizes { IfOk result (λ rack. (file_disk rack).sizes ≡ image_sizes self) }
        ensures count { IfOk result (λ rack. length (file_disk rack).sizes ≡ image_count self) }
    {
        let Images { list } = self;
        let mut files = Vec::new(alloc);
        let mut sizes = Vec::new(alloc);
        for image in list {
            files.push(image.file)?;
            sizes.push(image.pages)?;
        }
        Ok(FileRack::new(files, sizes))
    }
}

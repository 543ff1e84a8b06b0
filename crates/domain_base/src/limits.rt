//! The limits of a domain of either version, each with its unit. They are pinned: the definitions
//! have each number once, and `limits_stand` says that the constants are those numbers.
ghost use Rattle.domain_base.specs.Limits.{LimitsStand};

/// The bytes of a page. Volumes, files, the log and the tables are divided into pages.
pub const PAGE_BYTES: usize = 8_192;

/// The bytes of a block. A device reads and writes whole blocks.
pub const BLOCK_BYTES: usize = 512;

/// The blocks of a page.
pub const BLOCKS_PER_PAGE: u32 = 16;

/// The most volumes that a domain can have. They are numbered from 1 by their place in the rack.
pub const MAX_VOLUMES: u32 = 8;

/// The fewest pages that a volume can have.
pub const MIN_VOLUME_PAGES: u32 = 64;

/// The fewest pages that the volume on which a domain is made can have.
pub const MIN_FIRST_VOLUME_PAGES: u32 = 160;

/// The most pages of a volume that a domain of version 3 uses. Any pages beyond them are left
/// alone.
pub const MAX_VOLUME_PAGES: u32 = 65_536;

/// The most pages of a volume that a domain of version 4 uses. Any pages beyond them are left
/// alone.
pub const MAX_VOLUME_PAGES_4: u32 = 1_048_576;

/// The most filesets that a domain can have. Clones count too.
pub const MAX_FILESETS: u32 = 16;

/// The most bytes in a fileset's name. It has at least one.
pub const MAX_FILESET_NAME: usize = 31;

/// The slots of the fileset table. Those of filesets that are being removed count too.
pub const FILESET_SLOTS: u32 = 32;

/// The most pages in a file, and therefore in a directory.
pub const FILE_PAGES: u32 = 65_536;

/// The most bytes in a file: those of all its pages.
pub const FILE_BYTES: u64 = 536_870_912;

/// The most bytes in a name of a directory. It has at least one.
pub const MAX_NAME: usize = 255;

/// The most names in a path. The path without names is the root.
pub const MAX_PATH_NAMES: usize = 32;

/// The most bytes that one read or one write moves.
pub const MAX_TRANSFER: usize = 8_192;

/// The most client sections in a script.
pub const MAX_CLIENTS: usize = 8;

/// The most commands in one client section.
pub const MAX_COMMANDS: usize = 2_000;

/// The most bytes in a script.
pub const MAX_SCRIPT_BYTES: usize = 33_554_432;

/// The most names that may lead to one file.
pub const MAX_LINKS: u32 = 1_000;

/// The most pages that one transaction changes.
pub const TRANSACTION_PAGES: usize = 32;

/// The most page images that one group of the log holds.
pub const GROUP_IMAGES: usize = 60;

/// The pages of the log, which is a ring.
pub const LOG_PAGES: u32 = 128;

/// The mcells of a page of the bitfile metadata table.
pub const PAGE_CELLS: u8 = 28;

/// The first byte of an open gate.
pub const OPEN_GATE: u8 = 0xa5;

/// The law that each constant is the number that the definitions give it.
pub fn limits_stand()
    ensures { LimitsStand }
{}

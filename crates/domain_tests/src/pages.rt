//! The pages of a domain that was made on a volume of 512 pages, block by block, as they are worked
//! out by hand from the layout.

use crate::made::{Answer, made};
use crate::racks::{filled, get};
use domain_making::{Rack, Version};
use hex::decode;
use std::alloc::Global;
use std::test::Fail;

/// Blocks of volume 1 that follow one another: how the first of them begins, in two parts of
/// hexadecimal text, and the byte that all is after that.
#[derive(Clone, Copy)]
struct Run {
    first: u32,
    count: u32,
    front: &'static str,
    more: &'static str,
    rest: u8,
}

/// The label, with its eight letters, the version, volume 1, 512 pages, and one of bitmap; and the
/// body of slot 0, with number 1, the version, the log on volume 1 from page 4 on with 128 pages,
/// place 0, group 1, the table on page 132 of volume 1, and the first member, of 512 pages and
/// open.
static FRONT_3: [Run; 2] = [
    Run {
        first: 0,
        count: 16,
        front: "41445646534c4142",
        more: "03000000010000000002000001000000",
        rest: 0,
    },
    Run {
        first: 17,
        count: 7,
        front: "0100000000000000030000000100000004000000800000000000000000000000",
        more: "010000000000000001000000840000000002000001000000",
        rest: 0,
    },
];

/// The label and the body in version 4.
static FRONT_4: [Run; 2] = [
    Run {
        first: 0,
        count: 16,
        front: "41445646534c4142",
        more: "04000000010000000002000001000000",
        rest: 0,
    },
    Run {
        first: 17,
        count: 7,
        front: "0100000000000000040000000100000004000000800000000000000000000000",
        more: "010000000000000001000000840000000002000001000000",
        rest: 0,
    },
];

/// What is alike in both versions: the open gate of slot 0; slot 1, closed and empty; the bitmap,
/// with pages 0 to 132 used and none after page 511; the page of cells, with 27 free ones and one
/// that says volume 1, 512 pages, and one of bitmap; the closed gate of the log's first place; the
/// table, without a fileset; and what stood there before, past the gate and past the table.
static OTHERS: [Run; 8] = [
    Run {
        first: 16,
        count: 1,
        front: "",
        more: "",
        rest: 0xa5,
    },
    Run {
        first: 24,
        count: 8,
        front: "",
        more: "",
        rest: 0,
    },
    Run {
        first: 32,
        count: 16,
        front: "ffffffffffffffffffffffffffffffff1f000000000000000000000000000000",
        more: "0000000000000000000000000000000000000000000000000000000000000000",
        rest: 0xff,
    },
    Run {
        first: 48,
        count: 16,
        front: "424d545000000000000000001b000000",
        more: "00000000000000000000000000000004100000000c001000010000000002000001000000",
        rest: 0,
    },
    Run {
        first: 64,
        count: 1,
        front: "",
        more: "",
        rest: 0,
    },
    Run {
        first: 65,
        count: 15,
        front: "",
        more: "",
        rest: 0xa5,
    },
    Run {
        first: 2_112,
        count: 16,
        front: "46535442",
        more: "",
        rest: 0,
    },
    Run {
        first: 2_128,
        count: 16,
        front: "",
        more: "",
        rest: 0xa5,
    },
];

/// Whether a block begins so, and is this byte after that.
fn is_block(block: &[u8], front: &[u8], rest: u8) -> bool {
    block.starts_with(front) && block.iter().skip(front.len()).all(|byte| *byte == rest)
}

/// Whether a block of volume 1 begins so, and is this byte after that.
fn is_right<R: Rack>(
    alloc: Global,
    rack: &mut R,
    block: u32,
    front: &[u8],
    rest: u8,
) -> Result<bool, Fail> {
    let block = get(alloc, rack, block)?;
    Ok(is_block(&block, front, rest))
}

/// How many blocks of a run are as they should be.
fn count_right<R: Rack>(alloc: Global, rack: &mut R, run: &Run) -> Result<u32, Fail> {
    let mut front = decode(alloc, run.front)?;
    front.extend_from_slice(&decode(alloc, run.more)?)?;
    let mut right: u32 = 0;
    if is_right(alloc, rack, run.first, &front, run.rest)? {
        right = 1;
    }
    for place in 1..run.count {
        if is_right(alloc, rack, run.first.saturating_add(place), &[], run.rest)? {
            right = right.saturating_add(1);
        }
    }
    Ok(right)
}

/// The first block of the first run that is not as it should be; none if all are.
fn first_wrong<R: Rack>(alloc: Global, rack: &mut R, runs: &[Run]) -> Result<Option<u32>, Fail> {
    for run in runs {
        if count_right(alloc, rack, run)? != run.count {
            return Ok(Some(run.first));
        }
    }
    Ok(None)
}

/// Whether a making on a volume that was full of open gates leaves the pages that it should.
fn check_pages(alloc: Global, version: Version, fronts: &[Run]) -> Result<bool, Fail> {
    let mut rack = filled(alloc, 0xa5)?;
    if made(alloc, &mut rack, version) != (Answer::Made { log: 4, table: 132 }) {
        return Ok(false);
    }
    let front = first_wrong(alloc, &mut rack, fronts)?;
    let other = first_wrong(alloc, &mut rack, &OTHERS)?;
    Ok(front.is_none() && other.is_none())
}

#[test]
fn the_pages_are_as_the_layout_says(rt: HostRuntime) -> Result<(), Fail> {
    let three = check_pages(rt.alloc(), Version::Three, &FRONT_3)?;
    let four = check_pages(rt.alloc(), Version::Four, &FRONT_4)?;
    assert_eq!(rt; (three, four), (true, true));
    Ok(())
}

//! The anchors by which members change.

use member_moves::limits::{LOG_PAGES, MAX_VOLUME_PAGES_4, MIN_VOLUME_PAGES};
use member_moves::{
    Anchor, Home, Member, Version, VolIx, has_log, has_table, in_state, is_member, member_of,
    with_log, with_member, with_table, with_version,
};
use std::test::Fail;

const NONE: Member = Member { pages: 0, state: 0 };

const FIRST: Member = Member {
    pages: 512,
    state: 1,
};

const SECOND: Member = Member {
    pages: 64,
    state: 2,
};

fn member(pages: u32, state: u32) -> Member {
    Member { pages, state }
}

/// An anchor with an open member 1, which has the log, and a closed member 2.
fn anchor() -> Anchor {
    Anchor {
        number: 5,
        version: 3,
        log_vol: 1,
        log_page: 4,
        log_pages: 128,
        start: 9,
        group: 77,
        table: VolIx::new(1).map(|vol| Home { vol, page: 132 }),
        members: [FIRST, SECOND, NONE, NONE, NONE, NONE, NONE, NONE],
        slot: 1,
    }
}

/// The anchor by which a volume becomes a member, if it is none and may have so few or many pages.
fn joined(anchor: &Anchor, vol: VolIx, pages: u32) -> Option<Anchor> {
    if is_member(anchor, vol) || !(MIN_VOLUME_PAGES..=MAX_VOLUME_PAGES_4).contains(&pages) {
        return None;
    }
    Some(with_member(anchor, vol, pages))
}

/// The anchor by which the log begins on a member, if its 128 pages lie inside it after page 1.
fn log_at(anchor: &Anchor, vol: VolIx, first: u32) -> Option<Anchor> {
    let pages = member_of(anchor, vol).pages;
    if !is_member(anchor, vol) || first < 2 || pages < LOG_PAGES || first > pages - LOG_PAGES {
        return None;
    }
    Some(with_log(anchor, vol, first))
}

/// The anchor by which the table stands on a page of a member.
fn table_at(anchor: &Anchor, home: &Home) -> Option<Anchor> {
    if !is_member(anchor, home.vol) || home.page >= member_of(anchor, home.vol).pages {
        return None;
    }
    let to = *home;
    Some(with_table(anchor, to))
}

/// The anchor with another second and third member.
fn with_members(second: Member, third: Member) -> Anchor {
    Anchor {
        members: [FIRST, second, third, NONE, NONE, NONE, NONE, NONE],
        ..anchor()
    }
}

#[test]
fn a_new_member_is_open(rt: HostRuntime) -> Result<(), Fail> {
    let old = anchor();
    let two = VolIx::new(2).ok_or("a volume")?;
    let three = VolIx::new(3).ok_or("a volume")?;
    let want = with_members(SECOND, member(96, 1));
    let seen = [
        joined(&old, three, 96),
        joined(&old, two, 96),
        joined(&old, three, 63),
    ];
    assert_eq!(rt; seen, [Some(want), None, None]);
    Ok(())
}

#[test]
fn a_member_is_opened_closed_and_taken_off(rt: HostRuntime) -> Result<(), Fail> {
    let old = anchor();
    let one = VolIx::new(1).ok_or("a volume")?;
    let two = VolIx::new(2).ok_or("a volume")?;
    let seen = [
        in_state(&old, two, 1),
        in_state(&old, two, 0),
        in_state(&old, one, 0),
        in_state(&old, one, 2),
    ];
    let opened = with_members(member(64, 1), NONE);
    let off = with_members(member(64, 0), NONE);
    let closed = Anchor {
        members: [member(512, 2), SECOND, NONE, NONE, NONE, NONE, NONE, NONE],
        ..anchor()
    };
    assert_eq!(rt; seen, [Some(opened), Some(off), None, Some(closed)]);
    Ok(())
}

#[test]
fn the_member_with_the_table_is_not_taken_off(rt: HostRuntime) -> Result<(), Fail> {
    let two = VolIx::new(2).ok_or("a volume")?;
    let old = Anchor {
        table: Some(Home { vol: two, page: 33 }),
        ..anchor()
    };
    let off = in_state(&old, two, 0);
    let opened = in_state(&old, two, 1).is_some();
    assert_eq!(rt; (off, opened, has_table(&old, two)), (None, true, true));
    Ok(())
}

#[test]
fn the_log_goes_to_a_member_that_it_fits(rt: HostRuntime) -> Result<(), Fail> {
    let old = with_members(member(169, 1), member(127, 1));
    let two = VolIx::new(2).ok_or("a volume")?;
    let three = VolIx::new(3).ok_or("a volume")?;
    let four = VolIx::new(4).ok_or("a volume")?;
    let seen = [
        log_at(&old, two, 41),
        log_at(&old, two, 42),
        log_at(&old, three, 2),
        log_at(&old, four, 2),
    ];
    let moved = Anchor {
        log_vol: 2,
        log_page: 41,
        ..old
    };
    assert_eq!(rt; seen, [Some(moved), None, None, None]);
    assert_eq!(rt; (has_log(&old, two), has_log(&moved, two)), (false, true));
    Ok(())
}

#[test]
fn the_table_goes_to_a_page_of_a_member(rt: HostRuntime) -> Result<(), Fail> {
    let old = anchor();
    let two = VolIx::new(2).ok_or("a volume")?;
    let last = Home { vol: two, page: 63 };
    let beyond = Home { vol: two, page: 64 };
    let moved = Anchor {
        table: Some(last),
        ..anchor()
    };
    let seen = [table_at(&old, &last), table_at(&old, &beyond)];
    assert_eq!(rt; seen, [Some(moved), None]);
    Ok(())
}

#[test]
fn a_domain_goes_to_another_version(rt: HostRuntime) -> Result<(), Fail> {
    let old = anchor();
    let new = Anchor {
        version: 4,
        ..anchor()
    };
    let seen = [
        with_version(&old, Version::Four),
        with_version(&old, Version::Three),
    ];
    assert_eq!(rt; seen, [new, old]);
    Ok(())
}

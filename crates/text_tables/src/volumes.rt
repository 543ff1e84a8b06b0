//! Lists of members and of extents, as the replies of histories have them.
use crate::commands::{answer_line, command_in};
use history_reading::{Actor, Refusal, Reply, read_line};
use plain_program::{
    ExtentItem, PageMap, VolumeItem, is_extent_list, is_member_list, member_refusal, rises,
};
use std::alloc::{AllocError, Global};

/// The reply that a history has to a command.
fn reply_of(alloc: Global, command: &str, words: &str) -> Option<Reply> {
    let line = format!(in alloc; "c1 {command} -> ok {words}\n").ok()?;
    Some(read_line(alloc, line.as_bytes()).ok()?.reply)
}

/// The members that words have.
pub fn members_of(alloc: Global, words: &str) -> Option<Vec<VolumeItem>> {
    match reply_of(alloc, "showfdmn", words)? {
        Reply::Volumes(members) => Some(members.into_vec()),
        _ => None,
    }
}

/// The extents that words have.
fn extents_of(alloc: Global, words: &str) -> Option<Vec<ExtentItem>> {
    match reply_of(alloc, "showfile any:/", words)? {
        Reply::Extents(runs) => Some(runs.into_vec()),
        _ => None,
    }
}

/// The reply to a command on volumes that is refused so, or not at all.
fn reply_with(refusal: Option<Refusal>) -> Reply {
    match refusal {
        Some(refusal) => Reply::Refused(refusal),
        None => Reply::Done,
    }
}

/// The line in a history of the mover's command, if these members and the pages of the rack's
/// volumes answer it.
pub fn answered(
    alloc: Global,
    sizes: &[u32],
    members: &[VolumeItem],
    line: &str,
) -> Option<Vec<u8>> {
    if !rises(members) {
        return None;
    }
    let command = command_in(alloc, line)?;
    let reply = reply_with(member_refusal(sizes, members, &command));
    answer_line(alloc, Actor::Mover, command, reply)
}

/// Whether a domain with the log on this volume may show these members.
pub fn are_shown(members: &[VolumeItem], log_volume: u32) -> bool {
    rises(members) && is_member_list(members, log_volume)
}

/// The pages 0, 1 and 5.
fn pages(alloc: Global) -> Result<PageMap, AllocError> {
    let mut pages = PageMap::new(alloc);
    pages.write(alloc, 8_191, b"ab")?;
    pages.write(alloc, 40_960, b"c")?;
    Ok(pages)
}

/// Whether these extents on these members show a file with the pages 0, 1 and 5.
pub fn is_file(alloc: Global, members: &[VolumeItem], words: &str) -> Option<bool> {
    let runs = extents_of(alloc, words)?;
    let pages = pages(alloc).ok()?;
    if !rises(members) {
        return None;
    }
    is_extent_list(alloc, &pages, runs.as_slice(), members).ok()
}

//! Looking for signs in the first cells to which the tags of a domain lead.
ghost use Rattle.std.specs.Prelude.{◌↔◌, IfOk, IsTrue};
ghost use Rattle.no_faults.specs.tag_dirs.Directory.{IsDirectory};
ghost use Rattle.no_faults.specs.page_ways.Frame.{frame_in};
ghost use Rattle.no_faults.specs.filesets_reading.Tables.{AreTablesOf};
ghost use Rattle.attached_domain.specs.Signs.{IsSaidIn, LeadsSo, SlotSays, TagSays};

use crate::signs::{Sign, is_asked, says};
use no_faults::{
    DomainFrame, DomainTables, FilesetNo, MetaPages, OutOfMemory, Tag, TagDir, used_tags,
};
use std::alloc::Global;

/// Whether a tag leads to a cell with the sign.
fn leads_so<M: MetaPages>(
    alloc: Global,
    pages: &M,
    sign: Sign,
    dir: &TagDir,
    tag: Tag,
) -> Result<bool, OutOfMemory>
    requires { IsDirectory (M.pages pages.now) dir.now }
    ensures { IfOk result (λ leads. IsTrue leads ↔ LeadsSo (M.pages pages.now) sign dir.now tag) }
{
    match dir.look(pages, tag) {
        Some(at) => says(alloc, pages, sign, &at),
        None => Ok(false),
    }
}

/// Whether some tag of a tag directory leads to a cell with the sign.
fn some_tag_says<M: MetaPages>(
    alloc: Global,
    pages: &M,
    sign: Sign,
    dir: &TagDir,
) -> Result<bool, OutOfMemory>
    requires { IsDirectory (M.pages pages.now) dir.now }
    ensures { IfOk result (λ found. IsTrue found ↔ TagSays (M.pages pages.now) sign dir.now) }
{
    let tags = used_tags(alloc, pages, dir)?;
    for i in 0..tags.len() {
        if leads_so(alloc, pages, sign, dir, tags[i])? {
            return Ok(true);
        }
    }
    Ok(false)
}

/// Whether the sign is looked for in what is in a slot, and some tag of that leads to a cell with
/// it.
fn slot_says<M: MetaPages>(
    alloc: Global,
    pages: &M,
    frame: &DomainFrame,
    sign: Sign,
    tables: &DomainTables,
    number: FilesetNo,
) -> Result<bool, OutOfMemory>
    requires { AreTablesOf (M.pages pages.now) (frame_in frame.now) tables.now }
    ensures { IfOk result (λ says. IsTrue says
        ↔ IsSaidIn (M.pages pages.now) sign tables.now number) }
{
    if !is_asked(sign, tables.filesets.slot(number)) {
        return Ok(false);
    }
    some_tag_says(alloc, pages, sign, &tables.tags[number.number() as usize])
}

/// Whether in some slot the sign is looked for and some tag leads to a cell with it.
pub(crate) fn some_slot_says<M: MetaPages>(
    alloc: Global,
    pages: &M,
    frame: &DomainFrame,
    sign: Sign,
    tables: &DomainTables,
) -> Result<bool, OutOfMemory>
    requires { AreTablesOf (M.pages pages.now) (frame_in frame.now) tables.now }
    ensures { IfOk result (λ found. IsTrue found
        ↔ SlotSays (M.pages pages.now) sign tables.now) }
{
    for number in 0..32_u32 {
        if let Some(number) = FilesetNo::new(number) {
            if slot_says(alloc, pages, frame, sign, tables, number)? {
                return Ok(true);
            }
        }
    }
    Ok(false)
}

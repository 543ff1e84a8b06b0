//! Replies as a history writes them.
ghost use Rattle.std.specs.Prelude.{◌≡◌, ◌∷◌, ◌++◌, OnOk, decimal, map};
ghost use Rattle.command_text.specs.word_forms.Texts.{behind_spaces};
ghost use Rattle.script_text.specs.History.{extent_item_text, fileset_item_text, flag_text, logged_text, name_item_text, original_text, reply_text, reply_words, volume_item_text};

use crate::refusal_text::push_refusal;
use command_text::{
    ExtentItem, FilesetItem, FilesetName, NameItem, OutOfMemory, Reply, VolumeItem, push_bytes,
    push_name, push_number,
};

/// Adds a byte and a number after it.
fn push_marked(out: &mut Vec<u8>, mark: u8, n: u64) -> Result<(), OutOfMemory>
    ensures { OnOk result (out.new.items ≡ out.old.items ++ mark ∷ decimal n) }
{
    out.push(mark)?;
    push_number(out, n)?;
    Ok(())
}

fn push_name_item(out: &mut Vec<u8>, item: &NameItem) -> Result<(), OutOfMemory>
    ensures { OnOk result (out.new.items ≡ out.old.items ++ 32 ∷ name_item_text item.now) }
{
    out.push(b' ')?;
    push_name(out, item.name.as_slice())?;
    if item.directory {
        out.push(b'/')?;
    }
    Ok(())
}

fn push_names(out: &mut Vec<u8>, items: &[NameItem]) -> Result<(), OutOfMemory>
    ensures { OnOk result (out.new.items
        ≡ out.old.items ++ behind_spaces (map name_item_text items.now)) }
{
    for item in items {
        push_name_item(out, item)?;
    }
    Ok(())
}

fn push_original(out: &mut Vec<u8>, original: &Option<FilesetName>) -> Result<(), OutOfMemory>
    ensures { OnOk result (out.new.items ≡ out.old.items ++ original_text original.now) }
{
    if let Some(original) = original {
        out.push(b'<')?;
        out.extend_from_slice(original.as_slice())?;
    }
    Ok(())
}

fn push_fileset_item(out: &mut Vec<u8>, item: &FilesetItem) -> Result<(), OutOfMemory>
    ensures { OnOk result (out.new.items ≡ out.old.items ++ 32 ∷ fileset_item_text item.now) }
{
    out.push(b' ')?;
    out.extend_from_slice(item.fileset.as_slice())?;
    push_original(out, &item.original)?;
    Ok(())
}

fn push_filesets(out: &mut Vec<u8>, items: &[FilesetItem]) -> Result<(), OutOfMemory>
    ensures { OnOk result (out.new.items
        ≡ out.old.items ++ behind_spaces (map fileset_item_text items.now)) }
{
    for item in items {
        push_fileset_item(out, item)?;
    }
    Ok(())
}

fn flag_of(has_log: bool, closed: bool) -> &'static str
    ensures { result.now ≡ flag_text has_log closed }
{
    match (has_log, closed) {
        (true, true) => "LC",
        (true, false) => "L",
        (false, true) => "C",
        (false, false) => "-",
    }
}

fn push_volume_item(out: &mut Vec<u8>, item: &VolumeItem) -> Result<(), OutOfMemory>
    ensures { OnOk result (out.new.items ≡ out.old.items ++ 32 ∷ volume_item_text item.now) }
{
    push_marked(out, b' ', u64::from(item.vol))?;
    push_marked(out, b':', u64::from(item.pages))?;
    push_marked(out, b':', u64::from(item.used))?;
    push_marked(out, b':', u64::from(item.free))?;
    out.push(b':')?;
    out.extend_from_slice(flag_of(item.has_log, item.closed).as_bytes())?;
    Ok(())
}

fn push_volumes(out: &mut Vec<u8>, items: &[VolumeItem]) -> Result<(), OutOfMemory>
    ensures { OnOk result (out.new.items
        ≡ out.old.items ++ behind_spaces (map volume_item_text items.now)) }
{
    for item in items {
        push_volume_item(out, item)?;
    }
    Ok(())
}

fn push_extent_item(out: &mut Vec<u8>, item: &ExtentItem) -> Result<(), OutOfMemory>
    ensures { OnOk result (out.new.items ≡ out.old.items ++ 32 ∷ extent_item_text item.now) }
{
    push_marked(out, b' ', u64::from(item.page))?;
    push_marked(out, b'+', u64::from(item.count))?;
    push_marked(out, b'@', u64::from(item.vol))?;
    push_marked(out, b':', u64::from(item.first))?;
    Ok(())
}

fn push_extents(out: &mut Vec<u8>, items: &[ExtentItem]) -> Result<(), OutOfMemory>
    ensures { OnOk result (out.new.items
        ≡ out.old.items ++ behind_spaces (map extent_item_text items.now)) }
{
    for item in items {
        push_extent_item(out, item)?;
    }
    Ok(())
}

fn log_word(logged: bool) -> &'static str
    ensures { result.now ≡ 32 ∷ logged_text logged }
{
    if logged { " log" } else { " -" }
}

/// Adds what is told of a file.
fn push_file_stat(
    out: &mut Vec<u8>,
    uid: u32,
    gid: u32,
    size: u64,
    pages: u32,
    logged: bool,
) -> Result<(), OutOfMemory>
    ensures { OnOk result (out.new.items
        ≡ out.old.items ++ behind_spaces (reply_words (Reply.FileStat uid gid size pages logged))) }
{
    out.extend_from_slice(b" file")?;
    push_marked(out, b' ', u64::from(uid))?;
    push_marked(out, b' ', u64::from(gid))?;
    push_marked(out, b' ', size)?;
    push_marked(out, b' ', u64::from(pages))?;
    out.extend_from_slice(log_word(logged).as_bytes())?;
    Ok(())
}

/// Adds what is told of a directory.
fn push_dir_stat(out: &mut Vec<u8>, uid: u32, gid: u32, rows: u32) -> Result<(), OutOfMemory>
    ensures { OnOk result (out.new.items
        ≡ out.old.items ++ behind_spaces (reply_words (Reply.DirStat uid gid rows))) }
{
    out.extend_from_slice(b" dir")?;
    push_marked(out, b' ', u64::from(uid))?;
    push_marked(out, b' ', u64::from(gid))?;
    push_marked(out, b' ', u64::from(rows))?;
    Ok(())
}

/// Adds what an owner uses and may use, files before blocks.
fn push_quota(
    out: &mut Vec<u8>,
    files: u64,
    files_limit: u64,
    blocks: u64,
    blocks_limit: u64,
) -> Result<(), OutOfMemory>
    ensures { OnOk result (out.new.items
        ≡ out.old.items
        ++ behind_spaces (reply_words (Reply.Quota files files_limit blocks blocks_limit))) }
{
    out.extend_from_slice(b" files")?;
    push_marked(out, b' ', files)?;
    push_marked(out, b' ', files_limit)?;
    out.extend_from_slice(b" blocks")?;
    push_marked(out, b' ', blocks)?;
    push_marked(out, b' ', blocks_limit)?;
    Ok(())
}

/// Adds a reply: `ok` with what was asked for, or a refusal.
#[tactic(auto, unfolding(crate::specs::History::reply_text))]
pub fn push_reply(out: &mut Vec<u8>, reply: &Reply) -> Result<(), OutOfMemory>
    ensures { OnOk result (out.new.items ≡ out.old.items ++ reply_text reply.now) }
{
    if let Reply::Refused(refusal) = reply {
        push_refusal(out, *refusal)?;
        return Ok(());
    }
    out.extend_from_slice(b"ok")?;
    push_answer(out, reply)
}

/// Adds what was asked for, a space before each word.
fn push_answer(out: &mut Vec<u8>, reply: &Reply) -> Result<(), OutOfMemory>
    ensures { OnOk result (out.new.items ≡ out.old.items ++ behind_spaces (reply_words reply.now)) }
{
    match reply {
        Reply::Done | Reply::Refused(_) => {}
        Reply::Count(n) => push_marked(out, b' ', *n)?,
        Reply::Read(bytes) => {
            out.push(b' ')?;
            push_bytes(out, bytes.as_slice())?;
        }
        Reply::Names(names) => push_names(out, names.as_slice())?,
        Reply::FileStat {
            uid,
            gid,
            size,
            pages,
            logged,
        } => push_file_stat(out, *uid, *gid, *size, *pages, *logged)?,
        Reply::DirStat { uid, gid, rows } => push_dir_stat(out, *uid, *gid, *rows)?,
        Reply::Filesets(filesets) => push_filesets(out, filesets.as_slice())?,
        Reply::Quota {
            files,
            files_limit,
            blocks,
            blocks_limit,
        } => push_quota(out, *files, *files_limit, *blocks, *blocks_limit)?,
        Reply::Volumes(volumes) => push_volumes(out, volumes.as_slice())?,
        Reply::Extents(extents) => push_extents(out, extents.as_slice())?,
    }
    Ok(())
}

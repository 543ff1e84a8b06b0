//! Replies, read back.
ghost use Rattle.std.specs.Prelude.{◌≡◌, codes, map};
ghost use Rattle.std.specs.Str.{bytes_eq};
ghost use Rattle.history_reading.specs.Reading.{answer_of, quota_of, read_of, reply_of, stat_of};
ghost use Rattle.script_text.specs.word_forms.Read.{Gives};

use crate::items::{extent_item, fileset_item, name_item, volume_item};
use crate::kind::AnswerKind;
use crate::refusals::refusal;
use script_text::from_word_forms::bytes;
use script_text::{Bytes, Listing, Reply, WordFault, number, small_number};
use std::alloc::Global;

/// The answer that tells nothing.
fn done(words: &[&[u8]]) -> Result<Reply, WordFault>
    ensures { Gives result (answer_of AnswerKind.Done (map (λ word. word.now) words.now)) }
{
    if words.is_empty() {
        Ok(Reply::Done)
    } else {
        Err(WordFault::Malformed)
    }
}

fn count(words: &[&[u8]]) -> Result<Reply, WordFault>
    ensures { Gives result (answer_of AnswerKind.Count (map (λ word. word.now) words.now)) }
{
    let [word] = words else {
        return Err(WordFault::Malformed);
    };
    let n = number(word).ok_or(WordFault::Malformed)?;
    Ok(Reply::Count(n))
}

/// The bytes that a word says, or none at a `-`.
#[tactic(auto, unfolding(crate::specs::Reading::read_of))]
fn bytes_read(alloc: Global, word: &[u8]) -> Result<Bytes, WordFault>
    ensures { Gives result (read_of word.now) }
{
    if word == b"-".as_slice() {
        return Ok(Bytes::from_vec(Vec::new(alloc)));
    }
    bytes(alloc, word)
}

fn read(alloc: Global, words: &[&[u8]]) -> Result<Reply, WordFault>
    ensures { Gives result (answer_of AnswerKind.Read (map (λ word. word.now) words.now)) }
{
    let [word] = words else {
        return Err(WordFault::Malformed);
    };
    let bytes = bytes_read(alloc, word)?;
    Ok(Reply::Read(bytes))
}

fn names(alloc: Global, words: &[&[u8]]) -> Result<Reply, WordFault>
    ensures { Gives result (answer_of AnswerKind.Names (map (λ word. word.now) words.now)) }
{
    let mut items = Vec::new(alloc);
    for word in words {
        items.push(name_item(alloc, word)?)?;
    }
    Ok(Reply::Names(Listing::from_vec(items)))
}

fn filesets(alloc: Global, words: &[&[u8]]) -> Result<Reply, WordFault>
    ensures { Gives result (answer_of AnswerKind.Filesets (map (λ word. word.now) words.now)) }
{
    let mut items = Vec::new(alloc);
    for word in words {
        items.push(fileset_item(alloc, word)?)?;
    }
    Ok(Reply::Filesets(Listing::from_vec(items)))
}

fn volumes(alloc: Global, words: &[&[u8]]) -> Result<Reply, WordFault>
    ensures { Gives result (answer_of AnswerKind.Volumes (map (λ word. word.now) words.now)) }
{
    let mut items = Vec::new(alloc);
    for word in words {
        items.push(volume_item(alloc, word)?)?;
    }
    Ok(Reply::Volumes(Listing::from_vec(items)))
}

fn extents(alloc: Global, words: &[&[u8]]) -> Result<Reply, WordFault>
    ensures { Gives result (answer_of AnswerKind.Extents (map (λ word. word.now) words.now)) }
{
    let mut items = Vec::new(alloc);
    for word in words {
        items.push(extent_item(word).ok_or(WordFault::Malformed)?)?;
    }
    Ok(Reply::Extents(Listing::from_vec(items)))
}

fn is_logged(word: &[u8]) -> bool
    ensures { result ≡ bytes_eq word.now (codes "log") }
{
    word == b"log".as_slice()
}

/// The attributes of a file, by six words, or of a directory, by four.
#[tactic(auto, unfolding(crate::specs::Reading::stat_of))]
fn stat(words: &[&[u8]]) -> Option<Reply>
    ensures { result ≡ stat_of (map (λ word. word.now) words.now) }
{
    match words {
        [_, uid, gid, size, pages, logged] => Some(Reply::FileStat {
            uid: small_number(uid)?,
            gid: small_number(gid)?,
            size: number(size)?,
            pages: small_number(pages)?,
            logged: is_logged(logged),
        }),
        [_, uid, gid, rows] => Some(Reply::DirStat {
            uid: small_number(uid)?,
            gid: small_number(gid)?,
            rows: small_number(rows)?,
        }),
        _ => None,
    }
}

#[tactic(auto, unfolding(crate::specs::Reading::quota_of))]
fn quota(words: &[&[u8]]) -> Option<Reply>
    ensures { result ≡ quota_of (map (λ word. word.now) words.now) }
{
    let [_, files, files_limit, _, blocks, blocks_limit] = words else {
        return None;
    };
    Some(Reply::Quota {
        files: number(files)?,
        files_limit: number(files_limit)?,
        blocks: number(blocks)?,
        blocks_limit: number(blocks_limit)?,
    })
}

/// The answer of this kind that the words after `ok` say.
fn answer(alloc: Global, kind: AnswerKind, words: &[&[u8]]) -> Result<Reply, WordFault>
    ensures { Gives result (answer_of kind (map (λ word. word.now) words.now)) }
{
    match kind {
        AnswerKind::Done => done(words),
        AnswerKind::Count => count(words),
        AnswerKind::Read => read(alloc, words),
        AnswerKind::Names => names(alloc, words),
        AnswerKind::Stat => stat(words).ok_or(WordFault::Malformed),
        AnswerKind::Filesets => filesets(alloc, words),
        AnswerKind::Quota => quota(words).ok_or(WordFault::Malformed),
        AnswerKind::Volumes => volumes(alloc, words),
        AnswerKind::Extents => extents(alloc, words),
    }
}

/// The reply that these words say, of a command with an answer of this kind.
#[tactic(auto, unfolding(crate::specs::Reading::reply_of))]
pub fn reply(alloc: Global, kind: AnswerKind, words: &[&[u8]]) -> Result<Reply, WordFault>
    ensures { Gives result (reply_of kind (map (λ word. word.now) words.now)) }
{
    let [first, after @ ..] = words else {
        return Err(WordFault::Malformed);
    };
    if *first == b"ok".as_slice() {
        return answer(alloc, kind, after);
    }
    let refusal = refusal(first, after).ok_or(WordFault::Malformed)?;
    Ok(Reply::Refused(refusal))
}

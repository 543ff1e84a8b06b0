//! Lines, read back.
ghost use Rattle.std.specs.Prelude.{◌≡◌, ◌≢◌, ◌↔◌, ◌-◌, ◌≤◌, not, Err, IfOk, IfErr, IsTrue, length, map, take};
ghost use Rattle.std.specs.List.{after_first, before_first, prefix_len};
ghost use Rattle.script_text.specs.fileset_values.declared.entry.Entry.{Entry as EntryOf};
ghost use Rattle.history_reading.specs.Entries.{IsEntry, IsNoLine};
ghost use Rattle.history_reading.specs.Reading.{actor_of, entry_of, is_arrow, said_command, said_entry};
ghost use Rattle.script_text.specs.History.{line_of};
ghost use Rattle.script_text.specs.word_forms.Read.{Gives};

use crate::answers::reply;
use crate::kind::answer_kind;
use script_text::from_fileset_values::Command;
use script_text::{
    Actor, Entry, FaultKind, ScriptFault, WordFault, command, history_line, known_verb,
    number_within, parts,
};
use std::alloc::Global;

/// Words of a line.
type Words<'a, 'b> = &'a [&'b [u8]];

/// A client by its number after a byte, or the mover by an `m`.
#[tactic(auto, unfolding(crate::specs::Reading::actor_of))]
fn actor(word: &[u8]) -> Option<Actor>
    ensures { result ≡ actor_of word.now }
{
    let [mark, digits @ ..] = word else {
        return None;
    };
    if *mark == b'm' {
        return Some(Actor::Mover);
    }
    let number = number_within(1, 8, digits)?;
    Some(Actor::Client(number as u8))
}

/// The command that a first word and the words after it say.
#[tactic(auto, unfolding(crate::specs::Reading::said_command))]
fn said_command(alloc: Global, first: &[u8], words: &[&[u8]]) -> Result<Command, WordFault>
    ensures { Gives result (said_command first.now (map (λ word. word.now) words.now)) }
{
    let verb = known_verb(first).ok_or(WordFault::Malformed)?;
    command(alloc, verb, words)
}

/// The entry that the words before `->` and those after it say.
#[tactic(auto, unfolding(crate::specs::Reading::said_entry))]
fn said_entry(alloc: Global, words: &[&[u8]], after: &[&[u8]]) -> Result<Entry, WordFault>
    ensures { Gives result
        (said_entry (map (λ word. word.now) words.now) (map (λ word. word.now) after.now)) }
{
    let [who, first, behind @ ..] = words else {
        return Err(WordFault::Malformed);
    };
    let actor = actor(who).ok_or(WordFault::Malformed)?;
    let command = said_command(alloc, first, behind)?;
    let reply = reply(alloc, answer_kind(&command), after)?;
    Ok(Entry {
        actor,
        command,
        reply,
        stamp: 0,
    })
}

fn is_arrow(word: &[u8]) -> bool
    ensures { result ≡ is_arrow word.now }
{
    word == b"->".as_slice()
}

/// How many words stand before the first `->`.
fn arrow_at(words: &[&[u8]]) -> usize
    ensures value { result
        ≡ prefix_len (λ word. not (is_arrow word)) (map (λ word. word.now) words.now) }
    ensures within { result ≤ length words.now }
{
    for (i, word) in words.iter().enumerate() {
        if is_arrow(word) {
            return i;
        }
    }
    words.len()
}

/// The words before the first `->`, and those after it.
fn split_at_arrow<'a, 'b>(words: Words<'a, 'b>) -> (Words<'a, 'b>, Words<'a, 'b>)
    ensures front { map (λ word. word.now) result.0.now
        ≡ before_first is_arrow (map (λ word. word.now) words.now) }
    ensures back { map (λ word. word.now) result.1.now
        ≡ after_first is_arrow (map (λ word. word.now) words.now) }
{
    let (front, rest) = words.split_at(arrow_at(words));
    match rest {
        [] => (front, rest),
        [_, after @ ..] => (front, after),
    }
}

/// The line without its last byte.
fn without_last(line: &[u8]) -> &[u8]
    ensures { result.now ≡ take (length line.now - 1) line.now }
{
    match line {
        [front @ .., _] => front,
        [] => line,
    }
}

/// The entry that a line says, whatever its last byte is.
#[tactic(auto, unfolding(crate::specs::Reading::entry_of))]
fn entry(alloc: Global, line: &[u8]) -> Result<Entry, WordFault>
    ensures { Gives result (entry_of line.now) }
{
    let words = parts(alloc, without_last(line), b' ')?;
    let (front, after) = split_at_arrow(words.as_slice());
    said_entry(alloc, front, after)
}

/// Whether the bytes of a line are those that were written.
fn is_same(written: &[u8], line: &[u8]) -> bool
    ensures { IsTrue result ↔ (written.now ≡ line.now) }
{
    written == line
}

/// The entry, if this is its line.
fn confirmed(alloc: Global, entry: Entry, line: &[u8]) -> Result<Entry, WordFault>
    ensures ok { IfOk result (λ same. (same ≡ entry) × (line_of entry ≡ line.now)) }
    ensures malformed { result ≡ Err WordFault.Malformed → line_of entry ≢ line.now }
{
    let written = history_line(alloc, &entry)?;
    if is_same(written.as_slice(), line) {
        Ok(entry)
    } else {
        Err(WordFault::Malformed)
    }
}

/// The entry whose line this is.
fn entry_with(alloc: Global, line: &[u8]) -> Result<Entry, WordFault>
    ensures ok { IfOk result
        (λ entry. IsEntry entry × (entry.stamp ≡ 0) × (line_of entry ≡ line.now)) }
    ensures malformed { result ≡ Err WordFault.Malformed
        → (entry : EntryOf) → IsEntry entry → line_of entry ≢ line.now }
{
    let entry = entry(alloc, line)?;
    confirmed(alloc, entry, line)
}

/// Reads the line that a history has for an entry, with its newline: who gave the command, the
/// command, ` -> ` and the reply. It must be spelled exactly as a history writes it. The stamp is
/// not written, so the entry has stamp 0.
pub fn read_line(alloc: Global, line: &[u8]) -> Result<Entry, ScriptFault>
    ensures read { IfOk result
        (λ entry. IsEntry entry × (entry.stamp ≡ 0) × (line_of entry ≡ line.now)) }
    ensures bad { IfErr result (IsNoLine line.now) }
{
    match entry_with(alloc, line) {
        Ok(entry) => Ok(entry),
        Err(WordFault::Malformed) => Err(ScriptFault::Bad {
            line: 1,
            kind: FaultKind::WordForm,
        }),
        Err(WordFault::OutOfMemory) => Err(ScriptFault::OutOfMemory),
    }
}

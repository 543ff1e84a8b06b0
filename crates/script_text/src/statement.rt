//! What a line says by its words.
ghost use Rattle.std.specs.Prelude.{◌≡◌, map};
ghost use Rattle.command_text.specs.word_forms.Read.{Gives};
ghost use Rattle.script_text.specs.Script.{is_section_word, keyword_of, statement_after, takes_count};

use command_text::from_fileset_values::Command;
use command_text::limits::MAX_CLIENTS;
use command_text::{Verb, WordFault, command, known_verb, number_within};
use std::alloc::Global;

/// What the first word of a line asks for.
#[derive(Clone, Copy, Debug)]
pub enum Keyword {
    /// The section of a client.
    Client,
    /// A command that scripts may have.
    Command(Verb),
}

/// What a line says that is neither skipped nor bad.
#[derive(Drop)]
pub enum Statement {
    /// The section of a client begins.
    Opens(u8),
    /// A command of the section.
    Gives(Command),
}

/// Whether a first word begins a section.
pub fn is_section_word(word: &[u8]) -> bool
    ensures { result ≡ is_section_word word.now }
{
    word == b"client".as_slice()
}

/// What the first word of a line asks for, if it is known.
pub fn known_word(word: &[u8]) -> Option<Keyword>
    ensures { result ≡ keyword_of word.now }
{
    if is_section_word(word) {
        return Some(Keyword::Client);
    }
    let verb = known_verb(word)?;
    if verb.is_in_scripts() {
        Some(Keyword::Command(verb))
    } else {
        None
    }
}

impl Keyword {
    /// Whether its line may have `count` words, counting the first.
    pub fn takes(self, count: usize) -> bool
        ensures { result ≡ takes_count self count }
    {
        match self {
            Keyword::Client => count == 2,
            Keyword::Command(verb) => verb.takes(count),
        }
    }
}

/// The section of a client, by its number.
fn opens(words: &[&[u8]]) -> Result<Statement, WordFault>
    ensures { Gives result (statement_after Keyword.Client (map (λ word. word.now) words.now)) }
{
    let [word] = words else {
        return Err(WordFault::Malformed);
    };
    let number = number_within(1, MAX_CLIENTS as u32, word).ok_or(WordFault::Malformed)?;
    Ok(Statement::Opens(number as u8))
}

fn gives(alloc: Global, verb: Verb, words: &[&[u8]]) -> Result<Statement, WordFault>
    ensures { Gives result (statement_after (Keyword.Command verb)
        (map (λ word. word.now) words.now)) }
{
    let command = command(alloc, verb, words)?;
    Ok(Statement::Gives(command))
}

/// What the words after the first say.
pub fn others(alloc: Global, keyword: Keyword, words: &[&[u8]]) -> Result<Statement, WordFault>
    ensures { Gives result (statement_after keyword (map (λ word. word.now) words.now)) }
{
    match keyword {
        Keyword::Client => opens(words),
        Keyword::Command(verb) => gives(alloc, verb, words),
    }
}

//! The script that a text says.
ghost use Rattle.std.specs.Prelude.{◌≡◌, ◌==◌, [], ◌∷◌, ◌++◌, Some, not, IfOk, IfErr, MatchResult};
ghost use Rattle.std.specs.List.{list_any};
ghost use Rattle.script_text.specs.Reading.{IsAdded, IsRefused, IsTaken, Refuses, Says, drafted};
ghost use Rattle.script_text.specs.Script.{Reports, is_script_byte, script_of};

use crate::fault::{FaultKind, LineFault};
use crate::script::{Script, ScriptFault, Section};
use crate::statement::{Statement, is_section_word, known_word, others};
use crate::words::{split_line, words};
use command_text::from_fileset_values::Command;
use command_text::limits::MAX_COMMANDS;
use command_text::{Listing, OutOfMemory, WordFault};
use std::alloc::Global;

/// The sections that the lines so far opened: those that are done, and the one that is open.
#[derive(Drop)]
pub struct Draft {
    pub done: Vec<Section>,
    pub number: u8,
    pub commands: Vec<Command>,
}

fn is_script_byte(byte: u8) -> bool
    ensures { result ≡ is_script_byte byte }
{
    byte == b'\t' || matches!(byte, b' '..=b'~')
}

fn has_other_byte(line: &[u8]) -> bool
    ensures { result ≡ list_any (λ b. not (is_script_byte b)) line.now }
{
    line.iter().any(|byte| !is_script_byte(*byte))
}

/// What a line says, unless it is skipped: its first fault, or a statement.
fn read_line(
    alloc: Global,
    draft: &Option<Draft>,
    line: &[u8],
) -> Result<Option<Statement>, LineFault>
    ensures { MatchResult result (Says (drafted draft.now) line.now)
        (Refuses (drafted draft.now) line.now) }
{
    if line.first() == Some(&b'#') {
        return Ok(None);
    }
    let words = words(alloc, line)?;
    let [first, after @ ..] = words.as_slice() else {
        return Ok(None);
    };
    if has_other_byte(line) {
        return Err(LineFault::Kind(FaultKind::OtherByte));
    }
    if draft.is_none() && !is_section_word(first) {
        return Err(LineFault::Kind(FaultKind::NoSection));
    }
    let Some(keyword) = known_word(first) else {
        return Err(LineFault::Kind(FaultKind::UnknownWord));
    };
    if !keyword.takes(words.len()) {
        return Err(LineFault::Kind(FaultKind::WordCount));
    }
    match others(alloc, keyword, after) {
        Ok(statement) => Ok(Some(statement)),
        Err(WordFault::Malformed) => Err(LineFault::Kind(FaultKind::WordForm)),
        Err(WordFault::OutOfMemory) => Err(LineFault::OutOfMemory),
    }
}

fn is_done(done: &[Section], number: u8) -> bool
    ensures { result ≡ list_any (λ section. section.number == number) done.now }
{
    done.iter().any(|section| section.number == number)
}

/// Whether one of the sections has the number.
fn has_section(draft: &Draft, number: u8) -> bool
    ensures { result ≡ list_any (λ section. section.number == number) (drafted (Some draft.now)) }
{
    is_done(draft.done.as_slice(), number) || draft.number == number
}

/// The sections with one more, which has no command yet.
fn opened(alloc: Global, draft: Draft, number: u8) -> Result<Draft, LineFault>
    ensures { MatchResult result
        (λ next. IsAdded (drafted (Some draft)) (Statement.Opens number) (drafted (Some next)))
        (IsRefused (drafted (Some draft)) (Statement.Opens number)) }
{
    if has_section(&draft, number) {
        return Err(LineFault::Kind(FaultKind::SectionTwice));
    }
    let Draft {
        mut done,
        number: last,
        commands,
    } = draft;
    done.push(Section {
        number: last,
        commands: Listing::from_vec(commands),
    })?;
    Ok(Draft {
        done,
        number,
        commands: Vec::new(alloc),
    })
}

/// The sections with one more command in the last of them.
fn given(mut draft: Draft, command: Command) -> Result<Draft, LineFault>
    ensures { MatchResult result
        (λ next. IsAdded (drafted (Some draft)) (Statement.Gives command) (drafted (Some next)))
        (IsRefused (drafted (Some draft)) (Statement.Gives command)) }
{
    if draft.commands.len() >= MAX_COMMANDS {
        return Err(LineFault::Kind(FaultKind::TooManyCommands));
    }
    draft.commands.push(command)?;
    Ok(draft)
}

/// The sections with one more statement.
fn add(
    alloc: Global,
    draft: Option<Draft>,
    statement: Statement,
) -> Result<Option<Draft>, LineFault>
    ensures { MatchResult result
        (λ next. IsAdded (drafted draft) statement (drafted next))
        (IsRefused (drafted draft) statement) }
{
    match (draft, statement) {
        (None, Statement::Opens(number)) => Ok(Some(Draft {
            done: Vec::new(alloc),
            number,
            commands: Vec::new(alloc),
        })),
        // `read_line` refuses a command before the first section.
        (None, Statement::Gives(_)) => Ok(None),
        (Some(draft), Statement::Opens(number)) => Ok(Some(opened(alloc, draft, number)?)),
        (Some(draft), Statement::Gives(command)) => Ok(Some(given(draft, command)?)),
    }
}

/// The sections with what one more line says.
fn take_line(alloc: Global, draft: Option<Draft>, line: &[u8]) -> Result<Option<Draft>, LineFault>
    ensures { MatchResult result
        (λ next. IsTaken (drafted draft) line.now (drafted next))
        (Refuses (drafted draft) line.now) }
{
    match read_line(alloc, &draft, line)? {
        None => Ok(draft),
        Some(statement) => add(alloc, draft, statement),
    }
}

/// The script that the sections make.
fn finished(alloc: Global, draft: Option<Draft>) -> Result<Script, OutOfMemory>
    ensures { IfOk result (λ script. script ≡ record { clients = drafted draft; mover = None }) }
{
    let mut clients = Vec::new(alloc);
    if let Some(
        Draft {
            done,
            number,
            commands,
        },
    ) = draft
    {
        clients = done;
        clients.push(Section {
            number,
            commands: Listing::from_vec(commands),
        })?;
    }
    Ok(Script {
        clients: Listing::from_vec(clients),
        mover: None,
    })
}

/// The script that a text says, with up to eight sections of clients. For a bad script the error is
/// its first bad line and what is wrong with it.
pub fn read_script(alloc: Global, bytes: &[u8]) -> Result<Script, ScriptFault>
    ensures read { IfOk result (λ script. script_of bytes.now ≡ Ok script) }
    ensures fault { IfErr result (λ fault. Reports fault (script_of bytes.now)) }
{
    let mut rest = bytes;
    let mut number: u32 = 0;
    let mut draft = None;
    while !rest.is_empty() {
        let (line, after) = split_line(rest);
        number = number.saturating_add(1);
        draft = match take_line(alloc, draft, line) {
            Ok(draft) => draft,
            Err(LineFault::Kind(kind)) => {
                return Err(ScriptFault::Bad { line: number, kind });
            }
            Err(LineFault::OutOfMemory) => return Err(ScriptFault::OutOfMemory),
        };
        rest = after;
    }
    match finished(alloc, draft) {
        Ok(script) => Ok(script),
        Err(_) => Err(ScriptFault::OutOfMemory),
    }
}

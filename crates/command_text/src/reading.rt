//! The commands that words say.
ghost use Rattle.std.specs.Prelude.{◌≡◌, ◌^◌, true, false, MatchResult, map, option_map};
ghost use Rattle.std.specs.Str.{bytes_eq};
ghost use Rattle.command_text.specs.Commands.{command_of, migrate_to, no_word, one_word, optional};
ghost use Rattle.word_forms.specs.Forms.{fileset_of, named_place_of, number_below, owner_of, place_of, switch_of};
ghost use Rattle.word_forms.specs.Read.{Gives};

use crate::verb::Verb;
use std::alloc::Global;
use word_forms::from_fileset_values::Place;
use word_forms::limits::MAX_TRANSFER;
use word_forms::{
    Command, FilesetName, Owner, WordFault, bytes, fileset, named_path, named_place, number,
    number_within, place, small_number,
};

/// Whose a quota is, by two words.
#[tactic(auto, unfolding(word_forms::specs::Forms::owner_of))]
fn owner(kind: &[u8], id: &[u8]) -> Option<Owner>
    ensures { result ≡ owner_of kind.now id.now }
{
    if kind == b"user".as_slice() {
        Some(Owner::User(small_number(id)?))
    } else if kind == b"group".as_slice() {
        Some(Owner::Group(small_number(id)?))
    } else if kind == b"fileset".as_slice() {
        number_within(0, 0, id)?;
        Some(Owner::Fileset)
    } else {
        None
    }
}

/// Whether the word says `on`, if it is `on` or `off`.
#[tactic(auto, unfolding(word_forms::specs::Forms::switch_of))]
fn switched(word: &[u8]) -> Option<bool>
    ensures { result ≡ switch_of word.now }
{
    if word == b"on".as_slice() {
        Some(true)
    } else if word == b"off".as_slice() {
        Some(false)
    } else {
        None
    }
}

/// Refuses any word other than the option.
fn is_option(word: &[u8], option: &[u8]) -> Result<(), WordFault>
    ensures { MatchResult result (λ _. bytes_eq word.now option.now ≡ true)
        (λ fault. (fault ≡ WordFault.Malformed) × (bytes_eq word.now option.now ≡ false)) }
{
    if word == option {
        Ok(())
    } else {
        Err(WordFault::Malformed)
    }
}

/// The command, if there are no further words.
fn alone(words: &[&[u8]], command: Command) -> Result<Command, WordFault>
    ensures { Gives result (no_word command (map (λ word. word.now) words.now)) }
{
    if words.is_empty() {
        Ok(command)
    } else {
        Err(WordFault::Malformed)
    }
}

fn one_fileset(alloc: Global, words: &[&[u8]]) -> Result<FilesetName, WordFault>
    ensures { Gives result (one_word fileset_of (map (λ word. word.now) words.now)) }
{
    let [word] = words else {
        return Err(WordFault::Malformed);
    };
    fileset(alloc, word)
}

fn one_place(alloc: Global, words: &[&[u8]]) -> Result<Place, WordFault>
    ensures { Gives result (one_word place_of (map (λ word. word.now) words.now)) }
{
    let [word] = words else {
        return Err(WordFault::Malformed);
    };
    place(alloc, word)
}

fn one_named_place(alloc: Global, words: &[&[u8]]) -> Result<Place, WordFault>
    ensures { Gives result (one_word named_place_of (map (λ word. word.now) words.now)) }
{
    let [word] = words else {
        return Err(WordFault::Malformed);
    };
    named_place(alloc, word)
}

fn one_volume(words: &[&[u8]]) -> Result<u32, WordFault>
    ensures { Gives result (one_word (number_below (2 ^ 32)) (map (λ word. word.now) words.now)) }
{
    let [word] = words else {
        return Err(WordFault::Malformed);
    };
    small_number(word).ok_or(WordFault::Malformed)
}

fn mkfset(alloc: Global, words: &[&[u8]]) -> Result<Command, WordFault>
    ensures { Gives result (command_of Verb.Mkfset (map (λ word. word.now) words.now)) }
{
    let fileset = one_fileset(alloc, words)?;
    Ok(Command::Mkfset { fileset })
}

fn rmfset(alloc: Global, words: &[&[u8]]) -> Result<Command, WordFault>
    ensures { Gives result (command_of Verb.Rmfset (map (λ word. word.now) words.now)) }
{
    let fileset = one_fileset(alloc, words)?;
    Ok(Command::Rmfset { fileset })
}

fn links(alloc: Global, words: &[&[u8]]) -> Result<Command, WordFault>
    ensures { Gives result (command_of Verb.Links (map (λ word. word.now) words.now)) }
{
    let place = one_place(alloc, words)?;
    Ok(Command::Links { place })
}

fn list(alloc: Global, words: &[&[u8]]) -> Result<Command, WordFault>
    ensures { Gives result (command_of Verb.List (map (λ word. word.now) words.now)) }
{
    let place = one_place(alloc, words)?;
    Ok(Command::List { place })
}

fn stat(alloc: Global, words: &[&[u8]]) -> Result<Command, WordFault>
    ensures { Gives result (command_of Verb.Stat (map (λ word. word.now) words.now)) }
{
    let place = one_place(alloc, words)?;
    Ok(Command::Stat { place })
}

fn fsync(alloc: Global, words: &[&[u8]]) -> Result<Command, WordFault>
    ensures { Gives result (command_of Verb.Fsync (map (λ word. word.now) words.now)) }
{
    let place = one_place(alloc, words)?;
    Ok(Command::Fsync { place })
}

fn showfile(alloc: Global, words: &[&[u8]]) -> Result<Command, WordFault>
    ensures { Gives result (command_of Verb.Showfile (map (λ word. word.now) words.now)) }
{
    let place = one_place(alloc, words)?;
    Ok(Command::Showfile { place })
}

fn defragment(alloc: Global, words: &[&[u8]]) -> Result<Command, WordFault>
    ensures { Gives result (command_of Verb.Defragment (map (λ word. word.now) words.now)) }
{
    let place = one_place(alloc, words)?;
    Ok(Command::Defragment { place })
}

fn unlink(alloc: Global, words: &[&[u8]]) -> Result<Command, WordFault>
    ensures { Gives result (command_of Verb.Unlink (map (λ word. word.now) words.now)) }
{
    let place = one_named_place(alloc, words)?;
    Ok(Command::Unlink { place })
}

fn rmdir(alloc: Global, words: &[&[u8]]) -> Result<Command, WordFault>
    ensures { Gives result (command_of Verb.Rmdir (map (λ word. word.now) words.now)) }
{
    let place = one_named_place(alloc, words)?;
    Ok(Command::Rmdir { place })
}

fn addvol(words: &[&[u8]]) -> Result<Command, WordFault>
    ensures { Gives result (command_of Verb.Addvol (map (λ word. word.now) words.now)) }
{
    let vol = one_volume(words)?;
    Ok(Command::Addvol { vol })
}

fn rmvol(words: &[&[u8]]) -> Result<Command, WordFault>
    ensures { Gives result (command_of Verb.Rmvol (map (λ word. word.now) words.now)) }
{
    let vol = one_volume(words)?;
    Ok(Command::Rmvol { vol })
}

fn switchlog(words: &[&[u8]]) -> Result<Command, WordFault>
    ensures { Gives result (command_of Verb.Switchlog (map (λ word. word.now) words.now)) }
{
    let vol = one_volume(words)?;
    Ok(Command::Switchlog { vol })
}

/// The place of what is made, with its uid and gid.
#[tactic(auto, unfolding(crate::specs::Commands::clonefset))]
fn clonefset(alloc: Global, words: &[&[u8]]) -> Result<Command, WordFault>
    ensures { Gives result (command_of Verb.Clonefset (map (λ word. word.now) words.now)) }
{
    let [of, new_name] = words else {
        return Err(WordFault::Malformed);
    };
    let original = fileset(alloc, of)?;
    let new_name = fileset(alloc, new_name)?;
    Ok(Command::Clonefset {
        fileset: original,
        new_name,
    })
}

#[tactic(auto, unfolding(crate::specs::Commands::setquota))]
fn setquota(alloc: Global, words: &[&[u8]]) -> Result<Command, WordFault>
    ensures { Gives result (command_of Verb.Setquota (map (λ word. word.now) words.now)) }
{
    let [of, kind, id, files, blocks] = words else {
        return Err(WordFault::Malformed);
    };
    let fileset = fileset(alloc, of)?;
    let who = owner(kind, id).ok_or(WordFault::Malformed)?;
    let files = number(files).ok_or(WordFault::Malformed)?;
    let blocks = number(blocks).ok_or(WordFault::Malformed)?;
    Ok(Command::Setquota {
        fileset,
        who,
        files,
        blocks,
    })
}

#[tactic(auto, unfolding(crate::specs::Commands::showquota))]
fn showquota(alloc: Global, words: &[&[u8]]) -> Result<Command, WordFault>
    ensures { Gives result (command_of Verb.Showquota (map (λ word. word.now) words.now)) }
{
    let [of, kind, id] = words else {
        return Err(WordFault::Malformed);
    };
    let fileset = fileset(alloc, of)?;
    let who = owner(kind, id).ok_or(WordFault::Malformed)?;
    Ok(Command::Showquota { fileset, who })
}

#[tactic(auto, unfolding(crate::specs::Commands::made))]
fn create(alloc: Global, words: &[&[u8]]) -> Result<Command, WordFault>
    ensures { Gives result (command_of Verb.Create (map (λ word. word.now) words.now)) }
{
    let [at, uid, gid] = words else {
        return Err(WordFault::Malformed);
    };
    let place = named_place(alloc, at)?;
    let uid = small_number(uid).ok_or(WordFault::Malformed)?;
    let gid = small_number(gid).ok_or(WordFault::Malformed)?;
    Ok(Command::Create { place, uid, gid })
}

#[tactic(auto, unfolding(crate::specs::Commands::made))]
fn mkdir(alloc: Global, words: &[&[u8]]) -> Result<Command, WordFault>
    ensures { Gives result (command_of Verb.Mkdir (map (λ word. word.now) words.now)) }
{
    let [at, uid, gid] = words else {
        return Err(WordFault::Malformed);
    };
    let place = named_place(alloc, at)?;
    let uid = small_number(uid).ok_or(WordFault::Malformed)?;
    let gid = small_number(gid).ok_or(WordFault::Malformed)?;
    Ok(Command::Mkdir { place, uid, gid })
}

#[tactic(auto, unfolding(crate::specs::Commands::write))]
fn write(alloc: Global, words: &[&[u8]]) -> Result<Command, WordFault>
    ensures { Gives result (command_of Verb.Write (map (λ word. word.now) words.now)) }
{
    let [at, offset, said] = words else {
        return Err(WordFault::Malformed);
    };
    let place = place(alloc, at)?;
    let offset = number(offset).ok_or(WordFault::Malformed)?;
    let bytes = bytes(alloc, said)?;
    Ok(Command::Write {
        place,
        offset,
        bytes,
    })
}

#[tactic(auto, unfolding(crate::specs::Commands::read))]
fn read(alloc: Global, words: &[&[u8]]) -> Result<Command, WordFault>
    ensures { Gives result (command_of Verb.Read (map (λ word. word.now) words.now)) }
{
    let [at, offset, count] = words else {
        return Err(WordFault::Malformed);
    };
    let place = place(alloc, at)?;
    let offset = number(offset).ok_or(WordFault::Malformed)?;
    let count = number_within(0, MAX_TRANSFER as u32, count).ok_or(WordFault::Malformed)?;
    Ok(Command::Read {
        place,
        offset,
        count,
    })
}

#[tactic(auto, unfolding(crate::specs::Commands::truncate))]
fn truncate(alloc: Global, words: &[&[u8]]) -> Result<Command, WordFault>
    ensures { Gives result (command_of Verb.Truncate (map (λ word. word.now) words.now)) }
{
    let [at, size] = words else {
        return Err(WordFault::Malformed);
    };
    let place = place(alloc, at)?;
    let size = number(size).ok_or(WordFault::Malformed)?;
    Ok(Command::Truncate { place, size })
}

#[tactic(auto, unfolding(crate::specs::Commands::two_paths))]
fn rename(alloc: Global, words: &[&[u8]]) -> Result<Command, WordFault>
    ensures { Gives result (command_of Verb.Rename (map (λ word. word.now) words.now)) }
{
    let [at, to] = words else {
        return Err(WordFault::Malformed);
    };
    let place = named_place(alloc, at)?;
    let to = named_path(alloc, to)?;
    Ok(Command::Rename { place, to })
}

#[tactic(auto, unfolding(crate::specs::Commands::two_paths))]
fn link(alloc: Global, words: &[&[u8]]) -> Result<Command, WordFault>
    ensures { Gives result (command_of Verb.Link (map (λ word. word.now) words.now)) }
{
    let [at, to] = words else {
        return Err(WordFault::Malformed);
    };
    let place = named_place(alloc, at)?;
    let to = named_path(alloc, to)?;
    Ok(Command::Link { place, to })
}

#[tactic(auto, unfolding(crate::specs::Commands::chfile))]
fn chfile(alloc: Global, words: &[&[u8]]) -> Result<Command, WordFault>
    ensures { Gives result (command_of Verb.Chfile (map (λ word. word.now) words.now)) }
{
    let [option, switch, at] = words else {
        return Err(WordFault::Malformed);
    };
    is_option(option, b"-L")?;
    let logged = switched(switch).ok_or(WordFault::Malformed)?;
    let place = place(alloc, at)?;
    Ok(Command::Chfile { place, logged })
}

#[tactic(auto, unfolding(crate::specs::Commands::stripe))]
fn stripe(alloc: Global, words: &[&[u8]]) -> Result<Command, WordFault>
    ensures { Gives result (command_of Verb.Stripe (map (λ word. word.now) words.now)) }
{
    let [option, width, at] = words else {
        return Err(WordFault::Malformed);
    };
    is_option(option, b"-n")?;
    let width = number_within(2, 8, width).ok_or(WordFault::Malformed)?;
    let place = place(alloc, at)?;
    Ok(Command::Stripe {
        width: width as u8,
        place,
    })
}

#[tactic(auto, unfolding(crate::specs::Commands::chvol))]
fn chvol(words: &[&[u8]]) -> Result<Command, WordFault>
    ensures { Gives result (command_of Verb.Chvol (map (λ word. word.now) words.now)) }
{
    let [option, vol] = words else {
        return Err(WordFault::Malformed);
    };
    is_option(option, b"-A")?;
    let vol = small_number(vol).ok_or(WordFault::Malformed)?;
    Ok(Command::ChvolA { vol })
}

/// An option with its number, if the words begin with it, and the words after it.
type Optional<'a, 'b> = (Option<u32>, &'a [&'b [u8]]);

#[tactic(auto, unfolding(crate::specs::Commands::optional))]
fn optional<'a, 'b>(option: &[u8], words: &'a [&'b [u8]]) -> Option<Optional<'a, 'b>>
    ensures { option_map (λ r. (r.0, map (λ word. word.now) r.1.now)) result
        ≡ optional option.now (map (λ word. word.now) words.now) }
{
    match words {
        [name, value, after @ ..] if *name == option => Some((Some(small_number(value)?), after)),
        _ => Some((None, words)),
    }
}

#[tactic(auto, unfolding(crate::specs::Commands::migrate_to))]
fn migrate_to(
    alloc: Global,
    first: Option<u32>,
    count: Option<u32>,
    from: Option<u32>,
    words: &[&[u8]],
) -> Result<Command, WordFault>
    ensures { Gives result (migrate_to first count from (map (λ word. word.now) words.now)) }
{
    let [option, vol, at] = words else {
        return Err(WordFault::Malformed);
    };
    is_option(option, b"-d")?;
    let to = small_number(vol).ok_or(WordFault::Malformed)?;
    let place = place(alloc, at)?;
    Ok(Command::Migrate {
        place,
        first,
        count,
        from,
        to,
    })
}

#[tactic(auto, unfolding(crate::specs::Commands::migrate))]
fn migrate(alloc: Global, words: &[&[u8]]) -> Result<Command, WordFault>
    ensures { Gives result (command_of Verb.Migrate (map (λ word. word.now) words.now)) }
{
    let (first, words) = optional(b"-p", words).ok_or(WordFault::Malformed)?;
    let (count, words) = optional(b"-n", words).ok_or(WordFault::Malformed)?;
    let (from, words) = optional(b"-s", words).ok_or(WordFault::Malformed)?;
    migrate_to(alloc, first, count, from, words)
}

/// The command that the words after its first word say.
pub fn command(alloc: Global, verb: Verb, words: &[&[u8]]) -> Result<Command, WordFault>
    ensures { Gives result (command_of verb (map (λ word. word.now) words.now)) }
{
    match verb {
        Verb::Mkfset => mkfset(alloc, words),
        Verb::Rmfset => rmfset(alloc, words),
        Verb::Clonefset => clonefset(alloc, words),
        Verb::Showfsets => alone(words, Command::Showfsets),
        Verb::Setquota => setquota(alloc, words),
        Verb::Showquota => showquota(alloc, words),
        Verb::Create => create(alloc, words),
        Verb::Mkdir => mkdir(alloc, words),
        Verb::Write => write(alloc, words),
        Verb::Read => read(alloc, words),
        Verb::Truncate => truncate(alloc, words),
        Verb::Rename => rename(alloc, words),
        Verb::Link => link(alloc, words),
        Verb::Links => links(alloc, words),
        Verb::Unlink => unlink(alloc, words),
        Verb::Rmdir => rmdir(alloc, words),
        Verb::List => list(alloc, words),
        Verb::Stat => stat(alloc, words),
        Verb::Fsync => fsync(alloc, words),
        Verb::Chfile => chfile(alloc, words),
        Verb::Stripe => stripe(alloc, words),
        Verb::Sync => alone(words, Command::Sync),
        Verb::Cancel => alone(words, Command::Cancel),
        Verb::Showfdmn => alone(words, Command::Showfdmn),
        Verb::Showfile => showfile(alloc, words),
        Verb::Migrate => migrate(alloc, words),
        Verb::Balance => alone(words, Command::Balance),
        Verb::Addvol => addvol(words),
        Verb::Rmvol => rmvol(words),
        Verb::Chvol => chvol(words),
        Verb::Switchlog => switchlog(words),
        Verb::Upgrade => alone(words, Command::Upgrade),
        Verb::Defragment => defragment(alloc, words),
    }
}

//! Commands as a history writes them.
ghost use Rattle.std.specs.Prelude.{◌≡◌, [], ◌∷◌, ◌++◌, OnOk, decimal};
ghost use Rattle.command_text.specs.Texts.{actor_text, command_text, option_words, owner_id, owner_kind};
ghost use Rattle.word_forms.specs.Texts.{behind_spaces, place_text, spaced};

use word_forms::from_fileset_values::Place;
use word_forms::{
    Actor, Command, FilesetName, OutOfMemory, Owner, Path, push_bytes, push_number, push_path,
    push_place,
};

/// Adds who gave a command: `c` and the number of a client, or `m`.
pub fn push_actor(out: &mut Vec<u8>, actor: Actor) -> Result<(), OutOfMemory>
    ensures { OnOk result (out.new.items ≡ out.old.items ++ actor_text actor) }
{
    match actor {
        Actor::Client(number) => {
            out.push(b'c')?;
            push_number(out, u64::from(number))?;
        }
        Actor::Mover => out.push(b'm')?,
    }
    Ok(())
}

/// Adds a text and a name after it.
fn push_named(out: &mut Vec<u8>, text: &[u8], name: &FilesetName) -> Result<(), OutOfMemory>
    ensures { OnOk result (out.new.items ≡ out.old.items ++ text.now ++ name.now) }
{
    out.extend_from_slice(text)?;
    out.extend_from_slice(name.as_slice())?;
    Ok(())
}

/// Adds a text and a place after it.
fn push_placed(out: &mut Vec<u8>, text: &[u8], place: &Place) -> Result<(), OutOfMemory>
    ensures { OnOk result (out.new.items ≡ out.old.items ++ text.now ++ place_text place.now) }
{
    out.extend_from_slice(text)?;
    push_place(out, place)?;
    Ok(())
}

/// Adds a space and a number.
fn push_number_word(out: &mut Vec<u8>, n: u64) -> Result<(), OutOfMemory>
    ensures { OnOk result (out.new.items ≡ out.old.items ++ 32 ∷ decimal n) }
{
    out.push(b' ')?;
    push_number(out, n)?;
    Ok(())
}

fn owner_kind(who: Owner) -> &'static str
    ensures { result.now ≡ owner_kind who }
{
    match who {
        Owner::User(_) => "user",
        Owner::Group(_) => "group",
        Owner::Fileset => "fileset",
    }
}

fn owner_id(who: Owner) -> u32
    ensures { result ≡ owner_id who }
{
    match who {
        Owner::User(id) | Owner::Group(id) => id,
        Owner::Fileset => 0,
    }
}

/// Adds the two words that say whose a quota is, each after a space.
fn push_owner(out: &mut Vec<u8>, who: Owner) -> Result<(), OutOfMemory>
    ensures { OnOk result (out.new.items
        ≡ out.old.items ++ behind_spaces (owner_kind who ∷ decimal (owner_id who) ∷ [])) }
{
    out.push(b' ')?;
    out.extend_from_slice(owner_kind(who).as_bytes())?;
    push_number_word(out, u64::from(owner_id(who)))?;
    Ok(())
}

/// Adds a command that names a place and two numbers.
fn push_placed_numbers(
    out: &mut Vec<u8>,
    text: &[u8],
    place: &Place,
    first: u64,
    second: u64,
) -> Result<(), OutOfMemory>
    ensures { OnOk result (out.new.items
        ≡ out.old.items ++ text.now
        ++ spaced (place_text place.now ∷ decimal first ∷ decimal second ∷ [])) }
{
    push_placed(out, text, place)?;
    push_number_word(out, first)?;
    push_number_word(out, second)?;
    Ok(())
}

/// Adds a command that makes a file or a directory, with its uid and gid.
fn push_made(
    out: &mut Vec<u8>,
    text: &[u8],
    place: &Place,
    uid: u32,
    gid: u32,
) -> Result<(), OutOfMemory>
    ensures { OnOk result (out.new.items
        ≡ out.old.items ++ text.now
        ++ spaced (place_text place.now ∷ decimal uid ∷ decimal gid ∷ [])) }
{
    push_placed_numbers(out, text, place, u64::from(uid), u64::from(gid))
}

#[tactic(auto, unfolding(crate::specs::Texts::command_text))]
fn push_clonefset(
    out: &mut Vec<u8>,
    fileset: &FilesetName,
    new_name: &FilesetName,
) -> Result<(), OutOfMemory>
    ensures { OnOk result (out.new.items
        ≡ out.old.items ++ command_text (Command.Clonefset fileset.now new_name.now)) }
{
    push_named(out, b"clonefset ", fileset)?;
    push_named(out, b" ", new_name)?;
    Ok(())
}

#[tactic(auto, unfolding(crate::specs::Texts::command_text))]
fn push_setquota(
    out: &mut Vec<u8>,
    fileset: &FilesetName,
    who: Owner,
    files: u64,
    blocks: u64,
) -> Result<(), OutOfMemory>
    ensures { OnOk result (out.new.items
        ≡ out.old.items ++ command_text (Command.Setquota fileset.now who files blocks)) }
{
    push_named(out, b"setquota ", fileset)?;
    push_owner(out, who)?;
    push_number_word(out, files)?;
    push_number_word(out, blocks)?;
    Ok(())
}

#[tactic(auto, unfolding(crate::specs::Texts::command_text))]
fn push_showquota(out: &mut Vec<u8>, fileset: &FilesetName, who: Owner) -> Result<(), OutOfMemory>
    ensures { OnOk result (out.new.items
        ≡ out.old.items ++ command_text (Command.Showquota fileset.now who)) }
{
    push_named(out, b"showquota ", fileset)?;
    push_owner(out, who)?;
    Ok(())
}

#[tactic(auto, unfolding(crate::specs::Texts::command_text))]
fn push_write(
    out: &mut Vec<u8>,
    place: &Place,
    offset: u64,
    bytes: &[u8],
) -> Result<(), OutOfMemory>
    ensures { OnOk result (out.new.items
        ≡ out.old.items ++ command_text (Command.Write place.now offset bytes.now)) }
{
    push_placed(out, b"write ", place)?;
    push_number_word(out, offset)?;
    out.push(b' ')?;
    push_bytes(out, bytes)?;
    Ok(())
}

#[tactic(auto, unfolding(crate::specs::Texts::command_text))]
fn push_truncate(out: &mut Vec<u8>, place: &Place, size: u64) -> Result<(), OutOfMemory>
    ensures { OnOk result (out.new.items
        ≡ out.old.items ++ command_text (Command.Truncate place.now size)) }
{
    push_placed(out, b"truncate ", place)?;
    push_number_word(out, size)?;
    Ok(())
}

#[tactic(auto, unfolding(crate::specs::Texts::command_text))]
fn push_rename(out: &mut Vec<u8>, place: &Place, to: &Path) -> Result<(), OutOfMemory>
    ensures { OnOk result (out.new.items
        ≡ out.old.items ++ command_text (Command.Rename place.now to.now)) }
{
    push_placed(out, b"rename ", place)?;
    out.push(b' ')?;
    push_path(out, to.as_slice())?;
    Ok(())
}

#[tactic(auto, unfolding(crate::specs::Texts::command_text))]
fn push_chfile(out: &mut Vec<u8>, place: &Place, logged: bool) -> Result<(), OutOfMemory>
    ensures { OnOk result (out.new.items
        ≡ out.old.items ++ command_text (Command.Chfile place.now logged)) }
{
    if logged {
        push_placed(out, b"chfile -L on ", place)?;
    } else {
        push_placed(out, b"chfile -L off ", place)?;
    }
    Ok(())
}

#[tactic(auto, unfolding(crate::specs::Texts::command_text))]
fn push_link(out: &mut Vec<u8>, place: &Place, to: &Path) -> Result<(), OutOfMemory>
    ensures { OnOk result (out.new.items
        ≡ out.old.items ++ command_text (Command.Link place.now to.now)) }
{
    push_placed(out, b"link ", place)?;
    out.push(b' ')?;
    push_path(out, to.as_slice())?;
    Ok(())
}

#[tactic(auto, unfolding(crate::specs::Texts::command_text))]
fn push_stripe(out: &mut Vec<u8>, width: u8, place: &Place) -> Result<(), OutOfMemory>
    ensures { OnOk result (out.new.items
        ≡ out.old.items ++ command_text (Command.Stripe width place.now)) }
{
    out.extend_from_slice(b"stripe -n ")?;
    push_number(out, u64::from(width))?;
    push_placed(out, b" ", place)?;
    Ok(())
}

/// Adds an option with its number, each after a space, if it is given.
fn push_option(out: &mut Vec<u8>, name: &[u8], n: Option<u32>) -> Result<(), OutOfMemory>
    ensures { OnOk result (out.new.items
        ≡ out.old.items ++ behind_spaces (option_words name.now n)) }
{
    if let Some(n) = n {
        out.push(b' ')?;
        out.extend_from_slice(name)?;
        push_number_word(out, u64::from(n))?;
    }
    Ok(())
}

/// Adds a text and the number of a volume.
fn push_volume(out: &mut Vec<u8>, text: &[u8], vol: u32) -> Result<(), OutOfMemory>
    ensures { OnOk result (out.new.items ≡ out.old.items ++ text.now ++ decimal vol) }
{
    out.extend_from_slice(text)?;
    push_number(out, u64::from(vol))?;
    Ok(())
}

#[tactic(auto, unfolding(crate::specs::Texts::command_text))]
fn push_migrate(
    out: &mut Vec<u8>,
    place: &Place,
    first: Option<u32>,
    count: Option<u32>,
    from: Option<u32>,
    to: u32,
) -> Result<(), OutOfMemory>
    ensures { OnOk result (out.new.items
        ≡ out.old.items ++ command_text (Command.Migrate place.now first count from to)) }
{
    out.extend_from_slice(b"migrate")?;
    push_option(out, b"-p", first)?;
    push_option(out, b"-n", count)?;
    push_option(out, b"-s", from)?;
    push_option(out, b"-d", Some(to))?;
    push_placed(out, b" ", place)?;
    Ok(())
}

/// Adds a command with one space between two words.
#[tactic(auto, unfolding(crate::specs::Texts::command_text))]
pub fn push_command(out: &mut Vec<u8>, command: &Command) -> Result<(), OutOfMemory>
    ensures { OnOk result (out.new.items ≡ out.old.items ++ command_text command.now) }
{
    match command {
        Command::Mkfset { fileset } => push_named(out, b"mkfset ", fileset)?,
        Command::Rmfset { fileset } => push_named(out, b"rmfset ", fileset)?,
        Command::Clonefset { fileset, new_name } => push_clonefset(out, fileset, new_name)?,
        Command::Showfsets => out.extend_from_slice(b"showfsets")?,
        Command::Setquota {
            fileset,
            who,
            files,
            blocks,
        } => push_setquota(out, fileset, *who, *files, *blocks)?,
        Command::Showquota { fileset, who } => push_showquota(out, fileset, *who)?,
        Command::Create { place, uid, gid } => push_made(out, b"create ", place, *uid, *gid)?,
        Command::Mkdir { place, uid, gid } => push_made(out, b"mkdir ", place, *uid, *gid)?,
        Command::Write {
            place,
            offset,
            bytes,
        } => push_write(out, place, *offset, bytes.as_slice())?,
        Command::Read {
            place,
            offset,
            count,
        } => push_placed_numbers(out, b"read ", place, *offset, u64::from(*count))?,
        Command::Truncate { place, size } => push_truncate(out, place, *size)?,
        Command::Rename { place, to } => push_rename(out, place, to)?,
        Command::Link { place, to } => push_link(out, place, to)?,
        Command::Links { place } => push_placed(out, b"links ", place)?,
        Command::Unlink { place } => push_placed(out, b"unlink ", place)?,
        Command::Rmdir { place } => push_placed(out, b"rmdir ", place)?,
        Command::List { place } => push_placed(out, b"list ", place)?,
        Command::Stat { place } => push_placed(out, b"stat ", place)?,
        Command::Fsync { place } => push_placed(out, b"fsync ", place)?,
        Command::Chfile { place, logged } => push_chfile(out, place, *logged)?,
        Command::Stripe { width, place } => push_stripe(out, *width, place)?,
        Command::Sync => out.extend_from_slice(b"sync")?,
        Command::Cancel => out.extend_from_slice(b"cancel")?,
        Command::Showfdmn => out.extend_from_slice(b"showfdmn")?,
        Command::Showfile { place } => push_placed(out, b"showfile ", place)?,
        Command::Migrate {
            place,
            first,
            count,
            from,
            to,
        } => push_migrate(out, place, *first, *count, *from, *to)?,
        Command::Balance => out.extend_from_slice(b"balance")?,
        Command::Addvol { vol } => push_volume(out, b"addvol ", *vol)?,
        Command::Rmvol { vol } => push_volume(out, b"rmvol ", *vol)?,
        Command::ChvolA { vol } => push_volume(out, b"chvol -A ", *vol)?,
        Command::Switchlog { vol } => push_volume(out, b"switchlog ", *vol)?,
        Command::Upgrade => out.extend_from_slice(b"upgrade")?,
        Command::Defragment { place } => push_placed(out, b"defragment ", place)?,
    }
    Ok(())
}

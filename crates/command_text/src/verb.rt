//! The first words of commands.
ghost use Rattle.std.specs.Prelude.{◌≡◌};
ghost use Rattle.std.specs.Str.{bytes_eq};
ghost use Rattle.command_text.specs.Commands.{row_of, takes, verb_of};

/// What a command asks for, by its first word.
#[derive(Clone, Copy, Debug, PartialEq, Eq)]
pub enum Verb {
    Mkfset,
    Rmfset,
    Clonefset,
    Showfsets,
    Setquota,
    Showquota,
    Create,
    Mkdir,
    Write,
    Read,
    Truncate,
    Rename,
    Link,
    Links,
    Unlink,
    Rmdir,
    List,
    Stat,
    Fsync,
    Chfile,
    Stripe,
    Sync,
    Cancel,
    Showfdmn,
    Showfile,
    Migrate,
    Balance,
    Addvol,
    Rmvol,
    Chvol,
    Switchlog,
    Upgrade,
    Defragment,
}

impl Verb {
    /// All of them.
    const ALL: [Verb; 33] = [
        Verb::Mkfset,
        Verb::Rmfset,
        Verb::Clonefset,
        Verb::Showfsets,
        Verb::Setquota,
        Verb::Showquota,
        Verb::Create,
        Verb::Mkdir,
        Verb::Write,
        Verb::Read,
        Verb::Truncate,
        Verb::Rename,
        Verb::Link,
        Verb::Links,
        Verb::Unlink,
        Verb::Rmdir,
        Verb::List,
        Verb::Stat,
        Verb::Fsync,
        Verb::Chfile,
        Verb::Stripe,
        Verb::Sync,
        Verb::Cancel,
        Verb::Showfdmn,
        Verb::Showfile,
        Verb::Migrate,
        Verb::Balance,
        Verb::Addvol,
        Verb::Rmvol,
        Verb::Chvol,
        Verb::Switchlog,
        Verb::Upgrade,
        Verb::Defragment,
    ];

    /// The first word, the most words that the line has, counting itself, and whether scripts have
    /// the command today. The others stand only in histories.
    fn row(self) -> (&'static str, usize, bool)
        ensures text { result.0.now ≡ (row_of self).text }
        ensures words { result.1 ≡ (row_of self).words }
        ensures in_scripts { result.2 ≡ (row_of self).in_scripts }
    {
        match self {
            Verb::Mkfset => ("mkfset", 2, true),
            Verb::Rmfset => ("rmfset", 2, true),
            Verb::Clonefset => ("clonefset", 3, false),
            Verb::Showfsets => ("showfsets", 1, true),
            Verb::Setquota => ("setquota", 6, true),
            Verb::Showquota => ("showquota", 4, true),
            Verb::Create => ("create", 4, true),
            Verb::Mkdir => ("mkdir", 4, true),
            Verb::Write => ("write", 4, true),
            Verb::Read => ("read", 4, true),
            Verb::Truncate => ("truncate", 3, true),
            Verb::Rename => ("rename", 3, true),
            Verb::Link => ("link", 3, true),
            Verb::Links => ("links", 2, true),
            Verb::Unlink => ("unlink", 2, true),
            Verb::Rmdir => ("rmdir", 2, true),
            Verb::List => ("list", 2, true),
            Verb::Stat => ("stat", 2, true),
            Verb::Fsync => ("fsync", 2, true),
            Verb::Chfile => ("chfile", 4, true),
            Verb::Stripe => ("stripe", 4, false),
            Verb::Sync => ("sync", 1, true),
            Verb::Cancel => ("cancel", 1, true),
            Verb::Showfdmn => ("showfdmn", 1, true),
            Verb::Showfile => ("showfile", 2, true),
            Verb::Migrate => ("migrate", 10, false),
            Verb::Balance => ("balance", 1, false),
            Verb::Addvol => ("addvol", 2, false),
            Verb::Rmvol => ("rmvol", 2, false),
            Verb::Chvol => ("chvol", 3, false),
            Verb::Switchlog => ("switchlog", 2, false),
            Verb::Upgrade => ("upgrade", 1, false),
            Verb::Defragment => ("defragment", 2, false),
        }
    }

    /// The first word.
    pub fn text(self) -> &'static str
        ensures { result.now ≡ (row_of self).text }
    {
        self.row().0
    }

    /// Whether this is its first word.
    fn is_named(self, word: &[u8]) -> bool
        ensures { result ≡ bytes_eq (row_of self).text word.now }
    {
        self.text().as_bytes() == word
    }

    /// Whether its line may have `count` words, counting the first.
    #[tactic(auto, unfolding(crate::specs::Commands::takes))]
    pub fn takes(self, count: usize) -> bool
        ensures { result ≡ takes self count }
    {
        match self {
            Verb::Migrate => matches!(count, 4 | 6 | 8 | 10),
            _ => count == self.row().1,
        }
    }

    /// Whether scripts have it today.
    pub fn is_in_scripts(self) -> bool
        ensures { result ≡ (row_of self).in_scripts }
    {
        self.row().2
    }
}

/// What a first word asks for, if it is known.
pub fn known_verb(word: &[u8]) -> Option<Verb>
    ensures { result ≡ verb_of word.now }
{
    for verb in &Verb::ALL {
        if verb.is_named(word) {
            return Some(*verb);
        }
    }
    None
}

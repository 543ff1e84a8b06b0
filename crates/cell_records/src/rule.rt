//! Which numbers may stand in a field.

ghost use Rattle.std.specs.Prelude.{◌≡◌, true};
ghost use Rattle.cell_records.specs.Rules.{allows, after};

/// The most pages that a file has. The last file page is one less.
const FILE_PAGES: u64 = 65_536;

/// The greatest number of a volume.
const LAST_VOLUME: u64 = 8;

/// Which numbers may stand in a field, given the fields before it.
#[derive(Clone, Copy)]
pub enum Rule {
    /// Every number that the field's width holds.
    Any,
    /// The numbers from the first to the second.
    Range(u64, u64),
    /// A volume, or 0 for none. If it is 0, the fields after it are zero.
    Volume,
    /// At most that number, and 0 if no volume or no count stands before it.
    IfUsed(u64),
    /// The first file page of an extent or a hole, or 0 in a row that names none.
    Page,
    /// How many file pages an extent or a hole has, or 0 in a row that names none.
    Count,
}

/// What the fields before a field say about it.
#[derive(Clone, Copy)]
pub struct Seen {
    /// The first file page that an extent or a hole may still have.
    pub from: u64,
    /// The page of the extent or the hole whose count comes next, or else 0.
    pub page: u64,
    /// Whether the last volume of a cell or the last count was above 0.
    pub used: bool,
}

impl Rule {
    /// Whether the number may stand in the field.
    pub fn allows(self, seen: Seen, number: u64) -> bool
        ensures { result ≡ allows self seen number }
    {
        match self {
            Rule::Any => true,
            Rule::Range(least, most) => least <= number && number <= most,
            Rule::Volume => number <= LAST_VOLUME,
            Rule::IfUsed(most) => number == 0 || (seen.used && number <= most),
            Rule::Page => number == 0 || (seen.from <= number && number < FILE_PAGES),
            Rule::Count => {
                if number == 0 {
                    seen.page == 0
                } else {
                    seen.from <= seen.page && seen.page.saturating_add(number) <= FILE_PAGES
                }
            }
        }
    }

    /// What the fields after it need to know.
    pub fn after(self, seen: Seen, number: u64) -> Seen
        requires { allows self seen number ≡ true }
        ensures { result ≡ after self seen number }
    {
        match self {
            Rule::Any | Rule::Range(..) | Rule::IfUsed(_) => seen,
            Rule::Volume => Seen {
                used: 0 < number,
                ..seen
            },
            Rule::Page => Seen {
                page: number,
                ..seen
            },
            Rule::Count => {
                if number == 0 {
                    Seen {
                        from: FILE_PAGES,
                        page: 0,
                        used: false,
                    }
                } else {
                    Seen {
                        from: seen.page + number,
                        page: 0,
                        used: true,
                    }
                }
            }
        }
    }
}

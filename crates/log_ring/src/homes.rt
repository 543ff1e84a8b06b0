//! Homes that are the same, or among others.
ghost use Rattle.std.specs.Prelude.{◌≡◌, ◌↔◌, IsTrue};
ghost use Rattle.std.specs.List.{list_any};
ghost use Rattle.page_store.specs.Pages.{same_home};
ghost use Rattle.log_ring.specs.Images.{AreDistinct};

use disk_label::Home;

/// Whether two homes are the same.
pub(crate) fn is_same(one: &Home, other: &Home) -> bool
    ensures { result ≡ same_home one.now other.now }
{
    one.vol == other.vol && one.page == other.page
}

/// Whether a home is among others.
fn contains(homes: &[Home], home: &Home) -> bool
    ensures { result ≡ list_any (same_home home.now) homes.now }
{
    homes.iter().any(|other| is_same(home, other))
}

/// Whether no two homes are the same.
pub(crate) fn are_distinct(homes: &[Home]) -> bool
    ensures { IsTrue result ↔ AreDistinct homes.now }
{
    for i in 0..homes.len() {
        if contains(&homes[i + 1..], &homes[i]) {
            return false;
        }
    }
    true
}

//! A number for each home.
ghost use Rattle.std.specs.Prelude.{◌≡◌, ◌<◌, ◌^◌};
ghost use Rattle.sorted_sets.specs.Homes.{number_of};

use domain_base::Home;

/// The number of a home. It is greater if the volume is, or if the page on it is.
pub fn home_number(home: &Home) -> u64
    ensures value { result ≡ number_of home.now }
    ensures width { home.now.page < 2 ^ 32 }
{
    let page = home.page;
    (u64::from(home.vol.number()) << 32) + u64::from(page)
}

//! Between which volumes a page is moved.
ghost use Rattle.std.specs.Prelude.{◌≡◌, ◌≢◌, ◌≤◌, IfSome};

use member_moves::{VolCount, VolIx, uneven};
use std::test::Fail;

/// A volume by plain numbers.
#[derive(Clone, Copy)]
struct Volume {
    number: u32,
    used: u32,
    pages: u32,
    closed: bool,
}

fn open(number: u32, used: u32, pages: u32) -> Volume {
    Volume {
        number,
        used,
        pages,
        closed: false,
    }
}

fn closed(number: u32, used: u32, pages: u32) -> Volume {
    Volume {
        number,
        used,
        pages,
        closed: true,
    }
}

/// The count of a volume, if it has a page and no more used ones than pages.
fn count_of(volume: Volume) -> Option<VolCount>
    ensures { IfSome result (λ c. (1 ≤ c.pages) × (c.used ≤ c.pages)) }
{
    let vol = VolIx::new(volume.number)?;
    if volume.pages == 0 || volume.used > volume.pages {
        return None;
    }
    Some(VolCount {
        vol,
        pages: volume.pages,
        used: volume.used,
        closed: volume.closed,
    })
}

/// What is moved between three volumes, by their numbers.
fn plan(a: &VolCount, b: &VolCount, c: &VolCount) -> Option<(u32, u32)>
    requires first { (1 ≤ a.now.pages) × (a.now.used ≤ a.now.pages) }
    requires second { (1 ≤ b.now.pages) × (b.now.used ≤ b.now.pages) }
    requires third { (1 ≤ c.now.pages) × (c.now.used ≤ c.now.pages) }
    requires distinct { (a.now.vol ≢ b.now.vol) × (a.now.vol ≢ c.now.vol) × (b.now.vol ≢ c.now.vol) }
{
    let (from, to) = uneven(&[*a, *b, *c])?;
    Some((from.number(), to.number()))
}

/// What is moved between three volumes; an error if one of them cannot be counted.
fn moved(volumes: [Volume; 3]) -> Result<Option<(u32, u32)>, &'static str> {
    let [a, b, c] = volumes;
    let a = count_of(a).ok_or("no count")?;
    let b = count_of(b).ok_or("no count")?;
    let c = count_of(c).ok_or("no count")?;
    if a.vol == b.vol || a.vol == c.vol || b.vol == c.vol {
        return Err("a volume twice");
    }
    Ok(plan(&a, &b, &c))
}

#[test]
fn a_page_goes_from_the_fullest_to_the_emptiest(rt: HostRuntime) -> Result<(), Fail> {
    let plain = moved([open(1, 60, 100), open(2, 20, 100), open(3, 40, 100)])?;
    // 30, 50 and 40 of 100.
    let by_share = moved([open(1, 300, 1_000), open(2, 50, 100), open(3, 80, 200)])?;
    let large = moved([
        open(1, 7, 10),
        open(2, u32::MAX, u32::MAX),
        open(3, 0, u32::MAX),
    ])?;
    assert_eq!(rt;
        [plain, by_share, large],
        [Some((1, 2)), Some((2, 1)), Some((2, 3))]
    );
    Ok(())
}

#[test]
fn of_equal_shares_the_lower_number_is_first(rt: HostRuntime) -> Result<(), Fail> {
    let full = moved([open(3, 50, 100), open(1, 10, 100), open(2, 100, 200)])?;
    let empty = moved([open(3, 10, 100), open(2, 20, 200), open(1, 90, 100)])?;
    assert_eq!(rt; [full, empty], [Some((2, 1)), Some((1, 2))]);
    Ok(())
}

#[test]
fn closed_volumes_are_left_out(rt: HostRuntime) -> Result<(), Fail> {
    let full = moved([closed(1, 90, 100), open(2, 50, 100), open(3, 10, 100)])?;
    let empty = moved([closed(1, 0, 100), open(2, 50, 100), open(3, 10, 100)])?;
    let one_open = moved([closed(1, 90, 100), open(2, 50, 100), closed(3, 0, 100)])?;
    let none_open = moved([closed(1, 90, 100), closed(2, 50, 100), closed(3, 0, 100)])?;
    assert_eq!(rt;
        [full, empty, one_open, none_open],
        [Some((2, 3)), Some((2, 3)), None, None]
    );
    Ok(())
}

#[test]
fn volumes_are_even_up_to_half_a_page_of_each(rt: HostRuntime) -> Result<(), Fail> {
    let none = closed(3, 9, 9);
    // 2 * (51 - 50) * 100 is 200, as 100 + 100.
    let even = moved([open(1, 51, 100), open(2, 50, 100), none])?;
    let uneven = moved([open(1, 52, 100), open(2, 50, 100), none])?;
    // 2 * (2 * 5 - 2 * 3) is 8, as 3 + 5, and 2 * (1 * 5 - 0 * 3) is 10.
    let even_apart = moved([open(1, 2, 3), open(2, 2, 5), none])?;
    let uneven_apart = moved([open(1, 1, 3), open(2, 0, 5), none])?;
    assert_eq!(rt;
        [even, uneven, even_apart, uneven_apart],
        [None, Some((1, 2)), None, Some((1, 2))]
    );
    Ok(())
}

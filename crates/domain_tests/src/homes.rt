//! The first page that stands on a volume.

use member_moves::{Home, VolIx, first_on};
use std::test::Fail;

#[test]
fn the_first_home_on_a_volume_is_found(rt: HostRuntime) -> Result<(), Fail> {
    let one = VolIx::new(1).ok_or("a volume")?;
    let two = VolIx::new(2).ok_or("a volume")?;
    let eight = VolIx::new(8).ok_or("a volume")?;
    let homes = [
        Home { vol: two, page: 7 },
        Home { vol: one, page: 0 },
        Home { vol: two, page: 0 },
        Home { vol: one, page: 9 },
    ];
    let found = [
        first_on(one, &homes),
        first_on(two, &homes),
        first_on(eight, &homes),
    ];
    assert_eq!(rt;
        (found, first_on(one, &[])),
        ([Some(1), Some(0), None], None)
    );
    Ok(())
}

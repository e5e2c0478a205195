//! The hash table of a search, where hashes have equal lower halves: each number is found by its own hash.

use orc_search::places::Places;
use std::test::Fail;

// The numbers 0 to 99 have the hashes that have them in the upper half and 0 in the lower, by which a slot is looked for. A hundred are more than the
// table's first slots. The hash 1 was kept for no number, and the number that is kept for a hash last takes the place of another.
#[test]
fn what_was_kept_is_found_behind_equal_halves(rt: HostRuntime) -> Result<(), Fail> {
    let alloc = rt.alloc();
    let mut places = Places::new(alloc);
    for at in 0..100_usize {
        let hash = (at as u64) << 32;
        places.insert(hash, at)?;
    }
    for at in 0..100_usize {
        let hash = (at as u64) << 32;
        assert_eq!(rt; places.get(hash), Some(at));
    }
    assert_eq!(rt; places.get(1), None);
    places.insert(0, 7)?;
    assert_eq!(rt; places.get(0), Some(7));
    Ok(())
}

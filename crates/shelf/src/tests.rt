// Shelves of both kinds at work.
use crate::entries::Entry;
use crate::{count, count_to, find, first_above, insert, remove, take_first};

// Puts all that arrive onto an empty shelf, one after the other.
fn shelve<K: Ord + Copy>(
    entries: &mut [Entry<K>],
    arrivals: &[Entry<K>],
) -> Result<usize, Entry<K>> {
    let mut used = 0;
    for arrival in arrivals {
        used = insert(entries, used, *arrival)?;
    }
    Ok(used)
}

// A slot that waits for a moment.
fn slot(key: u64, load: u32) -> Entry<u64> {
    Entry { key, load }
}

// A slide under its category place.
fn slide(category: u8, number: u8, load: u32) -> Entry<(u8, u8)> {
    let key = (category, number);
    Entry { key, load }
}

#[test]
fn equal_moments_keep_their_order(rt: HostRuntime) {
    let mut entries = [slot(0, 0); 5];
    let arrivals = [slot(5, 1), slot(3, 2), slot(5, 3), slot(9, 4), slot(3, 5)];
    let ascending = [slot(3, 2), slot(3, 5), slot(5, 1), slot(5, 3), slot(9, 4)];
    assert_eq!(rt; shelve(&mut entries, &arrivals), Ok(5));
    assert_eq!(rt; entries, ascending);
    assert_eq!(rt; insert(&mut entries, 5, slot(4, 6)), Err(slot(4, 6)));
    assert_eq!(rt; insert(&mut entries, 9, slot(4, 6)), Err(slot(4, 6)));
    assert_eq!(rt; entries, ascending);
}

#[test]
fn moments_are_reached_in_turn(rt: HostRuntime) {
    let entries = [slot(3, 2), slot(3, 5), slot(5, 1), slot(5, 3), slot(9, 4)];
    let answers = [
        (2, 0, Some(slot(3, 2))),
        (3, 2, Some(slot(5, 1))),
        (8, 4, Some(slot(9, 4))),
        (9, 5, None),
    ];
    for (moment, due, next) in answers {
        assert_eq!(rt; count_to(&entries, 5, &moment), due);
        assert_eq!(rt; first_above(&entries, 5, &moment), next);
    }
}

#[test]
fn the_rest_closes_up(rt: HostRuntime) {
    let mut entries = [slot(3, 2), slot(3, 5), slot(5, 2), slot(9, 4)];
    assert_eq!(rt; remove(&mut entries, 3, 4), None);
    assert_eq!(rt; remove(&mut entries, 7, 2), Some(3));
    assert_eq!(rt; find(&entries, 3, 2), Some(slot(5, 2)));
    assert_eq!(rt; take_first(&mut entries, 3), Some(slot(3, 5)));
    assert_eq!(rt; count(&entries, 2), 2);
    assert_eq!(rt; find(&entries, 2, 5), None);
    assert_eq!(rt; take_first(&mut entries, 0), None);
}

#[test]
fn places_go_by_category_then_slide(rt: HostRuntime) {
    let mut entries = [slide(0, 0, 0); 5];
    let arrivals = [
        slide(2, 1, 10),
        slide(1, 9, 11),
        slide(2, 0, 12),
        slide(1, 9, 13),
    ];
    assert_eq!(rt; shelve(&mut entries, &arrivals), Ok(4));
    assert_eq!(rt;
        entries,
        [
            slide(1, 9, 11),
            slide(1, 9, 13),
            slide(2, 0, 12),
            slide(2, 1, 10),
            slide(0, 0, 0),
        ]
    );
    assert_eq!(rt; first_above(&entries, 4, &(1, 9)), Some(slide(2, 0, 12)));
    assert_eq!(rt; first_above(&entries, 4, &(2, 1)), None);
    assert_eq!(rt; count_to(&entries, 0, &(9, 9)), 0);
}

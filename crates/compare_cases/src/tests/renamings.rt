// Lists of renaming entries: which are taken, and the number of the refusal of the others.
use renaming::Renaming;
use std::alloc::Global;
use std::test::Fail;

// Ports 1 and 2 exchanged; each port sent to its opposite; the last port first, with the signs of every other one turned.
pub const SWAPPED: [i8; 31] = [
    2, 1, 3, 4, 5, 6, 7, 8, 9, 10, 11, 12, 13, 14, 15, 16, 17, 18, 19, 20, 21, 22, 23, 24, 25, 26,
    27, 28, 29, 30, 31,
];

pub const TURNED: [i8; 31] = [
    -1, -2, -3, -4, -5, -6, -7, -8, -9, -10, -11, -12, -13, -14, -15, -16, -17, -18, -19, -20, -21,
    -22, -23, -24, -25, -26, -27, -28, -29, -30, -31,
];

pub const BACKWARDS: [i8; 31] = [
    31, -30, 29, -28, 27, -26, 25, -24, 23, -22, 21, -20, 19, -18, 17, -16, 15, -14, 13, -12, 11,
    -10, 9, -8, 7, -6, 5, -4, 3, -2, 1,
];

// What is written over a list of so many entries, in which each port is sent to itself and what is beyond port 31 to port 1.
const LISTS: [(&str, usize, &[(usize, i8)], Option<u8>); 29] = [
    ("no entry", 0, &[], Some(16)),
    ("one entry", 1, &[], Some(16)),
    ("30 entries", 30, &[], Some(16)),
    ("31 entries", 31, &[], None),
    ("32 entries", 32, &[], Some(16)),
    ("0 first", 31, &[(0, 0)], Some(16)),
    ("0 last", 31, &[(30, 0)], Some(16)),
    ("32", 31, &[(5, 32)], Some(16)),
    ("-32", 31, &[(5, -32)], Some(16)),
    ("the highest number", 31, &[(30, i8::MAX)], Some(16)),
    ("the lowest number", 31, &[(0, i8::MIN)], Some(16)),
    ("above the lowest number", 31, &[(0, -127)], Some(16)),
    ("31 and 1", 31, &[(0, 31), (30, 1)], None),
    ("-31 and -1", 31, &[(0, -31), (30, -1)], None),
    ("-31 last", 31, &[(30, -31)], None),
    ("-1 first", 31, &[(0, -1)], None),
    ("three in turn", 31, &[(3, 6), (4, -4), (5, 5)], None),
    ("3 to -4 beside 4 to 4", 31, &[(2, -4)], Some(17)),
    ("3 to 4 beside 4 to 4", 31, &[(2, 4)], Some(17)),
    ("4 to -3 beside 3 to 3", 31, &[(3, -3)], Some(17)),
    ("first as last", 31, &[(0, 31)], Some(17)),
    ("last as first", 31, &[(30, 1)], Some(17)),
    ("last as first, turned", 31, &[(30, -1)], Some(17)),
    ("1 to -2 beside 2 to 2", 31, &[(0, -2), (1, 2)], Some(17)),
    // all entries are tried for 16 before any for 17
    ("shared, then 0", 31, &[(0, 2), (30, 0)], Some(16)),
    ("0, then shared", 31, &[(0, 0), (30, 2)], Some(16)),
    ("shared, then -32", 31, &[(1, 1), (2, -32)], Some(16)),
    ("shared in 30", 30, &[(0, 2)], Some(16)),
    ("shared in 32", 32, &[(0, 2)], Some(16)),
];

// The number of the refusal of a list.
fn refusal(entries: &[i8]) -> Option<u8> {
    match Renaming::new(entries) {
        Ok(_) => None,
        Err(fault) => Some(fault.number()),
    }
}

// So many entries, with the changes.
fn entries(heap: Global, length: usize, changes: &[(usize, i8)]) -> Result<Vec<i8>, Fail> {
    let mut entries = vec![in heap; 1i8; length]?;
    for (entry, port) in entries.iter_mut().zip(1..=31) {
        *entry = port;
    }
    for (place, port) in changes {
        *entries.get_mut(*place).ok_or("no entry")? = *port;
    }
    Ok(entries)
}

#[test]
fn lists(rt: HostRuntime) -> Result<(), Fail> {
    for (name, length, changes, number) in LISTS {
        let list = entries(rt.alloc(), length, changes)?;
        assert_eq!(rt; refusal(&list), number, "{}", name);
    }
    for list in [SWAPPED, TURNED, BACKWARDS] {
        assert_eq!(rt; refusal(&list), None);
    }
    Ok(())
}

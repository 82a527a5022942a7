// What swaps answer, and what they leave of the line and of the pair table.
use super::{
    BOOK, DEEP, EITHER, FAST, FLAT, LATER, NOW, Outcome, PLAIN, Planned, RECEIVER, Row, Rows,
    SENDER, SLOW, UNKNOWN, check_table, check_time, drawn, lent_rows, modules_of, outcome_of,
};
use std::test::Fail;

// Port 1 and port 5 exchanged, 1 and 6, 1 turned and 7, 2 and 4.
const FIFTH: &[i8] = &[
    5, 2, 3, 4, 1, 6, 7, 8, 9, 10, 11, 12, 13, 14, 15, 16, 17, 18, 19, 20, 21, 22, 23, 24, 25, 26,
    27, 28, 29, 30, 31,
];

const SIXTH: &[i8] = &[
    6, 2, 3, 4, 5, 1, 7, 8, 9, 10, 11, 12, 13, 14, 15, 16, 17, 18, 19, 20, 21, 22, 23, 24, 25, 26,
    27, 28, 29, 30, 31,
];

const SEVENTH: &[i8] = &[
    -7, 2, 3, 4, 5, 6, 1, 8, 9, 10, 11, 12, 13, 14, 15, 16, 17, 18, 19, 20, 21, 22, 23, 24, 25, 26,
    27, 28, 29, 30, 31,
];

const FOURTH: &[i8] = &[
    1, 4, 3, 2, 5, 6, 7, 8, 9, 10, 11, 12, 13, 14, 15, 16, 17, 18, 19, 20, 21, 22, 23, 24, 25, 26,
    27, 28, 29, 30, 31,
];

const FOUR: &[Planned] = &[
    (SLOW, FIFTH),
    (DEEP, SIXTH),
    (SENDER, SEVENTH),
    (FLAT, FOURTH),
];

// In this state slot 0 urges 1, which is 5 to the line, whether Slow or Fast is in it; slot 1 urges 1, which is 6, be it Deep
// or Flat; slot 2 urges -1, which is 7; and slot 3 urges 2, which is 4 and hidden. So the answer shows every wiring and
// the hidden port.
const ASKED: [u32; 4] = [16, 16, 16, 32];

const STOOD: &[usize] = &[SLOW, DEEP, SENDER, FLAT];

const FAST_FOR_SLOW: &[Row] = &[(16, 32, 0), (0, 0, 0), (16, 33, 0), (0, 1, 0)];

// The slot, the new module, how many rows are lent, the answer, the rows that are written, and the modules that the line
// holds then.
const SWAPS: [(&str, usize, usize, usize, Outcome, &[Row], &[usize]); 26] = [
    // accepted, with as many rows as there are pairs, and more
    (
        "fast for slow, 4 rows",
        0,
        FAST,
        4,
        Ok(4),
        FAST_FOR_SLOW,
        &[FAST, DEEP, SENDER, FLAT],
    ),
    (
        "fast for slow, 5 rows",
        0,
        FAST,
        5,
        Ok(4),
        FAST_FOR_SLOW,
        &[FAST, DEEP, SENDER, FLAT],
    ),
    (
        "fast for slow, 9 rows",
        0,
        FAST,
        9,
        Ok(4),
        FAST_FOR_SLOW,
        &[FAST, DEEP, SENDER, FLAT],
    ),
    (
        "slow for itself",
        0,
        SLOW,
        9,
        Ok(4),
        &[(32, 32, 0), (0, 0, 0), (33, 33, 0), (1, 1, 0)],
        STOOD,
    ),
    (
        "flat for deep",
        1,
        FLAT,
        4,
        Ok(4),
        &[(32, 48, 0), (16, 32, 0), (0, 0, 0), (16, 33, 0)],
        &[SLOW, FLAT, SENDER, FLAT],
    ),
    (
        "deep for itself",
        1,
        DEEP,
        9,
        Ok(4),
        &[(48, 48, 0), (32, 32, 0), (0, 0, 0), (33, 33, 0)],
        STOOD,
    ),
    (
        "sender for itself",
        2,
        SENDER,
        2,
        Ok(2),
        &[(16, 16, 0), (0, 0, 0)],
        STOOD,
    ),
    (
        "flat for itself",
        3,
        FLAT,
        3,
        Ok(3),
        &[(32, 32, 0), (16, 16, 0), (0, 0, 0)],
        STOOD,
    ),
    // one row too few, one row, no row
    (
        "fast for slow, 3 rows",
        0,
        FAST,
        3,
        Err((24, 0)),
        &[(16, 32, 0), (0, 0, 0), (16, 33, 0)],
        STOOD,
    ),
    (
        "fast for slow, 1 row",
        0,
        FAST,
        1,
        Err((24, 0)),
        &[(16, 32, 0)],
        STOOD,
    ),
    (
        "fast for slow, no row",
        0,
        FAST,
        0,
        Err((24, 0)),
        &[],
        STOOD,
    ),
    (
        "flat for deep, 3 rows",
        1,
        FLAT,
        3,
        Err((24, 0)),
        &[(32, 48, 0), (16, 32, 0), (0, 0, 0)],
        STOOD,
    ),
    (
        "sender for itself, 1 row",
        2,
        SENDER,
        1,
        Err((24, 0)),
        &[(16, 16, 0)],
        STOOD,
    ),
    (
        "24 before 25",
        3,
        DEEP,
        3,
        Err((24, 0)),
        &[(48, 32, 0), (32, 16, 0), (0, 0, 0)],
        STOOD,
    ),
    // slower, or something else
    (
        "deep for flat",
        3,
        DEEP,
        9,
        Err((25, 2)),
        &[(48, 32, 2), (32, 16, 1), (0, 0, 0), (33, 16, 0)],
        STOOD,
    ),
    (
        "receiver for slow, which receives again",
        0,
        RECEIVER,
        4,
        Err((25, 2)),
        &[(32, 32, 2), (0, 0, 1), (33, 33, 2), (0, 1, 1)],
        STOOD,
    ),
    (
        "either for slow, which does not send",
        0,
        EITHER,
        9,
        Err((25, 1)),
        &[(64, 32, 1), (32, 0, 1), (64, 33, 1), (32, 1, 1)],
        STOOD,
    ),
    (
        "sender for slow",
        0,
        SENDER,
        9,
        Err((25, 1)),
        &[(16, 32, 1), (16, 33, 1)],
        STOOD,
    ),
    (
        "now for deep, 1 row",
        1,
        NOW,
        1,
        Err((25, 1)),
        &[(16, 48, 1)],
        STOOD,
    ),
    // no such slot, no such module
    ("slot 4", 4, FAST, 9, Err((21, 0)), &[], STOOD),
    ("slot 16", 16, FAST, 9, Err((21, 0)), &[], STOOD),
    (
        "the largest number for a slot",
        usize::MAX,
        FAST,
        9,
        Err((21, 0)),
        &[],
        STOOD,
    ),
    (
        "21 before 23 and 24",
        4,
        UNKNOWN,
        0,
        Err((21, 0)),
        &[],
        STOOD,
    ),
    ("module 9", 0, UNKNOWN, 9, Err((23, 0)), &[], STOOD),
    (
        "the largest number for a module",
        3,
        usize::MAX,
        9,
        Err((23, 0)),
        &[],
        STOOD,
    ),
    ("23 before 24", 0, UNKNOWN, 0, Err((23, 0)), &[], STOOD),
];

#[test]
fn swaps(rt: HostRuntime) -> Result<(), Fail> {
    let rows = Rows::of(rt.alloc(), BOOK)?;
    let book = rows.book();
    for (name, slot, new, lent, outcome, written, left) in SWAPS {
        let mut line = drawn(rt.alloc(), &book, FOUR, &[4])?;
        let mut table = lent_rows(rt.alloc(), lent)?;
        let answer = line.swap(&book, slot, new, &mut table);
        assert_eq!(rt; outcome_of(answer), outcome, "{}", name);
        check_table(&rt, rt.alloc(), &table, written, name)?;
        assert_eq!(rt; line.slots(), 4, "{}", name);
        assert_eq!(rt; modules_of(rt.alloc(), &line)?.as_slice(), left, "{}", name);
        check_time(&rt, &book, &line, &ASKED, Ok((true, &[5, 6, 7])), name);
    }
    Ok(())
}

// The module of a line of one slot, the new one, the answer and the rows.
const LONE: [(&str, usize, usize, Outcome, &[Row]); 4] = [
    (
        "slow for fast",
        FAST,
        SLOW,
        Err((25, 1)),
        &[(32, 16, 1), (0, 0, 1), (33, 16, 2), (1, 0, 2)],
    ),
    (
        "later for now",
        NOW,
        LATER,
        Err((25, 1)),
        &[(32, 16, 1), (0, 0, 0)],
    ),
    (
        "now for later",
        LATER,
        NOW,
        Ok(2),
        &[(16, 32, 0), (0, 0, 0)],
    ),
    (
        "receiver for sender",
        SENDER,
        RECEIVER,
        Err((25, 1)),
        &[(32, 16, 1), (33, 16, 1)],
    ),
];

#[test]
fn lone(rt: HostRuntime) -> Result<(), Fail> {
    let rows = Rows::of(rt.alloc(), BOOK)?;
    let book = rows.book();
    for (name, old, new, outcome, written) in LONE {
        let mut line = drawn(rt.alloc(), &book, &[(old, PLAIN)], &[])?;
        let mut table = lent_rows(rt.alloc(), 9)?;
        let answer = line.swap(&book, 0, new, &mut table);
        assert_eq!(rt; outcome_of(answer), outcome, "{}", name);
        check_table(&rt, rt.alloc(), &table, written, name)?;
        let left = if outcome.is_ok() { new } else { old };
        assert_eq!(rt; line.module_in(0), Some(left), "{}", name);
    }
    Ok(())
}

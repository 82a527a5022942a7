// Lines over catalogues that are piled up of a book and a maker's table, joined and renamed.
use super::{
    BOOK, CROSSED, FAST, Outcome, PLAIN, Planned, RECEIVER, Row, Rows, SENDER, SLOW, Told,
    check_table, check_time, drawn, lent_rows, modules_of, outcome_of, table_of,
};
use catalogue::Catalogue;
use layers::{Joined, Renamed};
use renaming::Renaming;
use std::alloc::Global;
use std::process::Abort;
use std::test::Fail;

// One module of one state, which receives on port 1, urgently, and stays.
const MADE: &[u8] = &[1, 0, 1, 0, 13, 0, 1, 0, 0, 0, 7, 0, 0, 1, 1, 1, 0, 0];

// The module of a line of one slot, the new one, the answer and the rows.
type Swap = (usize, usize, Outcome, &'static [Row]);

fn check_swaps<C: Catalogue>(
    rt: &impl Abort,
    heap: Global,
    pile: &C,
    swaps: &[Swap],
    name: &str,
) -> Result<(), Fail> {
    for (old, new, outcome, written) in swaps {
        let mut line = drawn(heap, pile, &[(*old, PLAIN)], &[])?;
        let mut table = lent_rows(heap, 9)?;
        let answer = line.swap(pile, 0, *new, &mut table);
        assert_eq!(rt; outcome_of(answer), *outcome, "{} {} {}", name, *old, *new);
        check_table(rt, heap, &table, *written, name)?;
        let left = if outcome.is_ok() { *new } else { *old };
        assert_eq!(rt;
            modules_of(heap, &line)?.as_slice(),
            [left].as_slice(),
            "{}",
            name
        );
    }
    Ok(())
}

// The slots, the hidden ports, the state, and what is told.
type Time = (&'static [Planned], &'static [u8], &'static [u32], Told);

fn check_times<C: Catalogue>(
    rt: &impl Abort,
    heap: Global,
    pile: &C,
    times: &[Time],
    name: &str,
) -> Result<(), Fail> {
    for (slots, hidden, state, told) in times {
        let line = drawn(heap, pile, *slots, *hidden)?;
        check_time(rt, pile, &line, *state, *told, name);
    }
    Ok(())
}

// The table behind the book: its module is number 9.
const BEHIND: &[Swap] = &[
    (
        SLOW,
        9,
        Ok(4),
        &[(0, 32, 0), (0, 0, 0), (0, 33, 0), (0, 1, 0)],
    ),
    (
        9,
        SLOW,
        Err((25, 1)),
        &[(32, 0, 1), (0, 0, 1), (33, 0, 2), (1, 0, 2)],
    ),
    (FAST, 9, Ok(2), &[(0, 16, 0), (0, 0, 0)]),
    (9, FAST, Ok(2), &[(16, 0, 0), (0, 0, 0)]),
    (9, 10, Err((23, 0)), &[]),
];

// The table before the book: the book's modules have a number one higher.
const BEFORE: &[Swap] = &[
    (1, 0, Ok(4), &[(0, 32, 0), (0, 0, 0), (0, 33, 0), (0, 1, 0)]),
    (
        0,
        1,
        Err((25, 1)),
        &[(32, 0, 1), (0, 0, 1), (33, 0, 2), (1, 0, 2)],
    ),
    (0, 2, Ok(2), &[(16, 0, 0), (0, 0, 0)]),
    (0, 10, Err((23, 0)), &[]),
];

const BEHIND_TIMES: &[Time] = &[
    (
        &[(SENDER, PLAIN), (9, PLAIN)],
        &[],
        &[16, 0],
        Ok((false, &[-1, 0, 1])),
    ),
    (
        &[(SENDER, PLAIN), (9, CROSSED)],
        &[],
        &[16, 0],
        Ok((true, &[-1, 2])),
    ),
    (&[(SENDER, PLAIN), (9, PLAIN)], &[], &[16, 1], Err(26)),
];

#[test]
fn joined(rt: HostRuntime) -> Result<(), Fail> {
    let rows = Rows::of(rt.alloc(), BOOK)?;
    let behind = Joined::new(rows.book(), table_of(rt.alloc(), MADE)?);
    check_swaps(&rt, rt.alloc(), &behind, BEHIND, "behind")?;
    check_times(&rt, rt.alloc(), &behind, BEHIND_TIMES, "behind")?;
    let before = Joined::new(table_of(rt.alloc(), MADE)?, rows.book());
    check_swaps(&rt, rt.alloc(), &before, BEFORE, "before")
}

// A renaming of the whole catalogue alters no verdict.
const HALL: &[Planned] = &[(SENDER, PLAIN), (RECEIVER, PLAIN)];

const HALL_CROSSED: &[Planned] = &[(SENDER, CROSSED), (RECEIVER, CROSSED)];

const RENAMED_TIMES: &[Time] = &[
    (HALL, &[], &[16, 33], Ok((false, &[-2, 0, 2]))),
    (HALL, &[2], &[16, 33], Ok((false, &[0]))),
    (HALL, &[2], &[16, 32], Ok((true, &[]))),
    // crossed twice
    (HALL_CROSSED, &[], &[16, 33], Ok((false, &[-1, 0, 1]))),
    (
        &[(SENDER, CROSSED), (RECEIVER, PLAIN)],
        &[],
        &[16, 33],
        Ok((true, &[-1, 2])),
    ),
    (&[(9, CROSSED)], &[], &[0], Ok((true, &[1]))),
];

// Only the table is renamed: its module does something else than Slow and Fast.
const BACK_RENAMED: &[Swap] = &[
    (SLOW, 9, Err((25, 1)), &[(0, 32, 1), (0, 33, 1)]),
    (9, FAST, Err((25, 1)), &[(16, 0, 1)]),
    (
        SLOW,
        FAST,
        Ok(4),
        &[(16, 32, 0), (0, 0, 0), (16, 33, 0), (0, 1, 0)],
    ),
];

const BACK_RENAMED_TIMES: &[Time] = &[
    (
        &[(9, PLAIN), (FAST, PLAIN)],
        &[],
        &[0, 16],
        Ok((true, &[1, 2])),
    ),
    (
        &[(9, PLAIN), (SENDER, CROSSED)],
        &[],
        &[0, 16],
        Ok((false, &[-2, 0, 2])),
    ),
    (
        &[(9, CROSSED), (SENDER, PLAIN)],
        &[1],
        &[0, 16],
        Ok((false, &[0])),
    ),
];

#[test]
fn renamed(rt: HostRuntime) -> Result<(), Fail> {
    let rows = Rows::of(rt.alloc(), BOOK)?;
    let crossed = Renaming::new(CROSSED).ok().ok_or("no renaming")?;
    let both = Joined::new(rows.book(), table_of(rt.alloc(), MADE)?);
    let all = Renamed::new(both, crossed);
    check_swaps(&rt, rt.alloc(), &all, BEHIND, "all renamed")?;
    check_times(&rt, rt.alloc(), &all, RENAMED_TIMES, "all renamed")?;
    let back = Joined::new(
        rows.book(),
        Renamed::new(table_of(rt.alloc(), MADE)?, crossed),
    );
    check_swaps(&rt, rt.alloc(), &back, BACK_RENAMED, "the table renamed")?;
    check_times(
        &rt,
        rt.alloc(),
        &back,
        BACK_RENAMED_TIMES,
        "the table renamed",
    )
}

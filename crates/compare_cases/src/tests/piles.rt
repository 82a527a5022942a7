// Joined and renamed catalogues, and piles of them: the answers are those of the modules below.
use super::made::{self, MADE, TABLE};
use super::renamings::{BACKWARDS, SWAPPED, TURNED};
use super::written::{self, BOOK, FAST, LATE, NOW, ONE, PROMPT, SENT, SLOW, SOON, THEN, WRITTEN};
use super::{BookRows, Case, assert_cases, table};
use catalogue::Catalogue;
use layers::{Joined, Renamed};
use renaming::Renaming;
use std::alloc::Global;
use std::process::Abort;
use std::test::Fail;

// Where the modules of the table stand behind those of the book, and those of the book behind those of the table.
const BEHIND_BOOK: usize = WRITTEN;

const BEHIND_TABLE: usize = MADE;

// A module of the book for one of the table behind it, and the other way round
const ACROSS: [Case<'static>; 4] = [
    (
        FAST,
        BEHIND_BOOK + SLOW,
        &[(16, 0, 0), (0, 2, 0), (16, 1, 0), (0, 3, 0)],
    ),
    (
        SLOW,
        BEHIND_BOOK + FAST,
        &[(32, 0, 1), (0, 1, 1), (33, 0, 2), (1, 1, 2)],
    ),
    (
        BEHIND_BOOK + LATE,
        PROMPT,
        &[(0, 32, 2), (1, 16, 1), (3, 0, 0), (2, 16, 0)],
    ),
    (BEHIND_BOOK + NOW, SOON, &[(0, 32, 0), (1, 0, 0)]),
];

// Asserts what comparing answers for each case of each part of a pile, where the numbers of the modules of a part begin so.
fn assert_parts<C: Catalogue>(
    rt: &impl Abort,
    heap: Global,
    pile: &C,
    parts: &[(usize, &[Case<'_>])],
) -> Result<(), Fail> {
    for (first, cases) in parts {
        assert_cases(rt, heap, pile, *first, cases)?;
    }
    Ok(())
}

#[test]
fn joined(rt: HostRuntime) -> Result<(), Fail> {
    let rows = BookRows::read(rt.alloc(), BOOK)?;
    let front = Joined::new(rows.book(), table(rt.alloc(), TABLE)?);
    let parts: [(usize, &[Case]); 3] = [
        (0, &written::CASES),
        (BEHIND_BOOK, &made::CASES),
        (0, &ACROSS),
    ];
    assert_parts(&rt, rt.alloc(), &front, &parts)?;
    let back = Joined::new(table(rt.alloc(), TABLE)?, rows.book());
    let parts: [(usize, &[Case]); 2] = [(0, &made::CASES), (BEHIND_TABLE, &written::CASES)];
    assert_parts(&rt, rt.alloc(), &back, &parts)
}

// A join of joins
#[test]
fn joined_twice(rt: HostRuntime) -> Result<(), Fail> {
    let rows = BookRows::read(rt.alloc(), BOOK)?;
    let front = Joined::new(rows.book(), table(rt.alloc(), TABLE)?);
    let back = Joined::new(table(rt.alloc(), TABLE)?, rows.book());
    let middle = WRITTEN + MADE;
    let parts: [(usize, &[Case]); 5] = [
        (0, &written::CASES),
        (0, &ACROSS),
        (BEHIND_BOOK, &made::CASES),
        (middle, &made::CASES),
        (middle + BEHIND_TABLE, &written::CASES),
    ];
    assert_parts(&rt, rt.alloc(), &Joined::new(front, back), &parts)
}

// One renaming for both modules alters no answer.
#[test]
fn renamed(rt: HostRuntime) -> Result<(), Fail> {
    let rows = BookRows::read(rt.alloc(), BOOK)?;
    let heap = rt.alloc();
    for entries in [SWAPPED, TURNED, BACKWARDS] {
        let renaming = Renaming::new(&entries)?;
        let book = Renamed::new(rows.book(), renaming);
        assert_cases(&rt, heap, &book, 0, &written::CASES)?;
        let modules = Renamed::new(table(heap, TABLE)?, renaming);
        assert_cases(&rt, heap, &modules, 0, &made::CASES)?;
        let pile = Renamed::new(Joined::new(modules, book), Renaming::new(&BACKWARDS)?);
        assert_cases(&rt, heap, &pile, 0, &made::CASES)?;
        assert_cases(&rt, heap, &pile, BEHIND_TABLE, &written::CASES)?;
    }
    Ok(())
}

// A module of the book for one of the same book behind it, renamed: there each port receives what it sent, and sends what it
// received.
const ACROSS_TURNED: [Case<'static>; 7] = [
    (SENT, WRITTEN + ONE, &[(16, 16, 0), (0, 0, 0)]),
    (WRITTEN + SENT, ONE, &[(16, 16, 0), (0, 0, 0)]),
    (WRITTEN + ONE, SENT, &[(16, 16, 0), (0, 0, 0)]),
    (ONE, WRITTEN + ONE, &[(16, 16, 1)]),
    (WRITTEN + SENT, SENT, &[(16, 16, 1)]),
    (FAST, WRITTEN + SLOW, &[(16, 32, 1), (16, 33, 1)]),
    // the internal event stays what it is
    (NOW, WRITTEN + SOON, &[(16, 32, 0), (0, 0, 0)]),
];

// There ports 1 and 2 are exchanged.
const ACROSS_SWAPPED: [Case<'static>; 4] = [
    (
        PROMPT,
        WRITTEN + THEN,
        &[(32, 32, 0), (16, 16, 0), (0, 0, 0)],
    ),
    (
        WRITTEN + THEN,
        PROMPT,
        &[(32, 32, 0), (16, 16, 0), (0, 0, 0)],
    ),
    (PROMPT, WRITTEN + PROMPT, &[(32, 32, 1)]),
    (THEN, THEN, &[(32, 32, 0), (16, 16, 0), (0, 0, 0)]),
];

// There they are exchanged twice.
const ACROSS_TWICE: [Case<'static>; 3] = [
    (
        PROMPT,
        WRITTEN + PROMPT,
        &[(32, 32, 0), (16, 16, 0), (0, 0, 0)],
    ),
    (PROMPT, WRITTEN + THEN, &[(32, 32, 1)]),
    (
        WRITTEN + LATE,
        PROMPT,
        &[(48, 32, 2), (32, 16, 1), (0, 0, 0), (33, 16, 0)],
    ),
];

#[test]
fn renamed_behind(rt: HostRuntime) -> Result<(), Fail> {
    let rows = BookRows::read(rt.alloc(), BOOK)?;
    let heap = rt.alloc();
    let turned = Renamed::new(rows.book(), Renaming::new(&TURNED)?);
    assert_cases(
        &rt,
        heap,
        &Joined::new(rows.book(), turned),
        0,
        &ACROSS_TURNED,
    )?;
    let swap = Renaming::new(&SWAPPED)?;
    let swapped = Renamed::new(rows.book(), swap);
    assert_cases(
        &rt,
        heap,
        &Joined::new(rows.book(), swapped),
        0,
        &ACROSS_SWAPPED,
    )?;
    let twice = Renamed::new(Renamed::new(rows.book(), swap), swap);
    assert_cases(
        &rt,
        heap,
        &Joined::new(rows.book(), twice),
        0,
        &ACROSS_TWICE,
    )
}

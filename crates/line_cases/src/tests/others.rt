// A line used with another catalogue than it was drawn from.
use super::{
    BOOK, CROSSED, FAST, NOW, Outcome, PLAIN, Rows, SLOW, Told, UNKNOWN, check_table, check_time,
    drawn, lent_rows, modules_of, outcome_of, table_of,
};
use catalogue::Catalogue;
use line::Line;
use std::alloc::Global;
use std::process::Abort;
use std::test::Fail;

// Port 2 is hidden, which is what slot 0 makes of port 1.
fn line_of<C: Catalogue>(heap: Global, book: &C) -> Result<Line, Fail> {
    drawn(heap, book, &[(SLOW, CROSSED), (NOW, PLAIN)], &[2])
}

// That the line is as it was drawn, by the catalogue that it was drawn from: Slow urges 1 in 33, which is 2 and hidden, and
// Now urges the internal event in 16.
fn check_kept<C: Catalogue>(
    rt: &impl Abort,
    heap: Global,
    book: &C,
    line: &Line,
    name: &str,
) -> Result<(), Fail> {
    assert_eq!(rt;
        modules_of(heap, line)?.as_slice(),
        [SLOW, NOW].as_slice(),
        "{}",
        name
    );
    check_time(rt, book, line, &[33, 0], Ok((true, &[])), name);
    check_time(rt, book, line, &[33, 16], Ok((false, &[0])), name);
    Ok(())
}

// The slot, the new module, how many rows are lent, and the refusal.
type Refusal = (&'static str, usize, usize, usize, Outcome);

// None of them is 24 or 25, so that no row is written.
fn check_refusals<C: Catalogue, D: Catalogue>(
    rt: &impl Abort,
    heap: Global,
    book: &C,
    other: &D,
    refusals: &[Refusal],
) -> Result<(), Fail> {
    let mut line = line_of(heap, book)?;
    for (name, slot, new, lent, outcome) in refusals {
        let mut table = lent_rows(heap, *lent)?;
        let answer = line.swap(other, *slot, *new, &mut table);
        assert_eq!(rt; outcome_of(answer), *outcome, "{}", *name);
        check_table(rt, heap, &table, &[], *name)?;
        check_kept(rt, heap, book, &line, *name)?;
    }
    Ok(())
}

// The slot, the new module, the pair count, and the modules that the line holds then.
type Accepted = (usize, usize, usize, &'static [usize]);

fn check_accepted<C: Catalogue, D: Catalogue>(
    rt: &impl Abort,
    heap: Global,
    book: &C,
    other: &D,
    swaps: &[Accepted],
) -> Result<(), Fail> {
    for (slot, new, pairs, left) in swaps {
        let mut line = line_of(heap, book)?;
        let mut table = lent_rows(heap, 9)?;
        let answer = line.swap(other, *slot, *new, &mut table);
        assert_eq!(rt; outcome_of(answer), Ok(*pairs), "{} into {}", *new, *slot);
        assert_eq!(rt;
            modules_of(heap, &line)?.as_slice(),
            *left,
            "{} into {}",
            *new,
            *slot
        );
    }
    Ok(())
}

// Asks about time with the other catalogue, and then with the first one.
fn check_times<C: Catalogue, D: Catalogue>(
    rt: &impl Abort,
    heap: Global,
    book: &C,
    other: &D,
    times: &[(&'static [u32], Told)],
) -> Result<(), Fail> {
    let line = line_of(heap, book)?;
    for (state, told) in times {
        check_time(rt, other, &line, *state, *told, "another catalogue");
        check_kept(rt, heap, book, &line, "another catalogue")?;
    }
    Ok(())
}

// Of the modules in the line it has Slow, and not Now.
const SHORT_BOOK: &str = "module Slow { S = w.?1.S; } module Fast { F = ?1.F; }";

const BY_SHORT_BOOK: &[Refusal] = &[
    ("Now is not known", 1, FAST, 9, Err((22, 0))),
    ("22 before 23 and 24", 1, UNKNOWN, 0, Err((22, 0))),
    (
        "21 beside a module that is not known",
        2,
        FAST,
        9,
        Err((21, 0)),
    ),
    ("Now is no new module", 0, NOW, 9, Err((23, 0))),
];

// A list that is no state is 22 too, since 22 comes before 26.
const NOT_KNOWN: &[(&[u32], Told)] = &[(&[32, 16], Err(22)), (&[], Err(22)), (&[32, 99], Err(22))];

#[test]
fn fewer(rt: HostRuntime) -> Result<(), Fail> {
    let rows = Rows::of(rt.alloc(), BOOK)?;
    let book = rows.book();
    let short_rows = Rows::of(rt.alloc(), SHORT_BOOK)?;
    let short_book = short_rows.book();
    check_refusals(&rt, rt.alloc(), &book, &short_book, BY_SHORT_BOOK)?;
    // only the module in the slot has to be known
    check_accepted(
        &rt,
        rt.alloc(),
        &book,
        &short_book,
        &[(0, FAST, 4, &[FAST, NOW])],
    )?;
    check_times(&rt, rt.alloc(), &book, &short_book, NOT_KNOWN)
}

const BY_NO_MODULES: &[Refusal] = &[
    ("Slow is not known", 0, SLOW, 9, Err((22, 0))),
    ("21 before 22", 2, SLOW, 9, Err((21, 0))),
    ("22 before 23 and 24", 0, UNKNOWN, 0, Err((22, 0))),
];

#[test]
fn none(rt: HostRuntime) -> Result<(), Fail> {
    let rows = Rows::of(rt.alloc(), BOOK)?;
    let book = rows.book();
    let empty = table_of(rt.alloc(), &[1, 0, 0])?;
    check_refusals(&rt, rt.alloc(), &book, &empty, BY_NO_MODULES)?;
    check_times(&rt, rt.alloc(), &book, &empty, NOT_KNOWN)
}

// Each of ten modules is nil, with one code: it takes the place of itself, with one pair.
const NIL: &[u8] = &[0, 9, 0, 1, 0, 0, 0, 3, 0, 0, 0];

const BY_NILS: &[Refusal] = &[
    ("no eleventh module", 0, 10, 1, Err((23, 0))),
    ("no slot 2", 2, FAST, 1, Err((21, 0))),
];

const AMONG_NILS: &[Accepted] = &[
    (0, UNKNOWN, 1, &[UNKNOWN, NOW]),
    (1, FAST, 1, &[SLOW, FAST]),
];

const NIL_TIMES: &[(&[u32], Told)] = &[
    (&[0, 0], Ok((true, &[]))),
    (&[0, 1], Err(26)),
    (&[32, 16], Err(26)),
];

#[test]
fn otherwise(rt: HostRuntime) -> Result<(), Fail> {
    let rows = Rows::of(rt.alloc(), BOOK)?;
    let book = rows.book();
    let mut bytes = [1, 0, 10].to_vec(rt.alloc())?;
    for _ in 0..10 {
        bytes.extend_from_slice(NIL)?;
    }
    let nils = table_of(rt.alloc(), &bytes)?;
    check_refusals(&rt, rt.alloc(), &book, &nils, BY_NILS)?;
    check_accepted(&rt, rt.alloc(), &book, &nils, AMONG_NILS)?;
    check_times(&rt, rt.alloc(), &book, &nils, NIL_TIMES)
}

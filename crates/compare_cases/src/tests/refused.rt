// Modules that are not there: the rows stay as they were.
use super::made::TABLE;
use super::written::{BOOK, WRITTEN};
use super::{Answer, BookRows, Row, assert_rows, compared, table};
use catalogue::Catalogue;
use layers::{Joined, Renamed};
use maker_table::Table;
use renaming::Renaming;
use std::alloc::Global;
use std::process::Abort;
use std::test::Fail;

// Asserts that each question is refused so, where a catalogue has so many modules.
fn assert_refused<C: Catalogue>(
    rt: &impl Abort,
    heap: Global,
    catalogue: &C,
    count: usize,
) -> Result<(), Fail> {
    let known = count.saturating_sub(1);
    let unknown: [(usize, usize, u8); 9] = [
        (known, count, 22),
        (0, count, 22),
        (0, usize::MAX, 22),
        (count, count, 22),
        (usize::MAX, usize::MAX, 22),
        (usize::MAX, count, 22),
        (count, known, 23),
        (count, 0, 23),
        (usize::MAX, known, 23),
    ];
    for (new, old, number) in unknown {
        for length in [0, 1, 5] {
            let (answer, rows) = compared(heap, catalogue, new, old, length)?;
            assert_eq!(rt; answer, Err(number), "{} for {}", new, old);
            assert_rows(rt, new, old, &rows, &[]);
        }
    }
    Ok(())
}

#[test]
fn unknown(rt: HostRuntime) -> Result<(), Fail> {
    let heap = rt.alloc();
    let rows = BookRows::read(heap, BOOK)?;
    assert_refused(&rt, heap, &rows.book(), WRITTEN)?;
    assert_refused(&rt, heap, &table(heap, TABLE)?, 6)?;
    let pile = Joined::new(
        table(heap, TABLE)?,
        Renamed::new(rows.book(), Renaming::identity()),
    );
    assert_refused(&rt, heap, &pile, 6 + WRITTEN)
}

// No module at all: the old one is told first.
#[test]
fn empty(rt: HostRuntime) -> Result<(), Fail> {
    let heap = rt.alloc();
    let rows = BookRows::read(heap, "")?;
    let none = Joined::new(table(heap, "01 0000")?, rows.book());
    for (new, old) in [(0, 0), (1, 0), (0, 255), (usize::MAX, usize::MAX)] {
        let (answer, table) = compared(heap, &none, new, old, 3)?;
        assert_eq!(rt; answer, Err(22), "{} for {}", new, old);
        assert_rows(&rt, new, old, &table, &[]);
    }
    Ok(())
}

// A table of 64 modules that rest.
fn resting(heap: Global) -> Result<Table, Fail> {
    let mut bytes = [1u8, 0, 64].to_vec(heap)?;
    for _ in 0..64 {
        bytes.extend_from_slice(&[0, 9, 0, 1, 0, 0, 0, 3, 0, 0, 0])?;
    }
    Ok(Table::take(heap, bytes)?)
}

// The join of five such tables is cut after 256 modules.
const CUT: [(usize, usize, Answer, &[Row]); 7] = [
    (0, 255, Ok((1, 0)), &[(0, 0, 0)]),
    (255, 0, Ok((1, 0)), &[(0, 0, 0)]),
    (255, 255, Ok((1, 0)), &[(0, 0, 0)]),
    (255, 256, Err(22), &[]),
    (256, 255, Err(23), &[]),
    (256, 256, Err(22), &[]),
    (319, 319, Err(22), &[]),
];

#[test]
fn cut(rt: HostRuntime) -> Result<(), Fail> {
    let heap = rt.alloc();
    let two = Joined::new(resting(heap)?, resting(heap)?);
    let three = Joined::new(resting(heap)?, Joined::new(resting(heap)?, resting(heap)?));
    let five = Joined::new(two, three);
    for (new, old, wanted, rows) in CUT {
        let (answer, table) = compared(heap, &five, new, old, 2)?;
        assert_eq!(rt; answer, wanted, "{} for {}", new, old);
        assert_rows(&rt, new, old, &table, rows);
    }
    Ok(())
}

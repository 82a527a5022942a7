// Rows that are opened as they are, also such as no reading leaves.
use book::{Book, try_rows};
use catalogue::Catalogue;
use rows::Place::{Act, Name, Nil, Sum, Wait};
use rows::{ModuleRow, Place};
use std::alloc::Global;
use std::process::Abort;
use std::test::Fail;

// Opens rows in each way that there is: `taken`, or the refusal as it prints. Where they are refused, the book has no module.
fn opened(
    rt: &impl Abort,
    heap: Global,
    places: &[Place],
    modules: &[ModuleRow],
) -> Result<String, Fail> {
    let book = Book::over(places, modules);
    let told = match book.fault() {
        None => format!(in heap; "taken")?,
        Some(fault) => format!(in heap; "{fault}")?,
    };
    let refused = book.fault().is_some();
    let count = if refused { 0 } else { modules.len() };
    assert_eq!(rt; book.modules(), count, "{}", told);
    assert_eq!(rt; book.codes(0).is_some(), count > 0, "{}", told);
    assert_eq!(rt; book.start(0).is_some(), count > 0, "{}", told);
    assert_eq!(rt; book.tick(0, 0).is_none() || count > 0, true, "{}", told);
    assert_eq!(rt; try_rows(places, modules).is_err(), refused, "{}", told);
    assert_eq!(rt; Book::open(places, modules).is_err(), refused, "{}", told);
    Ok(told)
}

// Four place rows, a module row (first place row, number of places, start), and what is told of module 0 with them.
const ROWS: [([Place; 4], (usize, usize, usize), &str); 54] = [
    ([Nil, Nil, Nil, Nil], (0, 4, 0), "taken"),
    ([Nil, Nil, Nil, Nil], (3, 1, 0), "taken"),
    // 7: beyond the rows that are lent, whatever the start is
    ([Nil, Nil, Nil, Nil], (0, 5, 0), "7 0 0"),
    ([Nil, Nil, Nil, Nil], (4, 1, 0), "7 0 0"),
    ([Nil, Nil, Nil, Nil], (3, 2, 9), "7 0 0"),
    ([Nil, Nil, Nil, Nil], (5, 0, 0), "7 0 0"),
    ([Nil, Nil, Nil, Nil], (usize::MAX, 1, 0), "7 0 0"),
    ([Nil, Nil, Nil, Nil], (usize::MAX, 2, 0), "7 0 0"),
    ([Nil, Nil, Nil, Nil], (1, usize::MAX, 0), "7 0 0"),
    (
        [Nil, Nil, Nil, Nil],
        (usize::MAX, usize::MAX, usize::MAX),
        "7 0 0",
    ),
    // over 256 places
    ([Nil, Nil, Nil, Nil], (0, 257, 0), "7 0 0"),
    // 6: a start that is no place of the module, also where there is none, before any place is looked at
    ([Nil, Nil, Nil, Nil], (0, 4, 4), "6 0 0"),
    ([Nil, Nil, Nil, Nil], (0, 1, 3), "6 0 0"),
    ([Nil, Nil, Nil, Nil], (0, 4, usize::MAX), "6 0 0"),
    ([Nil, Nil, Nil, Nil], (0, 0, 0), "6 0 0"),
    ([Nil, Nil, Nil, Nil], (4, 0, 0), "6 0 0"),
    ([Wait(9), Act(99, 9), Nil, Nil], (0, 2, 2), "6 0 0"),
    // 6: a row that leads to what is no place of the module
    ([Wait(1), Nil, Nil, Nil], (0, 1, 0), "6 0 0"),
    ([Act(1, 1), Nil, Nil, Nil], (0, 1, 0), "6 0 0"),
    ([Name(1), Nil, Nil, Nil], (0, 1, 0), "6 0 0"),
    ([Nil, Wait(4), Nil, Nil], (0, 4, 0), "6 0 1"),
    ([Nil, Nil, Act(0, 65_535), Nil], (0, 4, 0), "6 0 2"),
    ([Nil, Nil, Nil, Name(4)], (0, 4, 0), "6 0 3"),
    ([Nil, Sum(0, 4), Nil, Nil], (0, 4, 0), "6 0 1"),
    ([Nil, Sum(4, 0), Nil, Nil], (0, 4, 0), "6 0 1"),
    ([Nil, Sum(4, 4), Wait(4), Nil], (0, 4, 0), "6 0 1"),
    // counted in the module, not in the rows
    ([Nil, Nil, Nil, Wait(2)], (2, 2, 0), "6 0 1"),
    ([Nil, Nil, Nil, Wait(0)], (2, 2, 0), "taken"),
    // 6 over all places before 3
    ([Act(99, 0), Wait(4), Nil, Nil], (0, 4, 0), "6 0 1"),
    ([Act(99, 4), Nil, Nil, Nil], (0, 4, 0), "6 0 0"),
    // 3: an action beyond 31 either way
    ([Act(32, 1), Nil, Nil, Nil], (0, 4, 0), "3 0 0"),
    ([Nil, Act(-32, 0), Nil, Nil], (0, 4, 0), "3 0 1"),
    ([Nil, Nil, Act(127, 0), Nil], (0, 4, 0), "3 0 2"),
    ([Nil, Nil, Nil, Act(-128, 0)], (0, 4, 0), "3 0 3"),
    (
        [Act(31, 0), Act(-31, 0), Act(0, 0), Act(1, 3)],
        (0, 4, 0),
        "taken",
    ),
    // 3 over all places before 8
    ([Wait(0), Nil, Act(32, 0), Nil], (0, 4, 0), "3 0 2"),
    ([Act(32, 0), Nil, Act(99, 0), Nil], (0, 4, 0), "3 0 0"),
    // 8: a walk that comes back
    ([Wait(0), Nil, Nil, Nil], (0, 4, 0), "8 0 0"),
    ([Name(0), Nil, Nil, Nil], (0, 4, 0), "8 0 0"),
    ([Sum(0, 0), Nil, Nil, Nil], (0, 4, 0), "8 0 0"),
    ([Nil, Sum(0, 1), Nil, Nil], (0, 4, 0), "8 0 1"),
    ([Nil, Sum(1, 0), Nil, Nil], (0, 4, 0), "8 0 1"),
    ([Nil, Wait(2), Wait(3), Wait(1)], (0, 4, 0), "8 0 1"),
    ([Nil, Wait(3), Nil, Wait(3)], (0, 4, 0), "8 0 1"),
    ([Wait(1), Wait(2), Wait(3), Wait(2)], (0, 4, 0), "8 0 0"),
    // of a place that the start does not reach
    ([Nil, Nil, Nil, Name(3)], (0, 4, 0), "8 0 3"),
    // not through an action
    ([Act(1, 0), Wait(0), Nil, Nil], (0, 4, 0), "taken"),
    ([Wait(1), Act(1, 0), Nil, Nil], (0, 4, 0), "taken"),
    // to places with larger numbers, and to one place twice
    ([Wait(1), Wait(2), Wait(3), Nil], (0, 4, 0), "taken"),
    ([Sum(1, 1), Sum(2, 2), Sum(3, 3), Nil], (0, 4, 0), "taken"),
    // a name of a name, of a nil and of a sum
    ([Name(1), Name(2), Name(3), Nil], (0, 4, 0), "taken"),
    ([Sum(1, 2), Name(3), Name(3), Act(1, 0)], (0, 4, 0), "taken"),
    // rows that no module has are not tried
    ([Nil, Wait(9), Act(99, 9), Name(3)], (0, 1, 0), "taken"),
    ([Name(0), Nil, Act(99, 9), Wait(9)], (1, 1, 0), "taken"),
];

#[test]
fn one(rt: HostRuntime) -> Result<(), Fail> {
    for (number, (places, (first, count, start), wanted)) in ROWS.iter().enumerate() {
        let modules = [ModuleRow {
            first: *first,
            places: *count,
            start: *start,
        }];
        let found = opened(&rt, rt.alloc(), places, &modules)?;
        assert_eq!(rt; found.as_str(), *wanted, "row {}", number);
    }
    Ok(())
}

// Place rows of two modules, (0, 2, 0) and (2, 2, 0): the first module at fault is told, whatever the numbers are.
const TWO: [([Place; 4], &str); 8] = [
    ([Nil, Nil, Nil, Nil], "taken"),
    ([Nil, Nil, Wait(1), Nil], "taken"),
    ([Nil, Nil, Wait(2), Nil], "6 1 0"),
    ([Nil, Nil, Nil, Act(32, 0)], "3 1 1"),
    ([Nil, Nil, Nil, Wait(1)], "8 1 1"),
    ([Wait(0), Nil, Wait(2), Nil], "8 0 0"),
    ([Nil, Act(32, 0), Wait(2), Nil], "3 0 1"),
    ([Wait(3), Nil, Act(32, 0), Nil], "6 0 0"),
];

#[test]
fn two(rt: HostRuntime) -> Result<(), Fail> {
    let modules = [row(0, 2), row(2, 2)];
    for (places, wanted) in TWO {
        let found = opened(&rt, rt.alloc(), &places, &modules)?;
        assert_eq!(rt; found.as_str(), wanted, "second module");
    }
    // rows that two modules share, and no module at all
    let found = opened(&rt, rt.alloc(), &[Wait(1), Nil], &[row(0, 2), row(0, 2)])?;
    assert_eq!(rt; found.as_str(), "taken", "shared rows");
    let found = opened(&rt, rt.alloc(), &[Wait(0)], &[])?;
    assert_eq!(rt; found.as_str(), "taken", "no module");
    Ok(())
}

// A module of so many places from a row on, that starts in its first.
fn row(first: usize, places: usize) -> ModuleRow {
    ModuleRow {
        first,
        places,
        start: 0,
    }
}

// A nil and so many waits, each for the one before it; and an action with so many sums, each of the one before it twice.
#[test]
fn deep_and_many(rt: HostRuntime) -> Result<(), Fail> {
    let cases = [
        (15, 6, "taken"),
        (16, 6, "9 0 16"),
        (15, 7, "10 0 23"),
        (16, 7, "9 0 16"),
        (17, 8, "9 0 16"),
        (0, 8, "10 0 8"),
    ];
    for (waits, sums, wanted) in cases {
        let mut places = Vec::new(rt.alloc());
        places.push(Nil)?;
        for before in 0..waits {
            places.push(Wait(before))?;
        }
        places.push(Act(1, 0))?;
        for before in 0..sums {
            let last = waits + 1 + before;
            places.push(Sum(last, last))?;
        }
        let modules = [row(0, places.len())];
        let found = opened(&rt, rt.alloc(), &places, &modules)?;
        assert_eq!(rt; found.as_str(), wanted, "{} waits, {} sums", waits, sums);
    }
    Ok(())
}

// 64 and 65 modules of one place, the last or the one before it at fault; 256 and 257 places.
#[test]
fn limits(rt: HostRuntime) -> Result<(), Fail> {
    let mut modules = vec![in rt.alloc(); row(0, 1); 64]?;
    let found = opened(&rt, rt.alloc(), &[Nil], &modules)?;
    assert_eq!(rt; found.as_str(), "taken", "64 modules");
    modules.push(row(0, 1))?;
    let found = opened(&rt, rt.alloc(), &[Nil], &modules)?;
    assert_eq!(rt; found.as_str(), "7 64 0", "65 modules");
    let found = opened(&rt, rt.alloc(), &[Name(0)], &modules)?;
    assert_eq!(rt; found.as_str(), "8 0 0", "65 modules at fault");
    modules[63] = row(0, 2);
    let found = opened(&rt, rt.alloc(), &[Nil], &modules)?;
    assert_eq!(rt; found.as_str(), "7 63 0", "the last but one at fault");
    let places = vec![in rt.alloc(); Nil; 257]?;
    let found = opened(&rt, rt.alloc(), &places, &[row(0, 256), row(1, 256)])?;
    assert_eq!(rt; found.as_str(), "taken", "256 places");
    let found = opened(&rt, rt.alloc(), &places, &[row(0, 256), row(0, 257)])?;
    assert_eq!(rt; found.as_str(), "7 1 0", "257 places");
    Ok(())
}

// The rows that are lent: how many are needed, and what they hold behind a reading.
use super::told_with;
use book_text::read;
use rows::{ModuleRow, Place};
use std::process::Abort;
use std::test::Fail;

const BOOK: &str = "module Slow { S = w.?1.S; } module Fast { F = ?1.F; }";

// The book uses 3 and 2 place rows, and 2 module rows. So many rows are lent, and this is told.
const LENT: [(usize, usize, &str); 16] = [
    (5, 2, "taken 5 2"),
    (6, 3, "taken 5 2"),
    (256, 64, "taken 5 2"),
    (300, 100, "taken 5 2"),
    // the name `F` is place 3 of all, and the action before it place 4: both are complete at the name
    (4, 2, "7 49"),
    (3, 2, "7 49"),
    // `S` is place 0, the action place 1 and the wait place 2
    (2, 2, "7 23"),
    (1, 2, "7 23"),
    (0, 2, "7 23"),
    // at the word `module`
    (5, 1, "7 28"),
    (5, 0, "7 0"),
    (0, 0, "7 0"),
    (3, 1, "7 28"),
    (2, 1, "7 23"),
    (0, 1, "7 23"),
    (4, 1, "7 28"),
];

#[test]
fn lent(rt: HostRuntime) -> Result<(), Fail> {
    for (places, modules, wanted) in LENT {
        let found = told_with(rt.alloc(), BOOK, places, modules)?;
        assert_eq!(rt; found.as_str(), wanted, "{} and {} rows", places, modules);
    }
    for text in ["", " \n"] {
        let found = told_with(rt.alloc(), text, 0, 0)?;
        assert_eq!(rt; found.as_str(), "taken 0 0", "no rows");
    }
    Ok(())
}

// More rows than a book may use make no difference to its limits: one place, equation or module too many is refused as ever.
#[test]
fn more(rt: HostRuntime) -> Result<(), Fail> {
    let mut chain = String::new(rt.alloc());
    let mut modules = String::new(rt.alloc());
    for number in 0..64 {
        chain.push_str("i.i.i.i.")?;
        write!(modules, "module M{number} {{ X = 0; }} ")?;
    }
    let text = format!(in rt.alloc(); "module A {{ X = {chain}0; }}")?;
    let found = told_with(rt.alloc(), &text, 1000, 1)?;
    assert_eq!(rt; found.as_str(), "7 527", "257 places in 1,000 rows");
    let at = modules.len();
    let text = format!(in rt.alloc(); "{modules}module M64 {{ X = 0; }}")?;
    let found = told_with(rt.alloc(), &text, 100, 100)?;
    let wanted = format!(in rt.alloc(); "7 {at}")?;
    assert_eq!(rt; found, wanted, "65 modules in 100 rows");
    let found = told_with(rt.alloc(), &modules, 64, 64)?;
    assert_eq!(rt; found.as_str(), "taken 64 64", "64 modules in 64 rows");
    let found = told_with(rt.alloc(), &modules, 63, 64)?;
    let last = format!(in rt.alloc(); "7 {}", at.saturating_sub(5))?;
    assert_eq!(rt; found, last, "64 modules in 63 rows");
    Ok(())
}

// A text for each refusal of a reading: both lent slices are zeroed whole, whatever was in them and however far the reading came.
const REFUSED: [&str; 14] = [
    "module A { X = ?1.X; } #",
    "module A { X = ?1.X; } }",
    "module A { X = ?1.X; } module B { Y = w.?1.0",
    "module A { X = ?1.X; } module B { Y = w.?0.0; }",
    "module A { X = ?1.X; } module B { Y = Abcdefghijklmnopq; }",
    "module A { X = ?1.X; } module A { Y = 0; }",
    "module A { X = ?1.X; X = 0; }",
    "module A { X = ?1.X; } module B { Y = ?1.?2.X; }",
    "module A { X = ?1.?1.?1.?1.?1.?1.?1.?1.0; }",
    "module A { X = 0; } module B { X = 0; } module C { X = 0; } module D { X = 0; }",
    "module A { X = ?1.X; } module B { Y = w.Y; }",
    "module A { X = ?1.X; Y = Z; Z = Y; }",
    "module A { X = w.w.w.Y; Y = Y; }",
    "#",
];

const WRITTEN: Place = Place::Act(5, 5);

const WRITTEN_MODULE: ModuleRow = ModuleRow {
    first: 5,
    places: 5,
    start: 5,
};

#[test]
fn zeroed(rt: HostRuntime) -> Result<(), Fail> {
    for text in REFUSED {
        let mut places = [WRITTEN; 8];
        let mut modules = [WRITTEN_MODULE; 3];
        let outcome = read(text.as_bytes(), &mut places, &mut modules);
        assert!(rt; outcome.is_err(), "{}", text);
        assert_eq!(rt; places, [Place::Nil; 8], "{}", text);
        assert_eq!(rt; modules, [ModuleRow::default(); 3], "{}", text);
    }
    Ok(())
}

// Behind a reading the rows that it used stand in front, and the rest is zeroed.
fn kept(rt: &impl Abort, text: &str, wanted: [Place; 6], rows: [(usize, usize, usize); 3]) {
    let mut places = [WRITTEN; 6];
    let mut modules = [WRITTEN_MODULE; 3];
    let outcome = read(text.as_bytes(), &mut places, &mut modules);
    assert!(rt; outcome.is_ok(), "{}", text);
    assert_eq!(rt; places, wanted, "{}", text);
    for (row, (first, places, start)) in modules.iter().zip(rows) {
        let wanted = ModuleRow {
            first,
            places,
            start,
        };
        assert_eq!(rt; *row, wanted, "{}", text);
    }
}

#[test]
fn used(rt: HostRuntime) {
    kept(&rt, "", [Place::Nil; 6], [(0, 0, 0); 3]);
    kept(
        &rt,
        BOOK,
        [
            Place::Name(2),
            Place::Act(1, 0),
            Place::Wait(1),
            Place::Name(1),
            Place::Act(1, 0),
            Place::Nil,
        ],
        [(0, 3, 2), (3, 2, 1), (0, 0, 0)],
    );
    kept(
        &rt,
        "module A { X = 0; } module B { X = !2.0; } module C { X = w.w.0; }",
        [
            Place::Nil,
            Place::Nil,
            Place::Act(-2, 0),
            Place::Nil,
            Place::Wait(0),
            Place::Wait(1),
        ],
        [(0, 1, 0), (1, 2, 1), (3, 3, 2)],
    );
}

// What a book answers to each question, also about modules, codes and moves that are not there.
use book::Book;
use book_text::read;
use catalogue::{Catalogue, Move};
use rows::{ModuleRow, Place};
use std::test::Fail;

// Module 0 is slow: it starts in place 2. In module 1 nothing holds the internal event back: it starts in place 5. Module 2 is nil. Module 3
// has a wait of two units beside one of one, and starts in place 7.
const TEXT: &str =
    "module Slow { S = w.?1.S; } module Both { B = w.?1.0 + i.0; } module Rest { R = 0; } \
module Two { T = w.w.!2.0 + w.?1.0; }";

// The text, read into as many rows as it uses.
fn rows() -> Result<([Place; 18], [ModuleRow; 4]), Fail> {
    let mut places = [Place::default(); 18];
    let mut modules = [ModuleRow::default(); 4];
    match read(TEXT.as_bytes(), &mut places, &mut modules) {
        Ok(_) => Ok((places, modules)),
        Err(_) => Err(Fail::new("refused")),
    }
}

const MODULES: [(usize, Option<u32>, Option<u32>); 6] = [
    (0, Some(48), Some(32)),
    (1, Some(96), Some(80)),
    (2, Some(16), Some(0)),
    (3, Some(128), Some(112)),
    (4, None, None),
    (usize::MAX, None, None),
];

#[test]
fn modules(rt: HostRuntime) -> Result<(), Fail> {
    let (places, modules) = rows()?;
    let book = Book::over(&places, &modules);
    assert_eq!(rt; book.modules(), 4);
    for (part, codes, start) in MODULES {
        assert_eq!(rt; book.codes(part), codes, "{}", part);
        assert_eq!(rt; book.start(part), start, "{}", part);
    }
    Ok(())
}

const TICKS: [(usize, u32, Option<u32>); 22] = [
    // the start of the slow module; then its action is urgent, and its tick stays
    (0, 32, Some(33)),
    (0, 33, Some(33)),
    (0, 34, Some(34)),
    (0, 47, Some(47)),
    // its name has the depth of its right side, and its action has none
    (0, 0, Some(1)),
    (0, 1, Some(1)),
    (0, 16, Some(16)),
    (0, 31, Some(31)),
    (0, 48, None),
    (0, u32::MAX, None),
    // an urgent internal event lets no time pass
    (1, 80, None),
    (1, 81, None),
    (1, 95, None),
    (1, 64, None),
    (1, 32, Some(33)),
    (1, 96, None),
    (2, 0, Some(0)),
    (2, 15, Some(15)),
    // of two depths the larger
    (3, 112, Some(113)),
    (3, 113, Some(114)),
    (3, 114, Some(114)),
    (4, 0, None),
];

#[test]
fn ticks(rt: HostRuntime) -> Result<(), Fail> {
    let (places, modules) = rows()?;
    let book = Book::over(&places, &modules);
    for (part, code, tick) in TICKS {
        assert_eq!(rt; book.tick(part, code), tick, "{} {}", part, code);
    }
    Ok(())
}

// Of a module and a code all urgent actions, each followed by a space.
const URGENT: [(usize, u32, &str); 18] = [
    (0, 32, ""),
    (0, 33, "1 "),
    (0, 47, "1 "),
    (0, 16, "1 "),
    (0, 0, ""),
    (0, 1, "1 "),
    (0, 48, ""),
    (1, 80, "0 "),
    (1, 81, "0 1 "),
    (1, 64, "0 "),
    (2, 0, ""),
    (2, 15, ""),
    (3, 112, ""),
    (3, 113, "1 "),
    (3, 114, "-2 1 "),
    (3, 127, "-2 1 "),
    (4, 0, ""),
    (usize::MAX, u32::MAX, ""),
];

#[test]
fn urgent(rt: HostRuntime) -> Result<(), Fail> {
    let (places, modules) = rows()?;
    let book = Book::over(&places, &modules);
    for (part, code, wanted) in URGENT {
        let mut found = String::new(rt.alloc());
        for action in book.urgent(part, code).iter() {
            write!(found, "{action} ")?;
        }
        assert_eq!(rt; found.as_str(), wanted, "{} {}", part, code);
    }
    Ok(())
}

const MOVES: [(usize, u32, usize, Option<(i8, u32)>); 20] = [
    // whatever the age, to the follower at age 0
    (0, 32, 0, Some((1, 0))),
    (0, 33, 0, Some((1, 0))),
    (0, 47, 0, Some((1, 0))),
    (0, 0, 0, Some((1, 0))),
    (0, 32, 1, None),
    (0, 32, usize::MAX, None),
    (0, 48, 0, None),
    // those of the left place, then those of the right one
    (1, 80, 0, Some((1, 0))),
    (1, 80, 1, Some((0, 48))),
    (1, 80, 2, None),
    (1, 95, 1, Some((0, 48))),
    (1, 0, 0, None),
    (2, 0, 0, None),
    (3, 112, 0, Some((-2, 0))),
    (3, 112, 1, Some((1, 64))),
    (3, 112, 2, None),
    (3, 128, 0, None),
    (3, u32::MAX, 0, None),
    (4, 0, 0, None),
    (usize::MAX, 0, 0, None),
];

fn pair(step: Option<Move>) -> Option<(i8, u32)> {
    match step {
        None => None,
        Some(step) => Some((step.action, step.target)),
    }
}

#[test]
fn moves(rt: HostRuntime) -> Result<(), Fail> {
    let (places, modules) = rows()?;
    let book = Book::over(&places, &modules);
    for (part, code, number, step) in MOVES {
        assert_eq!(rt;
            pair(book.move_at(part, code, number)),
            step,
            "{} {} {}",
            part,
            code,
            number
        );
    }
    Ok(())
}

// Books as large as they may be, whose sums can be walked down in countless ways: they are read, opened and asked every question in a
// moment.
use book::Book;
use book_text::read;
use catalogue::Catalogue;
use rows::{ModuleRow, Place};
use std::alloc::Global;
use std::process::Abort;
use std::test::Fail;

// Asks every question about every code, and counts the moves that are told.
fn asked(book: &Book<'_>) -> u64 {
    let mut moves = 0u64;
    for part in 0..book.modules() {
        for code in 0..book.codes(part).unwrap_or(0) {
            moves = moves.wrapping_add(questions(book, part, code));
        }
    }
    moves
}

// The questions about one code: its moves until there is none, its urgent set and its tick.
fn questions(book: &Book<'_>, part: usize, code: u32) -> u64 {
    let mut moves = 0u64;
    for number in 0..64 {
        if book.move_at(part, code, number).is_none() {
            break;
        }
        moves = moves.wrapping_add(1);
    }
    let urgent = book.urgent(part, code);
    if book.tick(part, code).is_none() != urgent.contains(0) {
        return u64::MAX;
    }
    moves
}

// 64 modules of 64 equations and 256 places each. Each equation has twice the ways down of the one before it, the last one more; none
// leads to a move.
fn countless(heap: Global) -> Result<String, Fail> {
    let mut equations = String::new(heap);
    equations.push_str("A0=0;")?;
    for before in 0..62usize {
        let number = before + 1;
        write!(equations, "A{number}=A{before}+A{before};")?;
    }
    equations.push_str("A63=A62")?;
    for _ in 0..34 {
        equations.push_str("+A62")?;
    }
    let mut text = String::new(heap);
    for number in 0..64 {
        write!(text, "module M{number}{{{equations};}}\n")?;
    }
    Ok(text)
}

// Reads, opens and asks, and tells the rows that were used and the moves that were told.
fn read_and_asked(rt: &impl Abort, heap: Global, text: &str) -> Result<(usize, usize, u64), Fail> {
    let mut places = vec![in heap; Place::default(); 16_384]?;
    let mut modules = vec![in heap; ModuleRow::default(); 64]?;
    let Ok(used) = read(text.as_bytes(), &mut places, &mut modules) else {
        return Err(Fail::new("refused"));
    };
    let Ok(book) = Book::open(&places[..used.places], &modules[..used.modules]) else {
        return Err(Fail::new("not opened"));
    };
    assert_eq!(rt; book.modules(), used.modules);
    Ok((used.places, used.modules, asked(&book)))
}

#[test]
fn many_ways(rt: HostRuntime) -> Result<(), Fail> {
    let text = countless(rt.alloc())?;
    let found = read_and_asked(&rt, rt.alloc(), &text)?;
    assert_eq!(rt; found, (16_384, 64, 0));
    Ok(())
}

// The same with spaces up to the length that a file may have.
#[test]
fn long_text(rt: HostRuntime) -> Result<(), Fail> {
    let mut text = countless(rt.alloc())?;
    assert!(rt; text.len() < 65_536);
    for _ in text.len()..65_536 {
        text.push(' ')?;
    }
    let found = read_and_asked(&rt, rt.alloc(), &text)?;
    assert_eq!(rt; found, (16_384, 64, 0));
    Ok(())
}

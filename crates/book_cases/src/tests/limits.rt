// Texts at the limits of a book, and past them. They are built piece by piece, and the place of a refusal is noted on the way.
use super::told;
use std::alloc::Global;
use std::test::Fail;

// So many modules, each of one nil.
fn modules(heap: Global, count: usize) -> Result<String, Fail> {
    let mut text = String::new(heap);
    for number in 0..count {
        write!(text, "module M{number} {{ X = 0; }} ")?;
    }
    Ok(text)
}

// The head of a module, and so many equations, each of one nil.
fn equations(heap: Global, count: usize) -> Result<String, Fail> {
    let mut text = String::new(heap);
    text.push_str("module A { ")?;
    for number in 0..count {
        write!(text, "X{number} = 0; ")?;
    }
    Ok(text)
}

// A piece of text so many times.
fn repeated(heap: Global, piece: &str, count: usize) -> Result<String, Fail> {
    let mut text = String::new(heap);
    for _ in 0..count {
        text.push_str(piece)?;
    }
    Ok(text)
}

#[test]
fn of_modules(rt: HostRuntime) -> Result<(), Fail> {
    let most = modules(rt.alloc(), 64)?;
    let at = most.len();
    let over = format!(in rt.alloc(); "7 {at}")?;
    let stray = format!(in rt.alloc(); "2 {at}")?;
    let cases = [
        ("", "taken 64 64"),
        // at its word `module`, whatever its name is
        ("module", over.as_str()),
        ("module M64 { X = 0; }", over.as_str()),
        ("module M0 { X = 0; }", over.as_str()),
        ("module Abcdefghijklmnopq { X = 0; }", over.as_str()),
        ("module #", over.as_str()),
        // a word that may not stand there is none
        ("modules", stray.as_str()),
    ];
    for (more, wanted) in cases {
        let text = format!(in rt.alloc(); "{most}{more}")?;
        let found = told(rt.alloc(), &text)?;
        assert_eq!(rt; found.as_str(), wanted, "{}", more);
    }
    Ok(())
}

#[test]
fn of_equations(rt: HostRuntime) -> Result<(), Fail> {
    let most = equations(rt.alloc(), 64)?;
    let at = most.len();
    let cases = [
        ("}", 0),
        // at its left side: 4 before 5, and both before 7
        ("X64 = 0; }", 7),
        ("X64", 7),
        ("X0 = 0; }", 5),
        ("X63", 5),
        ("Abcdefghijklmnopq = 0; }", 4),
        ("x = 0; }", 2),
        ("# = 0; }", 1),
    ];
    for (more, number) in cases {
        let text = format!(in rt.alloc(); "{most}{more}")?;
        let wanted = match number {
            0 => format!(in rt.alloc(); "taken 64 1")?,
            _ => format!(in rt.alloc(); "{number} {at}")?,
        };
        let found = told(rt.alloc(), &text)?;
        assert_eq!(rt; found, wanted, "{}", more);
    }
    Ok(())
}

// A right side: a head, a piece of it so many times, and a tail. With it the place in the tail where it is refused 7, or how many places
// it has.
const PLACES: [(&str, &str, usize, &str, Result<usize, usize>); 15] = [
    // a chain is complete at its last word
    ("", "i.", 255, "0", Ok(256)),
    ("", "i.", 256, "0", Err(0)),
    ("", "i.", 300, "0", Err(0)),
    ("", "i.", 255, "(0)", Ok(256)),
    // the inner place at the `0`, and the action at the `)`
    ("", "i.", 256, "(0)", Err(2)),
    // each term but the first with the sum that it is the right of
    ("", "0 + ", 127, "0", Ok(255)),
    ("", "0 + ", 128, "0", Err(0)),
    ("", "0 + ", 127, "i.0", Ok(256)),
    ("", "0 + ", 127, "i.i.0", Err(4)),
    ("i.(", "0 + ", 127, "0)", Ok(256)),
    ("i.i.(", "0 + ", 127, "0)", Err(1)),
    ("", "i.", 256, "(((0)))", Err(6)),
    // the places of all equations of the module count
    ("0; Y = ", "X + ", 127, "X", Ok(256)),
    ("0; Y = ", "X + ", 127, "i.X", Err(2)),
    ("0; Y = ", "X + ", 128, "X", Err(0)),
];

#[test]
fn of_places(rt: HostRuntime) -> Result<(), Fail> {
    for (head, piece, count, tail, answer) in PLACES {
        let middle = repeated(rt.alloc(), piece, count)?;
        let front = format!(in rt.alloc(); "module A {{ X = {head}{middle}")?;
        let text = format!(in rt.alloc(); "{front}{tail}; }}")?;
        let wanted = match answer {
            Ok(places) => format!(in rt.alloc(); "taken {places} 1")?,
            Err(at) => format!(in rt.alloc(); "7 {}", front.len().saturating_add(at))?,
        };
        let found = told(rt.alloc(), &text)?;
        assert_eq!(rt; found, wanted, "{} {} {}", piece, count, tail);
    }
    Ok(())
}

// At the word that a 257th place would be complete at, an earlier refusal counts.
#[test]
fn before_places(rt: HostRuntime) -> Result<(), Fail> {
    let middle = repeated(rt.alloc(), "i.", 256)?;
    let front = format!(in rt.alloc(); "module A {{ X = {middle}")?;
    let at = front.len();
    let cases = [
        ("Abcdefghijklmnopq; }", 4),
        ("X; }", 7),
        ("Y; }", 7),
        ("?32.0; }", 3),
        ("#; }", 1),
        ("; }", 2),
        ("", 2),
    ];
    for (tail, number) in cases {
        let text = format!(in rt.alloc(); "{front}{tail}")?;
        let wanted = format!(in rt.alloc(); "{number} {at}")?;
        let found = told(rt.alloc(), &text)?;
        assert_eq!(rt; found, wanted, "{}", tail);
    }
    Ok(())
}

// So many parentheses open at one time, and what is told: 7 at the 33rd.
#[test]
fn of_parentheses(rt: HostRuntime) -> Result<(), Fail> {
    let opens = repeated(rt.alloc(), "(", 32)?;
    let closes = repeated(rt.alloc(), ")", 32)?;
    let one_by_one = repeated(rt.alloc(), "(0) + ", 40)?;
    let cases = [
        format!(in rt.alloc(); "{opens}0{closes}; }}")?,
        format!(in rt.alloc(); "{opens}0{closes} + {opens}0{closes}; }}")?,
        format!(in rt.alloc(); "{one_by_one}0; }}")?,
        format!(in rt.alloc(); "{opens}0) + (0{closes}; }}")?,
        format!(in rt.alloc(); "{opens}(0){closes}; }}")?,
        format!(in rt.alloc(); "{opens}(")?,
        format!(in rt.alloc(); "{opens}w.(0){closes}; }}")?,
        format!(in rt.alloc(); "{opens}0 + (0){closes}; }}")?,
        format!(in rt.alloc(); "{opens}0(0){closes}; }}")?,
        format!(in rt.alloc(); "{opens}0){closes}; }}")?,
    ];
    let wanted = [
        "taken 1 1",
        "taken 3 1",
        "taken 81 1",
        "taken 3 1",
        "7 47",
        "7 47",
        "7 49",
        "7 51",
        "2 48",
        "2 80",
    ];
    for (case, wanted) in cases.iter().zip(wanted) {
        let text = format!(in rt.alloc(); "module A {{ X = {case}")?;
        let found = told(rt.alloc(), &text)?;
        assert_eq!(rt; found.as_str(), wanted, "{}", text);
    }
    Ok(())
}

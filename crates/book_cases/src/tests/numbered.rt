// How places are numbered, and what rows they make.
use book_text::read;
use rows::{ModuleRow, Place};
use std::alloc::Global;
use std::test::Fail;

// The place rows that a text makes, one after the other.
fn rows_of(heap: Global, text: &str) -> Result<String, Fail> {
    let mut places = [Place::default(); 32];
    let mut modules = [ModuleRow::default(); 4];
    let Ok(used) = read(text.as_bytes(), &mut places, &mut modules) else {
        return Err(Fail::new("refused"));
    };
    let mut out = String::new(heap);
    for place in &places[..used.places] {
        match place {
            Place::Nil => write!(out, "nil ")?,
            Place::Act(action, next) => write!(out, "act {action} {next} ")?,
            Place::Wait(next) => write!(out, "wait {next} ")?,
            Place::Sum(left, right) => write!(out, "sum {left} {right} ")?,
            Place::Name(next) => write!(out, "name {next} ")?,
        }
    }
    for row in &modules[..used.modules] {
        let first = row.first;
        let count = row.places;
        let start = row.start;
        write!(out, "| {first} {count} {start}")?;
    }
    Ok(out)
}

const NUMBERED: [(&str, &str); 20] = [
    ("module A { X = 0; }", "nil | 0 1 0"),
    ("module A { X = w.0; }", "nil wait 0 | 0 2 1"),
    ("module A { X = i.0; }", "nil act 0 0 | 0 2 1"),
    (
        "module A { X = !31.?31.i.0; }",
        "nil act 0 0 act 31 1 act -31 2 | 0 4 3",
    ),
    // a name leads to the right side of its equation, which may stand behind
    ("module A { X = ?1.X; }", "name 1 act 1 0 | 0 2 1"),
    (
        "module A { X = Y; Y = Z; Z = 0; }",
        "name 1 name 2 nil | 0 3 0",
    ),
    ("module A { X = Y; Y = w.0; }", "name 2 nil wait 1 | 0 3 0"),
    (
        "module A { X = 0; Y = X; Z = w.Y; }",
        "nil name 0 name 1 wait 2 | 0 4 0",
    ),
    // sums group from the left, and a prefix belongs to the next term alone
    (
        "module A { X = 0 + 0 + 0; }",
        "nil nil sum 0 1 nil sum 2 3 | 0 5 4",
    ),
    (
        "module A { X = w.0 + 0; }",
        "nil wait 0 nil sum 1 2 | 0 4 3",
    ),
    (
        "module A { X = 0 + w.0; }",
        "nil nil wait 1 sum 0 2 | 0 4 3",
    ),
    (
        "module A { X = 0 + i.w.0 + 0; }",
        "nil nil wait 1 act 0 2 sum 0 3 nil sum 4 5 | 0 7 6",
    ),
    // parentheses are no places
    ("module A { X = ((0)); }", "nil | 0 1 0"),
    ("module A { X = w.(0); }", "nil wait 0 | 0 2 1"),
    (
        "module A { X = 0 + (0 + 0); }",
        "nil nil nil sum 1 2 sum 0 3 | 0 5 4",
    ),
    (
        "module A { X = w.(0 + 0); }",
        "nil nil sum 0 1 wait 2 | 0 4 3",
    ),
    (
        "module A { X = w.(0 + 0) + 0; }",
        "nil nil sum 0 1 wait 2 nil sum 3 4 | 0 6 5",
    ),
    (
        "module A { X = (w.0 + i.0) + ?2.X; }",
        "nil wait 0 nil act 0 2 sum 1 3 name 7 act 2 5 sum 4 6 | 0 8 7",
    ),
    (
        "module A { X = ?1.(0 + Y); Y = i.X; }",
        "nil name 5 sum 0 1 act 1 2 name 3 act 0 4 | 0 6 3",
    ),
    // each module counts from 0
    (
        "module A { X = w.0; } module B { Y = i.Y; }",
        "nil wait 0 name 1 act 0 0 | 0 2 1| 2 2 1",
    ),
];

#[test]
fn numbered(rt: HostRuntime) -> Result<(), Fail> {
    for (text, wanted) in NUMBERED {
        let found = rows_of(rt.alloc(), text)?;
        assert_eq!(rt; found.as_str(), wanted, "{}", text);
    }
    Ok(())
}

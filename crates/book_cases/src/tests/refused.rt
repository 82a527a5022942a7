// Texts that are refused at a word, each with the number and the offset, and texts beside them that are taken.
use super::told;
use std::test::Fail;

const ALIEN: [(&str, &str); 16] = [
    ("#", "1 0"),
    (" #", "1 1"),
    ("\t", "1 0"),
    ("\r\n", "1 0"),
    ("module A # { X = 0; }", "1 9"),
    ("module\tA { X = 0; }", "1 6"),
    ("module A {\r\n", "1 10"),
    ("module A { X = 0; } #", "1 20"),
    ("module A { X = 0#; }", "1 16"),
    ("module A { X = ?7#.0; }", "1 17"),
    ("module A { X = w-0; }", "1 16"),
    ("module A, B", "1 8"),
    ("module A { X = \"0\"; }", "1 15"),
    // inside a run of letters, which is tried first
    ("Mo_d", "2 0"),
    ("module Mo_d { X = 0; }", "1 9"),
    // of a character of several bytes the first
    ("module \u{e9} { X = 0; }", "1 7"),
];

const NOT_ALLOWED: [(&str, &str); 51] = [
    ("A", "2 0"),
    ("modul", "2 0"),
    ("modules", "2 0"),
    ("Module A { X = 0; }", "2 0"),
    ("MODULE A { X = 0; }", "2 0"),
    ("moduleA { X = 0; }", "2 0"),
    ("module a { X = 0; }", "2 7"),
    ("module w { X = 0; }", "2 7"),
    ("module 0 { X = 0; }", "2 7"),
    ("module 7A { X = 0; }", "2 7"),
    ("module { X = 0; }", "2 7"),
    ("module module { X = 0; }", "2 7"),
    ("module A X { X = 0; }", "2 9"),
    ("module A }", "2 9"),
    ("module A X #", "2 9"),
    ("module A {", "2 10"),
    ("module A { }", "2 11"),
    ("module A { { X = 0; }", "2 11"),
    ("module A { ; }", "2 11"),
    ("module A { x = 0; }", "2 11"),
    ("module A { w = 0; }", "2 11"),
    ("module A { i = 0; }", "2 11"),
    ("module A { 0 = 0; }", "2 11"),
    ("module A { module = 0; }", "2 11"),
    ("module A { X }", "2 13"),
    ("module A { X = }", "2 15"),
    ("module A { X = ; }", "2 15"),
    ("module A { X = 00; }", "2 15"),
    ("module A { X = 1; }", "2 15"),
    ("module A { X = x; }", "2 15"),
    ("module A { X = w2.0; }", "2 15"),
    ("module A { X = i1.0; }", "2 15"),
    ("module A { X = W.0; }", "2 16"),
    ("module A { X = module; }", "2 15"),
    ("module A { X = + 0; }", "2 15"),
    ("module A { X = (); }", "2 16"),
    ("module A { X = 0); }", "2 16"),
    ("module A { X = (0; }", "2 17"),
    ("module A { X = 0 }", "2 17"),
    ("module A { X = 0 0; }", "2 17"),
    ("module A { X = 0 = 0; }", "2 17"),
    ("module A { X = w 0; }", "2 17"),
    ("module A { X = w..0; }", "2 17"),
    ("module A { X = ?1; }", "2 17"),
    ("module A { X = ?7a.0; }", "2 17"),
    ("module A { X = ?7A.0; }", "2 17"),
    ("module A { X = i.; }", "2 17"),
    ("module A { X = 0 + ; }", "2 19"),
    ("module A { X = (0) (0); }", "2 19"),
    ("module A { X = 0; };", "2 19"),
    ("module A { X = 0; } }", "2 20"),
];

const NAMES: [(&str, &str); 24] = [
    // 4: of 17 bytes
    ("module Abcdefghijklmnopq { X = 0; }", "4 7"),
    ("module A { Abcdefghijklmnopq = 0; }", "4 11"),
    ("module A { X = Abcdefghijklmnopq; }", "4 15"),
    ("module A { X = w.(Abcdefghijklmnopq); }", "4 18"),
    ("module A { X = A1234567890123456; }", "4 15"),
    (
        "module A { X = A1234567890123456789012345678901234567890; }",
        "4 15",
    ),
    // of 16
    ("module Abcdefghijklmnop { X = 0; }", "taken 1 1"),
    ("module A { Abcdefghijklmnop = 0; }", "taken 1 1"),
    (
        "module A { X = A123456789012345; A123456789012345 = 0; }",
        "taken 2 1",
    ),
    // 5: given before
    ("module A { X = 0; X = 0; }", "5 18"),
    ("module A { X = 0; X", "5 18"),
    ("module A { X = 0; Y = 0; X = 0; }", "5 25"),
    ("module A { X = 0; } module A { X = 0; }", "5 27"),
    ("module A { X = 0; } module B { X = 0; } module A", "5 47"),
    // other names: another module's, longer or shorter ones, other letters, a module and an equation
    ("module A { X = 0; } module B { X = 0; }", "taken 2 2"),
    ("module A { X = 0; X1 = 0; XX = 0; Xx = 0; }", "taken 4 1"),
    (
        "module A { Abcdefghijklmnop = 0; Abcdefghijklmnoq = 0; }",
        "taken 2 1",
    ),
    ("module A { A = 0; }", "taken 1 1"),
    // 6: used, and no equation in the module
    ("module A { X = Y; }", "6 18"),
    ("module A { X = A; }", "6 18"),
    ("module A { X = ?1.X1; }", "6 22"),
    ("module A { X = 0; Y = Z; }", "6 25"),
    ("module A { X = 0; } module B { Y = X; }", "6 38"),
    // the equation may stand behind
    ("module A { X = Y; Y = 0; }", "taken 2 1"),
];

// Where several refusals hold: of those at one word the smallest number, and of several words the first.
const FIRST: [(&str, &str); 21] = [
    // a bad port or a long name where none may stand
    ("?", "2 0"),
    ("?32", "2 0"),
    ("Abcdefghijklmnopq", "2 0"),
    ("module ?32 { X = 0; }", "2 7"),
    ("module A Abcdefghijklmnopq", "2 9"),
    ("module A { ?0 = 0; }", "2 11"),
    ("module A { X Abcdefghijklmnopq", "2 13"),
    ("module A { X ?99 0; }", "2 13"),
    ("module A { X = w Abcdefghijklmnopq", "2 17"),
    ("module A { X = 0 !99.0; }", "2 17"),
    ("module A { X = 0 X = 0; }", "2 17"),
    // two words at fault
    ("module A { X = ?0.0; } #", "3 15"),
    ("module A { X = ?#; }", "3 15"),
    ("module A { X = #?0.0; }", "1 15"),
    ("module A { X = 0; X = #; }", "5 18"),
    ("module A { X = Y; } #", "6 18"),
    ("module A { X = Y; } module A { X = 0; }", "6 18"),
    ("module Abcdefghijklmnopq # }", "4 7"),
    // the whole text before its rows
    ("module A { X = X; } #", "1 20"),
    ("module A { X = X; } }", "2 20"),
    ("module A { X = X; } module B { Y = Z; }", "6 38"),
];

// Empty books, and books with no space that could be left out.
const TAKEN: [(&str, &str); 8] = [
    ("", "taken 0 0"),
    ("   ", "taken 0 0"),
    ("\n\n", "taken 0 0"),
    ("module A{X=0;}", "taken 1 1"),
    ("module A{X=0;}module B{Y=w.0;}", "taken 3 2"),
    ("module A{X=i.w.!31.(?1.0+X)+0;}\n", "taken 9 1"),
    ("\n module\nA\n{\nX\n=\n(\n0\n)\n;\n}\n", "taken 1 1"),
    ("module A { X = w . ?7 . i . 0 ; }", "taken 4 1"),
];

#[test]
fn refused(rt: HostRuntime) -> Result<(), Fail> {
    for (text, wanted) in ALIEN
        .iter()
        .chain(&NOT_ALLOWED)
        .chain(&NAMES)
        .chain(&FIRST)
        .chain(&TAKEN)
    {
        let found = told(rt.alloc(), text)?;
        assert_eq!(rt; found.as_str(), *wanted, "{}", text);
    }
    Ok(())
}

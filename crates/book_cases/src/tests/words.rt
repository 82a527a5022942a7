// Which word may stand where, and where a text may end.
use super::told;
use std::test::Fail;

const WORDS: [&str; 16] = [
    "module", "B", "{", "}", "=", "0", "w", "?7", "?", "(", ".", "+", ")", ";", "x", "#",
];

// A beginning of a text, and what each of the words does behind it: `e`, it may stand there, and the text then ends too early; `t`, it
// may stand there, and the text is taken; a digit, it is refused with this number.
const PLACES: [(&str, &str); 10] = [
    ("", "e222222222222221"),
    ("module ", "2e22222222222221"),
    ("module A ", "22e2222222222221"),
    ("module A { ", "2e22222222222221"),
    ("module A { X = 0; ", "2e2t222222222221"),
    ("module A { X ", "2222e22222222221"),
    ("module A { X = ", "2e222eee3e222221"),
    ("module A { X = w ", "2222222222e22221"),
    ("module A { X = 0 ", "22222222222e2e21"),
    ("module A { X = (0 ", "22222222222ee221"),
];

#[test]
fn words(rt: HostRuntime) -> Result<(), Fail> {
    for (begin, answers) in PLACES {
        for (word, answer) in WORDS.iter().zip(answers.chars()) {
            let text = format!(in rt.alloc(); "{begin}{word}")?;
            let at = begin.len();
            let end = text.len();
            let wanted = match answer {
                'e' => format!(in rt.alloc(); "2 {end}")?,
                't' => format!(in rt.alloc(); "taken 1 1")?,
                number => format!(in rt.alloc(); "{number} {at}")?,
            };
            let found = told(rt.alloc(), &text)?;
            assert_eq!(rt; found, wanted, "{}", text);
        }
    }
    Ok(())
}

const BOOK: &str = "module A { X = w.(?1.0 + i.X); } module C { Y = !31.Y; }";

// The book up to each of its bytes. A text that ends inside a module is refused at its end, save where a word is cut that cannot
// stand there so: `module`, or the action behind a `?` or `!`.
#[test]
fn ends(rt: HostRuntime) -> Result<(), Fail> {
    for end in 0..57usize {
        let wanted = match end {
            0 => format!(in rt.alloc(); "taken 0 0")?,
            1..=5 => format!(in rt.alloc(); "2 0")?,
            19 => format!(in rt.alloc(); "3 18")?,
            32 | 33 => format!(in rt.alloc(); "taken 6 1")?,
            34..=38 => format!(in rt.alloc(); "2 33")?,
            49 => format!(in rt.alloc(); "3 48")?,
            56 => format!(in rt.alloc(); "taken 8 2")?,
            _ => format!(in rt.alloc(); "2 {end}")?,
        };
        let text: String = BOOK.chars().take(end).collect(rt.alloc())?;
        let found = told(rt.alloc(), &text)?;
        assert_eq!(rt; found, wanted, "up to {}", end);
    }
    Ok(())
}

// What is shown of a table beside an empty book, and of files at fault.
use super::bytes_of;
use output::{Request, output_text};
use std::test::Fail;

const SHOWN: [(&str, &str); 6] = [
    ("", "maker.tab 11 0\n"),
    ("01 0000", "book.txt: modules 0\nmaker.tab: modules 0\n"),
    (
        "01 0001 0009 0001 0000 0003 0000 00",
        "book.txt: modules 0\nmaker.tab: modules 1\nmodule 0: codes 1, start 0\n0.0: tick 0; urgent -; moves -\n",
    ),
    ("01 0001 0009 0001 0000 0003 ffff 00", "maker.tab 15 11\n"),
    (
        "01 0001 0016 0002 0000 000b ffff 02 00 01 0001 03 00 0000 0003 0001 00",
        "book.txt: modules 0\nmaker.tab: modules 1\nmodule 0: codes 2, start 0\n0.0: tick -; urgent i; moves i>1 ?3>0\n0.1: tick 1; urgent -; moves -\n",
    ),
    (
        "01 0002 0009 0001 0000 0003 0000 00 0015 0001 0000 000f ffff 03 1f 01 0000 00 01 0000 e1 01 0000",
        "book.txt: modules 0\nmaker.tab: modules 2\nmodule 0: codes 1, start 0\n0.0: tick 0; urgent -; moves -\nmodule 1: codes 1, start 0\n1.0: tick -; urgent !31 i ?31; moves ?31>0 i>0 !31>0\n",
    ),
];

#[test]
fn shown(rt: HostRuntime) -> Result<(), Fail> {
    for (hex, text) in SHOWN {
        let bytes = bytes_of(&rt, rt.alloc(), hex)?;
        let found = output_text(rt.alloc(), Request::Modules, Vec::new(rt.alloc()), bytes)?;
        assert_eq!(rt; found.as_str(), text, "{}", hex);
    }
    Ok(())
}

const LENGTHS: [(usize, &str); 2] = [(65_536, "maker.tab 11 0\n"), (65_537, "maker.tab long\n")];

#[test]
fn lengths(rt: HostRuntime) -> Result<(), Fail> {
    for (length, text) in LENGTHS {
        let bytes = vec![in rt.alloc(); 0u8; length]?;
        let found = output_text(rt.alloc(), Request::Modules, Vec::new(rt.alloc()), bytes)?;
        assert_eq!(rt; found.as_str(), text);
    }
    Ok(())
}

// The book is at fault before a table that is: at a word, or at a place of a module.
const BOOKS: [(&str, &str); 4] = [
    ("module A {", "book.txt 2 10\n"),
    ("module A { X = 0; } #", "book.txt 1 20\n"),
    ("module A { X = 0; Y = ?1.0; Z = w.Z; }", "book.txt 8 0 3\n"),
    (
        "module A { X = 0; } module B { X = w.w.w.w.w.w.w.w.w.w.w.w.w.w.w.w.0; }",
        "book.txt 9 1 16\n",
    ),
];

#[test]
fn books(rt: HostRuntime) -> Result<(), Fail> {
    for (book, text) in BOOKS {
        let book = book.as_bytes().to_vec(rt.alloc())?;
        let found = output_text(rt.alloc(), Request::Modules, book, Vec::new(rt.alloc()))?;
        assert_eq!(rt; found.as_str(), text);
    }
    Ok(())
}

// A book of spaces has no module, so the empty table behind it is told.
const BOOK_LENGTHS: [(usize, &str); 2] = [
    (65_536, "maker.tab 11 0\n"),
    (65_537, "book.txt long\n"),
];

#[test]
fn book_lengths(rt: HostRuntime) -> Result<(), Fail> {
    for (length, text) in BOOK_LENGTHS {
        let book = vec![in rt.alloc(); b' '; length]?;
        let found = output_text(rt.alloc(), Request::Modules, book, Vec::new(rt.alloc()))?;
        assert_eq!(rt; found.as_str(), text);
    }
    Ok(())
}

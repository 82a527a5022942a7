// What is printed of swaps in a line of the first modules of the two files.
use output::{Request, output_text};
use std::test::Fail;

// Of a book and a table: a slow module and a fast one and no module of a maker's, a line that has no slot, then files at fault.
const PRINTED: [(&str, &[u8], &str); 6] = [
    (
        "module Slow { S = w.?1.S; } module Fast { F = ?1.F; }",
        &[1, 0, 0],
        "0 0 ok\n0 1 ok\n1 0 25 1\n1 1 ok\n",
    ),
    // the same the other way round: once the fast one is in slot 1, the slow one does not come back
    (
        "module Fast { F = ?1.F; } module Slow { S = w.?1.S; }",
        &[1, 0, 0],
        "0 0 ok\n0 1 25 1\n1 0 ok\n1 1 25 1\n",
    ),
    ("", &[1, 0, 0], "draw 18\n"),
    ("", &[], "maker.tab 11 0\n"),
    ("module A { X = w.X; }", &[], "book.txt 8 0 0\n"),
    (
        "",
        &[1, 0, 1, 0, 9, 0, 1, 0, 0, 0, 3, 255, 255, 0],
        "maker.tab 15 11\n",
    ),
];

#[test]
fn printed(rt: HostRuntime) -> Result<(), Fail> {
    for (book, table, text) in PRINTED {
        let book = book.as_bytes().to_vec(rt.alloc())?;
        let table = table.to_vec(rt.alloc())?;
        let found = output_text(rt.alloc(), Request::Swaps, book, table)?;
        assert_eq!(rt; found.as_str(), text);
    }
    Ok(())
}

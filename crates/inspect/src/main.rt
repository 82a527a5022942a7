// Shows the modules of the book and the maker's table in the working folder: what they mean, or why a file is refused.
#![tactic(auto)]

use files::file_bytes;
use output::{BOOK_NAME, Request, Rows, TABLE_NAME, show};
use report::LONGEST_FILE;
use std::fs::File;

// It prints line by line, since all that is shown of a book can be far more than its text. The files are read as the other programs do; it
// stands in each, since no contract could say what files hold or what is printed.
fn main(rt: HostRuntime) -> anyhow::Result<()> {
    let book = file_bytes(rt.alloc(), File::open(&rt, BOOK_NAME), LONGEST_FILE + 1)?;
    let table = file_bytes(rt.alloc(), File::open(&rt, TABLE_NAME), LONGEST_FILE + 1)?;
    let mut rows = Rows::new(rt.alloc())?;
    let shown = show(rt.alloc(), Request::Modules, &book, table, &mut rows)?;
    print!(rt; "{shown}")?;
    Ok(())
}

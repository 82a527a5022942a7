// Draws a line of the first modules of the book and the maker's table in the working folder, and tries each module in each slot.
#![tactic(auto)]

use files::file_bytes;
use output::{BOOK_NAME, Request, TABLE_NAME, output_text};
use report::LONGEST_FILE;
use std::fs::File;

// The programs read and print alike. It stands in each, since no contract could say what files hold or what is printed.
fn main(rt: HostRuntime) -> anyhow::Result<()> {
    let book = file_bytes(rt.alloc(), File::open(&rt, BOOK_NAME), LONGEST_FILE + 1)?;
    let table = file_bytes(rt.alloc(), File::open(&rt, TABLE_NAME), LONGEST_FILE + 1)?;
    let text = output_text(rt.alloc(), Request::Swaps, book, table)?;
    print!(rt; "{text}")?;
    Ok(())
}

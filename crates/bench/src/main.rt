// Compares the modules of the book and the maker's table in the working folder: every two of them, or the two that are named.
#![tactic(auto)]

use anyhow::anyhow;
use files::file_bytes;
use output::{BOOK_NAME, Request, TABLE_NAME, output_text};
use report::LONGEST_FILE;
use std::env;
use std::fs::File;

const USAGE: &str = "bench takes no arguments, or the numbers of a new and an old module";

// What the arguments ask for.
fn request(rt: &HostRuntime) -> anyhow::Result<Request> {
    let mut words = env::args(rt)?;
    let _program = words.next();
    let Some(new) = words.next() else {
        return Ok(Request::Comparisons);
    };
    let Some(old) = words.next() else {
        return Err(anyhow!(USAGE));
    };
    if words.next().is_some() {
        return Err(anyhow!(USAGE));
    }
    Ok(Request::Comparison(new.parse::<usize>()?, old.parse::<usize>()?))
}

// The programs read and print alike. It stands in each, since no contract could say what files hold or what is printed.
fn main(rt: HostRuntime) -> anyhow::Result<()> {
    let asked = request(&rt)?;
    let book = file_bytes(rt.alloc(), File::open(&rt, BOOK_NAME), LONGEST_FILE + 1)?;
    let table = file_bytes(rt.alloc(), File::open(&rt, TABLE_NAME), LONGEST_FILE + 1)?;
    let text = output_text(rt.alloc(), asked, book, table)?;
    print!(rt; "{text}")?;
    Ok(())
}

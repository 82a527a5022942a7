// What is printed of a catalogue, and of a file that is refused; and which files the programs read.
#![tactic(auto)]

mod words;

pub use words::{ActionText, CatalogueText, catalogue_text, fault_text, long_text, refused_text};

// A file may have this many bytes.
pub const LONGEST_FILE: usize = 65_536;

// The files that the programs read.
pub const BOOK_NAME: &str = "book.txt";

pub const TABLE_NAME: &str = "maker.tab";

// Rows of places: the form in which a book's modules are stored.
#![tactic(auto)]

// The most modules of a book, and the most places of a module.
pub const MOST_MODULES: usize = 64;

pub const MOST_PLACES: usize = 256;

mod fault;
mod row;

pub use fault::RowsFault;
pub use row::{ModuleRow, Place};

// Makers' tables, taken as catalogues.
#![tactic(auto)]

mod index;
mod table;

pub use table::Table;

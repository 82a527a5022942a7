// Reading a book's text into lent rows.
#![tactic(auto)]

mod fault;
mod names;
mod parser;
mod stack;
mod steps;

pub use fault::{BookFault, WordFault};
pub use steps::{Used, read};

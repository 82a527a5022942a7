// The words of a book's text.
#![tactic(auto)]

mod reader;
mod walk;
mod word;

pub use reader::{next_word, same_bytes};
pub use walk::Words;
pub use word::{Found, Word};

// The table that a book keeps.
use rows::{MOST_MODULES, MOST_PLACES};
use trial::Summary;

// The summaries of each module's places. A struct of its own, since no proof is made of a book, which holds references,
// with an array of arrays for a field.
#[derive(Clone, Copy)]
pub struct Table {
    pub rows: [[Summary; MOST_PLACES]; MOST_MODULES],
}

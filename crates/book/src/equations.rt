// The equations of a module.
ghost use Rattle.std.specs.Prelude.{◌≤◌, length};
ghost use Rattle.rows.specs.Opening.{book_places};
ghost use Rattle.book.specs.Keeping.{Known};

use rows::{MOST_PLACES, Place};
use trial::Summary;

// The places of a module that passed every trial, with the summary of each, and the place that it starts in.
#[derive(Drop)]
pub struct Equations<'a> {
    pub places: &'a [Place],
    pub summaries: &'a [Summary; MOST_PLACES],
    pub start: usize,
    ghost few: { length places.now ≤ book_places },
    ghost known: { Known places.now summaries.now },
}

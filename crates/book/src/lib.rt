// Rows opened as a catalogue: the book of modules that a planner wrote.
#![tactic(auto)]

ghost use Rattle.std.specs.Prelude.{◌≡◌};
ghost use Rattle.rows.specs.Opening.{fault};
ghost use Rattle.book.specs.Keeping.{KeepsAll};

use rows::{ModuleRow, Place, RowsFault};
use table::Table;

mod equations;
mod opening;
mod questions;
mod table;
mod walks;

pub use opening::try_rows;

// Rows that are lent, with the verdict on them, and a summary of each place by module and place.
#[derive(Drop)]
pub struct Book<'a> {
    places: &'a [Place],
    modules: &'a [ModuleRow],
    table: Table,
    // beside the table and not a `Result` with it, since opening promises what it is by this field
    verdict: Option<RowsFault>,
    ghost tried: { verdict ≡ fault places.now modules.now },
    ghost kept: { KeepsAll places.now modules.now table.rows verdict },
}

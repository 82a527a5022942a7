// The places of a module that is tried.
ghost use Rattle.std.specs.Prelude.{◌≤◌, length};
ghost use Rattle.rows.specs.Opening.{book_places};

use rows::Place;

// Places of one module, no more than a module may have.
#[derive(Drop)]
pub struct Module<'a> {
    pub places: &'a [Place],
    ghost few: { length places.now ≤ book_places },
}

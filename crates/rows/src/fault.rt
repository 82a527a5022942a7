// What can be wrong with rows.
ghost use Rattle.std.specs.Prelude.{◌≡◌, Some};
ghost use Rattle.rows.specs.Faults.{refusal_number, part_of, place_of};
ghost use Rattle.rows.specs.Texts.{rows_fault_text};

use std::error::Error;
use std::fmt;

// Each case says what is wrong, and where: `part` is the number of the module, `place` that of a place in it.
#[derive(Clone, Copy, Debug, PartialEq, Eq)]
pub enum RowsFault {
    // there are 64 modules before this one
    ManyModules { part: usize },
    // the module has more than 256 places
    ManyPlaces { part: usize },
    // the module's places go beyond the rows that were lent
    BeyondRows { part: usize },
    // the start is no place of the module
    NoStart { part: usize },
    // the place leads to one that is no place of the module
    Outside { part: usize, place: usize },
    // the place has a number for an action that is none
    NoAction { part: usize, place: usize },
    // a walk from the place through waits, sums and names comes back to a place on its way
    Unguarded { part: usize, place: usize },
    // the depth of the place is over 15
    Deep { part: usize, place: usize },
    // the place has more than 64 moves
    ManyMoves { part: usize, place: usize },
}

impl RowsFault {
    // The number of the refusal. Each enum of refusals has such a table of its own, which a trait of them would only name again.
    pub fn number(self) -> u8
        ensures { result ≡ refusal_number self }
    {
        match self {
            RowsFault::ManyModules { .. } => 7,
            RowsFault::ManyPlaces { .. } => 7,
            RowsFault::BeyondRows { .. } => 7,
            RowsFault::NoStart { .. } => 6,
            RowsFault::Outside { .. } => 6,
            RowsFault::NoAction { .. } => 3,
            RowsFault::Unguarded { .. } => 8,
            RowsFault::Deep { .. } => 9,
            RowsFault::ManyMoves { .. } => 10,
        }
    }

    // The number of the module.
    pub fn part(self) -> usize
        ensures { result ≡ part_of self }
    {
        match self {
            RowsFault::ManyModules { part } => part,
            RowsFault::ManyPlaces { part } => part,
            RowsFault::BeyondRows { part } => part,
            RowsFault::NoStart { part } => part,
            RowsFault::Outside { part, .. } => part,
            RowsFault::NoAction { part, .. } => part,
            RowsFault::Unguarded { part, .. } => part,
            RowsFault::Deep { part, .. } => part,
            RowsFault::ManyMoves { part, .. } => part,
        }
    }

    // The number of the place, as the output tells it: 0 where the fault is none of a place.
    pub fn place(self) -> usize
        ensures { result ≡ place_of self }
    {
        match self {
            RowsFault::Outside { place, .. } => place,
            RowsFault::NoAction { place, .. } => place,
            RowsFault::Unguarded { place, .. } => place,
            RowsFault::Deep { place, .. } => place,
            RowsFault::ManyMoves { place, .. } => place,
            _ => 0,
        }
    }
}

// The number of the refusal, the module and the place.
impl fmt::Display for RowsFault {
    ghost output = { λ e. Some (rows_fault_text e) };

    fn fmt<W: fmt::Write>(&self, f: &mut fmt::Formatter<W>) -> fmt::Result {
        let number = self.number();
        let part = self.part();
        let place = self.place();
        write!(f, "{number} {part} {place}")
    }
}

impl Error for RowsFault {}

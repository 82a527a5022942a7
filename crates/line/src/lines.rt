// A line as it is held: its modules, their renamings, and the ports that are hidden. It asks for no memory.
ghost use Rattle.std.specs.Prelude.{◌≡◌, ◌≤◌, false, length, pos};
ghost use Rattle.action.specs.Sets.{has};

use action::ActionSet;
use renaming::Renaming;

mod asking;
mod drawing;
mod swapping;
mod timing;

pub use drawing::{SlotPlan, draw};

// The most slots of a line.
pub const MOST_SLOTS: usize = 16;

// A module, by its number in the catalogue, and how it is wired to the line.
#[derive(Clone, Copy)]
struct Slot {
    holds: usize,
    renaming: Renaming,
}

// The slots stand in an array with their count, since a line is `Copy`, which a vector is not.
#[derive(Clone, Copy)]
pub struct Line {
    slots: [Slot; MOST_SLOTS],
    // how many of them are in use
    count: usize,
    // the hidden ports
    hidden: ActionSet,
    ghost whole: { length slots ≡ 16 },
    ghost some: { 1 ≤ count },
    ghost few: { count ≤ 16 },
    ghost unhidden: { has hidden (pos 0) ≡ false },
}

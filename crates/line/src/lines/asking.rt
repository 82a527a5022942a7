// What a line tells of itself.
ghost use Rattle.std.specs.Prelude.{◌≡◌, length};
ghost use Rattle.std.specs.List.{slice_get};
ghost use Rattle.std.specs.Option.{option_map};
ghost use Rattle.action.specs.Lists.{nth};
ghost use Rattle.line_rules.specs.Line.{holds_of};
ghost use Rattle.line.specs.Meaning.{in_use, line_of};

use super::{Line, Slot};

impl Line {
    // The slots that are in use.
    pub(super) fn held(&self) -> &[Slot]
        ensures { result.now ≡ in_use self.now }
    {
        &self.slots[..self.count]
    }

    // The slot with a number.
    pub(super) fn slot(&self, number: usize) -> Option<Slot>
        ensures { result ≡ slice_get (in_use self.now) number }
    {
        self.held().get(number).copied()
    }

    // How many slots the line has.
    pub fn slots(&self) -> usize
        ensures { result ≡ length (line_of self.now).slots }
    {
        self.count
    }

    // The number of the module in a slot.
    pub fn module_in(&self, slot: usize) -> Option<usize>
        ensures { result ≡ option_map holds_of (nth (line_of self.now).slots slot) }
    {
        self.slot(slot).map(|slot| slot.holds)
    }
}

// What the places of a module have, each from the places that it leads to: such a walk ends, since the places are guarded.
ghost use Rattle.std.specs.Prelude.{◌≡◌, ◌<◌, length};
ghost use Rattle.action.specs.Lists.{nth};
ghost use Rattle.rows.specs.Places.{urgent_of, moves_of};

use super::equations::Equations;
use action::ActionSet;
use catalogue::Move;
use rows::Place;

impl Equations<'_> {
    // The urgent set of a place at an age. A place without moves has none; what is below it need not be walked.
    #[cycle(urgent_at)]
    pub(crate) fn urgent_at(&self, place: usize, age: u32) -> ActionSet
        requires { place < length self.now.places.now }
        ensures { result ≡ urgent_of self.now.places.now place age }
    {
        if self.summaries[place].moves == 0 {
            return ActionSet::empty();
        }
        self.urgent_below(place, age)
    }

    // The same by the walk. It stands apart so that a place without moves is told before a register is saved.
    #[cycle(urgent_at)]
    #[inline(never)]
    fn urgent_below(&self, place: usize, age: u32) -> ActionSet
        requires { place < length self.now.places.now }
        ensures { result ≡ urgent_of self.now.places.now place age }
    {
        match self.places[place] {
            Place::Nil => ActionSet::empty(),
            Place::Act(action, _) => ActionSet::only(action),
            Place::Wait(_) if age == 0 => ActionSet::empty(),
            Place::Wait(j) => self.urgent_at(j as usize, age - 1),
            Place::Sum(l, r) => {
                let left = self.urgent_at(l as usize, age);
                left.union(self.urgent_at(r as usize, age))
            }
            Place::Name(j) => self.urgent_at(j as usize, age),
        }
    }

    // The move of a place with a number. The number of moves on the left tells the side of a sum.
    pub(crate) fn move_at(&self, place: usize, number: usize) -> Option<Move>
        requires { place < length self.now.places.now }
        ensures { result ≡ nth (moves_of self.now.places.now place) number }
    {
        match self.places[place] {
            Place::Nil => None,
            Place::Act(action, j) => (number == 0).then_some(Move {
                action,
                target: 16 * j as u32,
            }),
            Place::Wait(j) | Place::Name(j) => self.move_at(j as usize, number),
            Place::Sum(l, r) => {
                let before = self.summaries[l as usize].moves as usize;
                if number < before {
                    self.move_at(l as usize, number)
                } else {
                    self.move_at(r as usize, number - before)
                }
            }
        }
    }
}

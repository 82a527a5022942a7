// The moves of the two states of a pair, read into memory that is used again for each pair.
ghost use Rattle.std.specs.Prelude.{◌≡◌, ◌≤◌, List, [], take};
ghost use Rattle.catalogue.specs.declared.Move.{Move};
ghost use Rattle.catalogue.specs.Catalogue.{most_moves, state};

use crate::part::Part;
use catalogue::{Catalogue, MOST_MOVES, Move, Moves};
use std::marker::Model;

// The moves of a state, in their order. An `ArrayVec` blanks what it drops: with it the comparison of modules with one move a
// state took a fifth longer.
#[derive(Drop)]
pub(crate) struct MoveList {
    all: [Move; MOST_MOVES],
    count: usize,
}

impl Model for MoveList {
    ghost Value = { List Move };

    ghost view = { λ l. take l.count l.all };

    ghost invariant = { λ l. l.count ≤ most_moves };
}

impl MoveList {
    fn none() -> MoveList
        ensures { result ≡ [] }
    {
        MoveList {
            all: [Move::default(); MOST_MOVES],
            count: 0,
        }
    }

    pub(crate) fn as_slice(&self) -> &[Move]
        ensures { result.now ≡ self.now }
    {
        &self.all[..self.count]
    }

    // Takes in the moves of a state, in place of those that it held.
    pub(crate) fn read<C: Catalogue>(&mut self, part: &Part<C>, code: u32)
        ensures { self.new ≡ (state part.now code).moves }
    {
        // By number, since a walk over `iter_mut` tells nothing of what it writes.
        let mut count = 0;
        for step in Moves::of(part.catalogue, part.number, code) {
            self.all[count] = step;
            count += 1;
        }
        self.count = count;
    }
}

// The moves of the two states of a pair. Apart from `Modules`, which are only read, so that no contract has to say that these
// stay.
#[derive(Drop)]
pub(crate) struct PairMoves {
    pub(crate) news: MoveList,
    pub(crate) olds: MoveList,
}

impl PairMoves {
    pub(crate) fn none() -> PairMoves {
        PairMoves {
            news: MoveList::none(),
            olds: MoveList::none(),
        }
    }
}

// A walk over the moves of a state.
ghost use Rattle.std.specs.Prelude.{◌≡◌, length};
ghost use Rattle.std.specs.Iterator.{at_most};
ghost use Rattle.action.specs.Iterating.{Comes};
ghost use Rattle.catalogue.specs.Catalogue.{state_in};
ghost use Rattle.catalogue.specs.Walking.{moves_to_come};

use super::{Catalogue, Move};

#[derive(Drop)]
pub struct Moves<'a, C> {
    catalogue: &'a C,
    part: usize,
    code: u32,
    // the number of the move that comes next
    number: usize,
}

impl<'a, C: Catalogue> Moves<'a, C> {
    // The moves of a state of a module, in their order. The module and the code are what each question of a catalogue takes.
    pub fn of(catalogue: &'a C, part: usize, code: u32) -> Moves<'a, C>
        ensures { moves_to_come C.Catalogue.meaning result ≡ (state_in (C.Catalogue.meaning catalogue.now) part code).moves }
    {
        Moves {
            catalogue,
            part,
            code,
            number: 0,
        }
    }
}

impl<C: Catalogue> Iterator for Moves<'_, C> {
    type Item = Move;

    ghost next_gives = { λ s r t. Comes (moves_to_come C.Catalogue.meaning s) r (moves_to_come C.Catalogue.meaning t) };

    ghost remaining = { λ s. at_most (length (moves_to_come C.Catalogue.meaning s)) };

    fn next(&mut self) -> Option<Move> {
        let step = self.catalogue.move_at(self.part, self.code, self.number)?;
        self.number += 1;
        Some(step)
    }
}

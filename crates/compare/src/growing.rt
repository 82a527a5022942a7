// Adding pairs to the rows that are filled.
ghost use Rattle.std.specs.Prelude.{[], ◌∷◌};
ghost use Rattle.action.specs.Lists.{each};
ghost use Rattle.pair_table.specs.Pairs.{most_rows, pair, added, alike, by_moves, both_tick, leads_to, explored};
ghost use Rattle.compare.specs.Rows.{pair_of};
ghost use Rattle.compare.specs.Growth.{Grows, pairs_in};

use crate::filled::Filled;
use crate::modules::Modules;
use crate::moves::PairMoves;
use catalogue::{Catalogue, Move};
use pair_table::{CompareFault, MOST_ROWS, PairRow};

impl<'a> Filled<'a> {
    // Adds a pair unless it is there already, or refuses where there is no room.
    pub(crate) fn admit(&mut self, new: u32, old: u32) -> Result<(), CompareFault>
        ensures { Grows self.old self.new (added (pairs_in self.old) (pair new old ∷ [])) result }
    {
        if self.find(new, old).is_some() {
            return Ok(());
        }
        if self.count >= self.rows.len() || self.count >= MOST_ROWS {
            return Err(CompareFault::TableTooSmall);
        }
        self.rows[self.count] = PairRow { new, old, rank: 0 };
        self.index.link(self.count, new, old);
        self.count += 1;
        Ok(())
    }

    // Adds the pairs of one move of the new state with the moves of the old state by the same action.
    fn admit_alike(&mut self, a: Move, olds: &[Move]) -> Result<(), CompareFault>
        ensures { Grows self.old self.new (added (pairs_in self.old) (each (alike a) olds.now)) result }
    {
        for b in olds {
            if a.action == b.action {
                self.admit(a.target, b.target)?;
            }
        }
        Ok(())
    }

    // Adds the pairs of each move of the new state in order.
    fn admit_moves(&mut self, news: &[Move], olds: &[Move]) -> Result<(), CompareFault>
        ensures { Grows self.old self.new (added (pairs_in self.old) (by_moves news.now olds.now)) result }
    {
        for a in news {
            self.admit_alike(*a, olds)?;
        }
        Ok(())
    }

    // Adds the pair of the tick targets where both tick.
    fn admit_ticks(&mut self, new: Option<u32>, old: Option<u32>) -> Result<(), CompareFault>
        ensures { Grows self.old self.new (added (pairs_in self.old) (both_tick new old)) result }
    {
        match new.zip(old) {
            Some((p, q)) => self.admit(p, q),
            None => Ok(()),
        }
    }

    // Adds what one row leads to.
    fn expand<C: Catalogue>(
        &mut self,
        modules: &Modules<C>,
        moves: &mut PairMoves,
        held: PairRow,
    ) -> Result<(), CompareFault>
        ensures { Grows self.old self.new (added (pairs_in self.old) (leads_to modules.now.new modules.now.old (pair_of held))) result }
    {
        modules.moves(held, moves);
        self.admit_moves(moves.news.as_slice(), moves.olds.as_slice())?;
        self.admit_ticks(modules.new.tick(held.new), modules.old.tick(held.old))
    }

    // Adds what each row leads to, from the first row on, until none is left.
    pub(crate) fn explore<C: Catalogue>(
        &mut self,
        modules: &Modules<C>,
        moves: &mut PairMoves,
    ) -> Result<(), CompareFault>
        ensures { Grows self.old self.new (explored modules.now.new modules.now.old most_rows 0 (pairs_in self.old)) result }
    {
        // A count, since each turn may add rows that later turns read.
        let mut at = 0;
        while at < self.count {
            let held = self.rows[at];
            self.expand(modules, moves, held)?;
            at += 1;
        }
        Ok(())
    }
}

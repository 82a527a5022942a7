// Lowering the ranks of the rows until they are those of the rounds.
ghost use Rattle.std.specs.Prelude.{◌≡◌, ℕ, ◌<◌};
ghost use Rattle.pair_table.specs.Laws.{row};
ghost use Rattle.pair_table.specs.Rounds.{rank as rank_in};
ghost use Rattle.compare.specs.Rows.{pair_of};
ghost use Rattle.compare.specs.Growth.{pairs_in};
ghost use Rattle.compare.specs.Ranks.{Alike, DoneTo, Fair, Swept};

use crate::filled::Filled;
use crate::modules::Modules;
use crate::moves::PairMoves;
use catalogue::Catalogue;
use pair_table::PairRow;

impl<'a> Filled<'a> {
    // Lowers the rank of each row to what the ranks of the others ask, from the last row to the first; the least rank that was
    // given. A row's successors mostly stand behind it, so one sweep settles a whole chain. The rounds up to `done` are done with:
    // a rank that is no greater is final, and its row is passed over.
    fn sweep<C: Catalogue>(
        &mut self,
        modules: &Modules<C>,
        moves: &mut PairMoves,
        done: u32,
    ) -> Option<u32>
        requires fair { Fair modules.now.new modules.now.old (pairs_in self.old) self.old.rows.now self.old.count }
        requires done { DoneTo modules.now.new modules.now.old (pairs_in self.old) self.old.rows.now self.old.count done }
        ensures same_reference { self.new.rows.ghost_name ≡ self.old.rows.ghost_name }
        ensures same_count { self.new.count ≡ self.old.count }
        ensures swept { Swept modules.now.new modules.now.old (pairs_in self.old) self.old.rows.now self.new.rows.now self.old.count done 0 result }
    {
        let mut least: Option<u32> = None;
        // By number, since the whole table is read to find what a row's rank becomes.
        for i in (0..self.count).rev() {
            let held = self.rows[i];
            if held.rank > 0 && held.rank <= done {
                continue;
            }
            let rank = self.drop_round(modules, moves, held, done);
            if rank != held.rank {
                self.rows[i] = PairRow { rank, ..held };
                least = Some(rank.min(least.unwrap_or(rank)));
            }
        }
        least
    }

    // Sweeps until no rank is given: a sweep is done with the rounds up to the least rank that it gave. Part of `compare`, so that the fields of the rows stay in registers.
    #[inline]
    pub(crate) fn settle<C: Catalogue>(&mut self, modules: &Modules<C>, moves: &mut PairMoves)
        requires { Fair modules.now.new modules.now.old (pairs_in self.old) self.old.rows.now self.old.count }
        ensures same_reference { self.new.rows.ghost_name ≡ self.old.rows.ghost_name }
        ensures same_count { self.new.count ≡ self.old.count }
        ensures alike { Alike self.old.rows.now self.new.rows.now self.old.count }
        ensures ranked { (i : ℕ) → i < self.old.count → (row self.new.rows.now i).rank ≡ rank_in modules.now.new modules.now.old (pairs_in self.old) (pair_of (row self.new.rows.now i)) }
    {
        let mut done: u32 = 0;
        while let Some(least) = self.sweep(modules, moves, done) {
            done = least;
        }
    }
}

// What the ranks of the rows ask of the rank of one row.
ghost use Rattle.std.specs.Prelude.{◌≡◌, ℕ, ◌<◌, MatchBool, MatchOption};
ghost use Rattle.pair_table.specs.Laws.{row};
ghost use Rattle.compare.specs.declared.ranking.Side.{Side};
ghost use Rattle.compare.specs.Rows.{Is, Absent};
ghost use Rattle.compare.specs.Ranks.{Hurries, Judged, JudgedAll, JudgedRow, JudgedTick, Lasts, Leaves, PartnerBy};

use crate::filled::Filled;
use crate::modules::Modules;
use crate::moves::PairMoves;
use catalogue::{Catalogue, Move};
use pair_table::PairRow;

// Of which module a move is. A value, since both sides go through the functions below, and differ in `partner_rank` alone.
#[derive(Clone, Copy, Debug, PartialEq, Eq)]
enum Side {
    New,
    Old,
}

// Whether a partner of rank `rank` is there until the round `limit`. 0 stands for no round, as in the rows that are lent and
// printed.
fn outlasts(rank: u32, limit: u32) -> bool
    ensures { MatchBool result (Lasts rank limit) (Leaves rank limit) }
{
    rank == 0 || (limit > 0 && limit - 1 <= rank)
}

impl<'a> Filled<'a> {
    // The rank of the row that holds a pair.
    fn rank_of(&self, new: u32, old: u32) -> Option<u32>
        ensures { MatchOption result (Absent self.now.rows.now self.now.count new old) (λ x. (j : ℕ) × ((j < self.now.count) × (Is self.now.rows.now j new old × ((row self.now.rows.now j).rank ≡ x)))) }
    {
        let at = self.find(new, old)?;
        Some(self.rows[at].rank)
    }

    // The rank of the pair of a move of one side with a move of the other, where they are by the same action.
    fn partner_rank(&self, side: Side, a: Move, b: Move) -> Option<u32>
        ensures { MatchOption result ((j : ℕ) → PartnerBy self.now.rows.now self.now.count side a b j → ⊥) (λ x. (j : ℕ) × (PartnerBy self.now.rows.now self.now.count side a b j × ((row self.now.rows.now j).rank ≡ x))) }
    {
        if a.action != b.action {
            return None;
        }
        match side {
            Side::New => self.rank_of(a.target, b.target),
            Side::Old => self.rank_of(b.target, a.target),
        }
    }

    // The round at which a move has lost its partners, if it comes before `limit`; else `limit`. What is asked stands in this
    // function and the next alone, with one move and with many, so it is no struct.
    fn unmatched(&self, side: Side, a: Move, others: &[Move], limit: u32) -> u32
        ensures { Judged self.now.rows.now self.now.count side a others.now limit result }
    {
        let mut last = 0;
        for b in others {
            if let Some(rank) = self.partner_rank(side, a, *b) {
                if outlasts(rank, limit) {
                    return limit;
                }
                last = rank.max(last);
            }
        }
        last + 1
    }

    // The first such round over the moves of a state.
    fn unmatched_any(&self, side: Side, mine: &[Move], others: &[Move], limit: u32) -> u32
        ensures { JudgedAll self.now.rows.now self.now.count side mine.now mine.now others.now limit result }
    {
        let mut first = limit;
        for a in mine {
            first = self.unmatched(side, *a, others, first);
        }
        first
    }

    // The round at which the tick clause fails, if it comes before the row's own rank; else that rank. `done` says how many rounds
    // were done with before the sweep: where there were some, what of the clause no rank can alter was tried by an earlier sweep.
    fn tick_unmatched<C: Catalogue>(&self, modules: &Modules<C>, held: PairRow, done: u32) -> u32
        requires own { (i : ℕ) × ((i < self.now.count) × (row self.now.rows.now i ≡ held)) }
        requires hurries { 0 < done → Hurries modules.now.new modules.now.old held.new held.old }
        ensures { JudgedTick modules.now.new modules.now.old self.now.rows.now self.now.count held.new held.old held.rank result }
    {
        let Some(p) = modules.new.tick(held.new) else {
            return held.rank;
        };
        let Some(q) = modules.old.tick(held.old) else {
            return 1;
        };
        if done == 0 && !modules.hurries(held) {
            return 1;
        }
        // Most ticks lead back to the pair itself.
        if p == held.new && q == held.old {
            return held.rank;
        }
        let Some(rank) = self.rank_of(p, q) else {
            return 1;
        };
        if outlasts(rank, held.rank) {
            held.rank
        } else {
            rank + 1
        }
    }

    // The round that drops a row, as the ranks of the others have it, if it comes before its own rank; else its rank.
    pub(crate) fn drop_round<C: Catalogue>(
        &self,
        modules: &Modules<C>,
        moves: &mut PairMoves,
        held: PairRow,
        done: u32,
    ) -> u32
        requires own { (i : ℕ) × ((i < self.now.count) × (row self.now.rows.now i ≡ held)) }
        requires hurries { 0 < done → Hurries modules.now.new modules.now.old held.new held.old }
        ensures { JudgedRow modules.now.new modules.now.old self.now.rows.now self.now.count held.new held.old held.rank result }
    {
        let tick = self.tick_unmatched(modules, held, done);
        modules.moves(held, moves);
        let news = moves.news.as_slice();
        let olds = moves.olds.as_slice();
        let forth = self.unmatched_any(Side::New, news, olds, tick);
        // Two lone moves ask for the same pair, whichever side asks.
        if news.len() == 1 && olds.len() == 1 {
            return forth;
        }
        self.unmatched_any(Side::Old, olds, news, forth)
    }
}

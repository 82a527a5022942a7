// Putting another module into a slot.
ghost use Rattle.std.specs.Prelude.{◌≡◌, length};
ghost use Rattle.line_rules.specs.Swapping.{asked, swap_answer, swap_table, swapped, NoSwapSlows};
ghost use Rattle.line.specs.Meaning.{line_of};

use super::{Line, Slot};
use catalogue::Catalogue;
use compare::compare;
use line_rules::SwapFault;
use pair_table::PairRow;

impl Line {
    // Puts the module `new` into a slot if it does what the one that stands there does and is never slower: the pair count,
    // or a refusal. A refused swap leaves the line as it stood. Whatever line was drawn from this catalogue, and whatever
    // swaps led to the line as it is handed over, it is left no slower than as drawn, and never comes to a stand. The slot, the
    // new module and the lent table come from the caller, each on its own, so they are no struct.
    pub fn swap<C: Catalogue>(
        &mut self,
        catalogue: &C,
        slot: usize,
        new: usize,
        table: &mut [PairRow],
    ) -> Result<usize, SwapFault>
        ensures answer { result ≡ swap_answer (C.Catalogue.meaning catalogue.now) (line_of self.old) (asked slot new (length table.old)) }
        ensures line { line_of self.new ≡ swapped (C.Catalogue.meaning catalogue.now) (line_of self.old) (asked slot new (length table.old)) }
        ensures table { table.new ≡ swap_table (C.Catalogue.meaning catalogue.now) (line_of self.old) slot new table.old }
        ensures promise { NoSwapSlows (C.Catalogue.meaning catalogue.now) (line_of self.old) (line_of self.new) }
    {
        let was = self.slot(slot).ok_or(SwapFault::UnknownSlot)?;
        let verdict = compare(catalogue, new, was.holds, table)?;
        if verdict.rank != 0 {
            return Err(SwapFault::Slower(verdict.rank));
        }
        self.slots[slot] = Slot { holds: new, ..was };
        Ok(verdict.pairs)
    }
}

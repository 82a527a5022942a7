// The rows of a table that are filled so far, with the index of their pairs.
ghost use Rattle.std.specs.Prelude.{◌≡◌, ◌<◌, MatchOption};
ghost use Rattle.compare.specs.Rows.{Is, Absent};
ghost use Rattle.compare.specs.Indexed.{Indexed};
ghost use Rattle.compare.specs.Ranks.{Modest};

use crate::index::{Index, linked};
use pair_table::PairRow;

#[derive(Drop)]
pub(crate) struct Filled<'a> {
    pub(crate) rows: &'a mut [PairRow],
    pub(crate) index: &'a mut Index,
    pub(crate) count: usize,
    ghost indexed: { Indexed index.now rows.now count },
    // one more fits each rank
    ghost modest: { Modest rows.now count },
}

impl<'a> Filled<'a> {
    // No rows yet.
    pub(crate) fn none(rows: &'a mut [PairRow], index: &'a mut Index) -> Filled<'a>
        requires { Indexed index.old rows.old 0 }
        ensures same_reference { result.rows.ghost_name ≡ rows.entry.ghost_name }
        ensures rows { result.rows.now ≡ rows.old }
        ensures count { result.count ≡ 0 }
    {
        Filled {
            rows,
            index,
            count: 0,
        }
    }

    // The row that holds a pair.
    // Two codes, as each move and tick has one of them: a struct would be made and taken apart at each call.
    pub(crate) fn find(&self, new: u32, old: u32) -> Option<usize>
        ensures { MatchOption result (Absent self.now.rows.now self.now.count new old) (λ i. (i < self.now.count) × Is self.now.rows.now i new old) }
    {
        // A view of its own, since an array that lies behind two references cannot be read in place.
        let index: &Index = self.index;
        let mut link = index.heads[index.bucket(new, old)];
        if index.exact && index.is_alone(new, old) {
            return linked(link);
        }
        while let Some(row) = linked(link) {
            let held = self.rows[row];
            if held.new == new && held.old == old {
                return Some(row);
            }
            link = index.next[row];
        }
        None
    }
}

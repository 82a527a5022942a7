// Where the rows stand, by the pairs that they hold.
ghost use Rattle.std.specs.Prelude.{◌≡◌, ◌+◌, ◌<◌, true, List, MatchBool, slice_index, slice_set};
ghost use Rattle.pair_table.specs.declared.PairRow.{PairRow};
ghost use Rattle.pair_table.specs.Pairs.{most_rows};
ghost use Rattle.compare.specs.Indexed.{Alone, Indexed, spread_of, slot_of, bucket_of, row_at};

use pair_table::MOST_ROWS;

// For each bucket the last row in it, and for each row the last one before it in the same bucket, each as one more than the
// row's number, 0 where there is none. So a walk along a bucket falls, and ends. Arrays, since comparing asks for no memory, and
// of numbers, since a link `Option<u16>` takes twice the room: an index was made in 7 us in place of 3, where the comparison of
// two modules of a few states takes 6.
#[derive(Drop)]
pub(crate) struct Index {
    pub(crate) heads: [u16; MOST_ROWS],
    pub(crate) next: [u16; MOST_ROWS],
    // how many slots apart neighbouring new states lie
    pub(crate) spread: u32,
    // whether each row is alone in its bucket, so that its pair need not be looked at
    pub(crate) exact: bool,
}

// How many slots apart neighbouring new states should lie: where the table has room for each pair of states, each gets a bucket
// of its own.
pub(crate) fn spread(news: u32, olds: u32) -> u32
    ensures { result ≡ spread_of news olds }
{
    if u64::from(news) * u64::from(olds) > MOST_ROWS as u64 {
        181
    } else {
        olds
    }
}

// The row that a link leads to.
pub(crate) fn linked(link: u16) -> Option<usize>
    ensures { result ≡ row_at link }
{
    link.checked_sub(1).map(usize::from)
}

impl Index {
    // The index of no rows.
    pub(crate) fn empty(spread: u32) -> Index
        ensures { (rows : List PairRow) → Indexed result rows 0 }
    {
        Index {
            heads: [0; MOST_ROWS],
            next: [0; MOST_ROWS],
            spread,
            exact: true,
        }
    }

    // The slot of a pair: old states that are neighbours lie in neighbouring slots.
    fn slot(&self, new: u32, old: u32) -> u64
        ensures { result ≡ slot_of self.now.spread new old }
    {
        u64::from(new) * u64::from(self.spread) + u64::from(old)
    }

    pub(crate) fn bucket(&self, new: u32, old: u32) -> usize
        ensures is { result ≡ bucket_of self.now.spread new old }
        ensures bound { result < most_rows }
    {
        (self.slot(new, old) % MOST_ROWS as u64) as usize
    }

    // Whether a pair shares its bucket with no other such pair.
    pub(crate) fn is_alone(&self, new: u32, old: u32) -> bool
        ensures { MatchBool result (Alone self.now.spread new old) (Alone self.now.spread new old → ⊥) }
    {
        old < self.spread && self.slot(new, old) < MOST_ROWS as u64
    }

    // Links a row that holds a pair as the last in its bucket.
    pub(crate) fn link(&mut self, row: usize, new: u32, old: u32)
        requires { row < most_rows }
        ensures heads { self.new.heads ≡ slice_set self.old.heads (bucket_of self.old.spread new old) (row + 1) }
        ensures next { self.new.next ≡ slice_set self.old.next row (slice_index self.old.heads (bucket_of self.old.spread new old)) }
        ensures spread { self.new.spread ≡ self.old.spread }
        ensures exact { self.new.exact ≡ true → (self.old.exact ≡ true) × Alone self.old.spread new old }
    {
        let head = self.bucket(new, old);
        self.next[row] = self.heads[head];
        self.heads[head] = (row + 1) as u16;
        self.exact = self.exact && self.is_alone(new, old);
    }
}

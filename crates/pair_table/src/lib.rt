// The pair table of two modules: its rows, what a comparison answers, and why it refuses.
#![tactic(auto)]

ghost use Rattle.std.specs.Prelude.{◌≡◌, Some};
ghost use Rattle.pair_table.specs.Tables.{refusal_number};
ghost use Rattle.pair_table.specs.Texts.{compare_fault_text, row_text};

use std::error::Error;
use std::fmt;

// The most rows of a table that are ever filled.
pub const MOST_ROWS: usize = 32_768;

// A pair of a new and an old state, and the first round that drops it. Where none does that is 0 and no Option: the number is
// printed, and the lent rows are plain numbers.
#[derive(Clone, Copy, Debug, Default, PartialEq, Eq)]
pub struct PairRow {
    pub new: u32,
    pub old: u32,
    pub rank: u32,
}

// How many pairs there are, and the rank of the pair of starts.
#[derive(Clone, Copy, Debug, PartialEq, Eq)]
pub struct Compared {
    pub pairs: usize,
    pub rank: u32,
}

// Why two modules are not compared.
#[derive(Clone, Copy, Debug, PartialEq, Eq)]
pub enum CompareFault {
    UnknownOld,
    UnknownNew,
    TableTooSmall,
}

impl CompareFault {
    // The number of the refusal. Each enum of refusals has such a table of its own, which a trait of them would only name again.
    pub fn number(self) -> u8
        ensures { result ≡ refusal_number self }
    {
        match self {
            CompareFault::UnknownOld => 22,
            CompareFault::UnknownNew => 23,
            CompareFault::TableTooSmall => 24,
        }
    }
}

// The new state, the old one, and the rank.
impl fmt::Display for PairRow {
    ghost output = { λ r. Some (row_text r) };

    fn fmt<W: fmt::Write>(&self, f: &mut fmt::Formatter<W>) -> fmt::Result {
        let PairRow { new, old, rank } = *self;
        write!(f, "{new} {old} {rank}")
    }
}

// The number of the refusal.
impl fmt::Display for CompareFault {
    ghost output = { λ e. Some (compare_fault_text e) };

    fn fmt<W: fmt::Write>(&self, f: &mut fmt::Formatter<W>) -> fmt::Result {
        let number = self.number();
        write!(f, "{number}")
    }
}

impl Error for CompareFault {}

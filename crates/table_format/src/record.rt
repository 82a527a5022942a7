// The record of a state, as it lies in a table's bytes: its length, its tick, how many moves it has, and four bytes for each
// of them.
ghost use Rattle.std.specs.Prelude.{◌≡◌, ◌+◌};
ghost use Rattle.table_format.specs.Numbers.{byte, pair};
ghost use Rattle.table_format.specs.Reading.{entries, tick_of, Whole};

use super::number::NO_TICK;

#[derive(Clone, Copy)]
pub struct StateRecord<'a> {
    pub bytes: &'a [u8],
    // the offset of its first byte
    pub at: usize,
    ghost whole: { Whole bytes.now at },
}

impl<'a> StateRecord<'a> {
    // The code that a tick leads to. The two bytes are there, so no Option is asked for as by `pair_at`.
    pub fn tick(self) -> Option<u16>
        ensures { result ≡ tick_of (pair self.entry.bytes.now (self.entry.at + 2)) }
    {
        let tick = u16::from_be_bytes([self.bytes[self.at + 2], self.bytes[self.at + 3]]);
        (tick != NO_TICK).then_some(tick)
    }

    // The bytes of its moves: of each the action, the mark, and the target in two bytes.
    pub fn moves(self) -> &'a [[u8; 4]]
        ensures { result.now ≡ entries self.entry.bytes.now (byte self.entry.bytes.now (self.entry.at + 4)) (self.entry.at + 5) }
    {
        let from = self.at + 5;
        let count = self.bytes[self.at + 4] as usize;
        let (moves, _) = self.bytes[from..from + 4 * count].as_chunks();
        moves
    }
}

// The questions to a table: each finds its record by the offsets that were listed when the table was taken.
ghost use Rattle.std.specs.Prelude.{◌≡◌, map, Some, None, MatchOption};
ghost use Rattle.action.specs.Sets.{set_of};
ghost use Rattle.table_format.specs.Records.{marked};
ghost use Rattle.table_format.specs.Reading.{entry_record, meaning as meaning_of};
ghost use Rattle.table_format.proofs.Taken.{taken_lawful};
ghost use Rattle.maker_table.specs.Index.{state_offset};
ghost use Rattle.maker_table.specs.Table.{written};

use super::Table;
use action::ActionSet;
use catalogue::{Catalogue, Move};
use table_format::{StateRecord, action_of, pair_at};

// The actions of the moves that are marked urgent. A loop, since a chain that ends in a set would be no shorter.
fn marked_actions(moves: &[[u8; 4]]) -> ActionSet
    ensures { result ≡ set_of (marked (map entry_record moves.now)) }
{
    let mut set = ActionSet::empty();
    for [action, mark, ..] in moves {
        if *mark == 1 {
            set.insert(action_of(*action));
        }
    }
    set
}

impl Table {
    // The record of a state.
    fn state_at(&self, part: usize, code: u32) -> Option<StateRecord<'_>>
        ensures { MatchOption result (state_offset (written self.now) part code ≡ None) (λ r. (r.bytes.now ≡ written self.now) × (state_offset (written self.now) part code ≡ Some r.at)) }
    {
        let place = self.modules.get(part)?;
        let at = place.states.get(code as usize)?;
        Some(StateRecord {
            bytes: self.bytes.as_slice(),
            at: *at as usize,
        })
    }
}

impl Catalogue for Table {
    ghost meaning = { λ t. meaning_of (written t) };

    ghost lawful = { λ t. taken_lawful (written t) t.fine };

    fn modules(&self) -> usize {
        self.modules.len()
    }

    fn codes(&self, part: usize) -> Option<u32> {
        let place = self.modules.get(part)?;
        Some(place.states.len() as u32)
    }

    fn start(&self, part: usize) -> Option<u32> {
        let place = self.modules.get(part)?;
        Some(pair_at(self.bytes.as_slice(), place.at as usize + 4)?.into())
    }

    fn move_at(&self, part: usize, code: u32, number: usize) -> Option<Move> {
        let moves = self.state_at(part, code)?.moves();
        let [action, _, high, low] = *moves.get(number)?;
        Some(Move {
            action: action_of(action),
            target: u16::from_be_bytes([high, low]).into(),
        })
    }

    fn urgent(&self, part: usize, code: u32) -> ActionSet {
        match self.state_at(part, code) {
            Some(state) => marked_actions(state.moves()),
            None => ActionSet::empty(),
        }
    }

    fn tick(&self, part: usize, code: u32) -> Option<u32> {
        Some(self.state_at(part, code)?.tick()?.into())
    }
}

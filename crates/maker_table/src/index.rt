// Where the records of a table lie in its bytes.
ghost use Rattle.std.specs.Prelude.{◌≡◌, ◌^◌, ◌<◌, map, length, None, IfOk};
ghost use Rattle.table_format.specs.Reading.{offsets};
ghost use Rattle.table_format.specs.Taking.{fault};
ghost use Rattle.maker_table.specs.Index.{places, shown, Lengths};

use std::alloc::{AllocError, Global};
use table_format::{after, pair_at};

// Where a module and its states lie.
#[derive(Drop)]
pub struct ModulePlace {
    // the offset of its record, and those of its states' records
    pub at: u32,
    pub states: Vec<u32>,
}

// The offsets of so many records, which stand one after the other from an offset on.
fn offsets(heap: Global, bytes: &[u8], count: u16, from: usize) -> Result<Vec<u32>, AllocError>
    requires in_bytes { Lengths bytes.now count from }
    requires short { length bytes.now < 2 ^ 32 }
    ensures { IfOk result (λ found. found.items ≡ offsets bytes.now count from) }
{
    let mut found = Vec::with_capacity(heap, count as usize)?;
    let mut at = from;
    // Each offset comes from the one before, so there is nothing to go over but how many there are.
    for _ in 0..count {
        found.push(at as u32)?;
        at = after(bytes, at).unwrap();
    }
    Ok(found)
}

// The places of all modules of a table without a fault.
pub(crate) fn places(heap: Global, bytes: &[u8]) -> Result<Vec<ModulePlace>, AllocError>
    requires { fault bytes.now ≡ None }
    ensures { IfOk result (λ found. map shown found.items ≡ places bytes.now) }
{
    let modules = offsets(heap, bytes, pair_at(bytes, 1).unwrap(), 3)?;
    let mut found = Vec::new(heap);
    for at in &modules {
        let codes = pair_at(bytes, *at as usize + 2).unwrap();
        let states = offsets(heap, bytes, codes, *at as usize + 6)?;
        found.push(ModulePlace { at: *at, states })?;
    }
    Ok(found)
}

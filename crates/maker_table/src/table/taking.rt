// Taking a table. The bytes are tried first, so that want of memory can only come where nothing is wrong with them.
ghost use Rattle.table_format.specs.Law.{LawOf};
ghost use Rattle.maker_table.specs.Table.{Answered};

use super::super::index::places;
use super::Table;
use std::alloc::Global;
use table_format::{TableFault, try_table};

impl Table {
    // Takes the bytes of a maker's file, or tells what is wrong with them.
    pub fn take(heap: Global, bytes: Vec<u8>) -> Result<Table, TableFault>
        ensures answer { Answered bytes.items result }
        ensures law { LawOf bytes.items }
    {
        try_table(bytes.as_slice())?;
        let modules = places(heap, bytes.as_slice())?;
        Ok(Table { bytes, modules })
    }
}

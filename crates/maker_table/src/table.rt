// A maker's table that was taken: its bytes, and where the records lie in them, so that a question walks over none.
ghost use Rattle.std.specs.Prelude.{◌≡◌, true, map};
ghost use Rattle.table_format.specs.Taking.{taken};
ghost use Rattle.maker_table.specs.Index.{places, shown};

use super::index::ModulePlace;

mod asking;
mod taking;

#[derive(Drop)]
pub struct Table {
    bytes: Vec<u8>,
    modules: Vec<ModulePlace>,
    ghost fine: { taken bytes.items ≡ true },
    ghost placed: { map shown modules.items ≡ places bytes.items },
}

// The two modules that are compared.
ghost use Rattle.std.specs.Prelude.{◌≡◌};
ghost use Rattle.action.specs.Sets.{within};
ghost use Rattle.catalogue.specs.Catalogue.{module_in, state};

use crate::moves::PairMoves;
use crate::part::Part;
use catalogue::Catalogue;
use pair_table::PairRow;

// A new module and an old one.
#[derive(Drop)]
pub(crate) struct Modules<'a, C: Catalogue> {
    pub(crate) new: Part<'a, C>,
    pub(crate) old: Part<'a, C>,
}

impl<'a, C: Catalogue> Modules<'a, C> {
    pub(crate) fn of(catalogue: &'a C, new: usize, old: usize) -> Modules<'a, C>
        ensures new { result.new ≡ module_in (C.Catalogue.meaning catalogue.now) new }
        ensures old { result.old ≡ module_in (C.Catalogue.meaning catalogue.now) old }
    {
        Modules {
            new: Part {
                catalogue,
                number: new,
            },
            old: Part {
                catalogue,
                number: old,
            },
        }
    }

    // Whether every urgent action of the old state of a pair is urgent in the new one.
    pub(crate) fn hurries(&self, held: PairRow) -> bool
        ensures { result ≡ within (state self.now.old held.old).urgent (state self.now.new held.new).urgent }
    {
        let asked = self.old.urgent(held.old);
        asked.is_subset(self.new.urgent(held.new))
    }

    // Reads the moves of the two states of a pair. With the two lists as a result, the comparison of modules with one move a
    // state took three times as long.
    pub(crate) fn moves(&self, held: PairRow, into: &mut PairMoves)
        ensures news { into.new.news ≡ (state self.now.new held.new).moves }
        ensures olds { into.new.olds ≡ (state self.now.old held.old).moves }
    {
        into.news.read(&self.new, held.new);
        into.olds.read(&self.old, held.old);
    }
}

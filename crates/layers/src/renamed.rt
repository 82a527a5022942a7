// A catalogue with one renaming applied to every action.
ghost use Rattle.std.specs.Prelude.{◌≡◌};
ghost use Rattle.catalogue.specs.Layers.{renamed_catalogue};
ghost use Rattle.catalogue.proofs.Layers.{renamed_lawful};
ghost use Rattle.layers.specs.Meanings.{renamed_meaning};

use action::ActionSet;
use catalogue::{Catalogue, Move};
use renaming::Renaming;

#[derive(Drop)]
pub struct Renamed<C> {
    inner: C,
    renaming: Renaming,
}

impl<C: Catalogue> Renamed<C> {
    // Applies the renaming to every action of the catalogue.
    pub fn new(inner: C, renaming: Renaming) -> Renamed<C>
        ensures { renamed_meaning C.Catalogue.meaning result ≡ renamed_catalogue renaming.entries (C.Catalogue.meaning inner) }
    {
        Renamed { inner, renaming }
    }
}

impl<C: Catalogue> Catalogue for Renamed<C> {
    ghost meaning = { renamed_meaning C.Catalogue.meaning };

    ghost lawful = { λ c. renamed_lawful c.renaming.entries c.renaming.full (C.Catalogue.meaning c.inner) (C.Catalogue.lawful c.inner) };

    fn modules(&self) -> usize {
        self.inner.modules()
    }

    fn codes(&self, part: usize) -> Option<u32> {
        self.inner.codes(part)
    }

    fn start(&self, part: usize) -> Option<u32> {
        self.inner.start(part)
    }

    fn move_at(&self, part: usize, code: u32, number: usize) -> Option<Move> {
        let found = self.inner.move_at(part, code, number)?;
        Some(Move {
            action: self.renaming.apply(found.action),
            target: found.target,
        })
    }

    fn urgent(&self, part: usize, code: u32) -> ActionSet {
        self.renaming.image(self.inner.urgent(part, code))
    }

    fn tick(&self, part: usize, code: u32) -> Option<u32> {
        self.inner.tick(part, code)
    }
}

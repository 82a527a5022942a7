// One module of a catalogue, and what it does in a state.
ghost use Rattle.std.specs.Prelude.{◌≡◌};
ghost use Rattle.catalogue.specs.Catalogue.{Module, module_in, state};

use action::ActionSet;
use catalogue::Catalogue;
use std::marker::Model;

#[derive(Drop)]
pub(crate) struct Part<'a, C: Catalogue> {
    pub(crate) catalogue: &'a C,
    pub(crate) number: usize,
}

impl<'a, C: Catalogue> Model for Part<'a, C> {
    ghost Value = { Module };

    ghost view = { λ p. module_in (C.Catalogue.meaning p.catalogue.now) p.number };
}

impl<'a, C: Catalogue> Part<'a, C> {
    pub(crate) fn urgent(&self, code: u32) -> ActionSet
        ensures { result ≡ (state self.now code).urgent }
    {
        self.catalogue.urgent(self.number, code)
    }

    pub(crate) fn tick(&self, code: u32) -> Option<u32>
        ensures { result ≡ (state self.now code).tick }
    {
        self.catalogue.tick(self.number, code)
    }
}

// Two catalogues as one: the modules of the front, then those of the back, as many as a catalogue may have.
ghost use Rattle.std.specs.Prelude.{◌≡◌};
ghost use Rattle.catalogue.specs.Layers.{joined};
ghost use Rattle.catalogue.proofs.Layers.{joined_lawful};
ghost use Rattle.layers.specs.Meanings.{joined_meaning};
ghost use Rattle.layers.specs.Places.{Placed};

use action::ActionSet;
use catalogue::{Catalogue, MOST_MODULES, Move};

#[derive(Drop)]
pub struct Joined<A, B> {
    front: A,
    back: B,
}

// Where a module of a join is found, and with which number there.
#[derive(Clone, Copy, Debug, PartialEq, Eq)]
enum Place {
    Front(usize),
    Back(usize),
}

impl<A: Catalogue, B: Catalogue> Joined<A, B> {
    // Puts the second catalogue behind the first.
    pub fn new(front: A, back: B) -> Joined<A, B>
        ensures means { joined_meaning A.Catalogue.meaning B.Catalogue.meaning result ≡ joined (A.Catalogue.meaning front) (B.Catalogue.meaning back) }
        ensures front { A.Catalogue.meaning result.front ≡ A.Catalogue.meaning front }
        ensures back { B.Catalogue.meaning result.back ≡ B.Catalogue.meaning back }
    {
        Joined { front, back }
    }

    // The catalogue in front.
    pub fn front(&self) -> &A
        ensures { result.now ≡ self.now.front }
    {
        &self.front
    }

    // The place of a module, if it is there.
    fn place(&self, part: usize) -> Option<Place>
        ensures { Placed (A.Catalogue.meaning self.now.front) (B.Catalogue.meaning self.now.back) part result }
    {
        if part >= MOST_MODULES {
            return None;
        }
        let front = self.front.modules();
        if part < front {
            Some(Place::Front(part))
        } else {
            Some(Place::Back(part - front))
        }
    }
}

// The questions stand one by one: the two catalogues have different types, so a function for all would take two closures
// for each.
impl<A: Catalogue, B: Catalogue> Catalogue for Joined<A, B> {
    ghost meaning = { joined_meaning A.Catalogue.meaning B.Catalogue.meaning };

    ghost lawful = { λ c. joined_lawful (A.Catalogue.meaning c.front) (B.Catalogue.meaning c.back) (A.Catalogue.lawful c.front) (B.Catalogue.lawful c.back) };

    fn modules(&self) -> usize {
        (self.front.modules() + self.back.modules()).min(MOST_MODULES)
    }

    fn codes(&self, part: usize) -> Option<u32> {
        match self.place(part)? {
            Place::Front(number) => self.front.codes(number),
            Place::Back(number) => self.back.codes(number),
        }
    }

    fn start(&self, part: usize) -> Option<u32> {
        match self.place(part)? {
            Place::Front(number) => self.front.start(number),
            Place::Back(number) => self.back.start(number),
        }
    }

    fn move_at(&self, part: usize, code: u32, number: usize) -> Option<Move> {
        match self.place(part)? {
            Place::Front(at) => self.front.move_at(at, code, number),
            Place::Back(at) => self.back.move_at(at, code, number),
        }
    }

    fn urgent(&self, part: usize, code: u32) -> ActionSet {
        match self.place(part) {
            Some(Place::Front(number)) => self.front.urgent(number, code),
            Some(Place::Back(number)) => self.back.urgent(number, code),
            None => ActionSet::empty(),
        }
    }

    fn tick(&self, part: usize, code: u32) -> Option<u32> {
        match self.place(part)? {
            Place::Front(number) => self.front.tick(number, code),
            Place::Back(number) => self.back.tick(number, code),
        }
    }
}

// The questions to a book, each of one module.
ghost use Rattle.std.specs.Prelude.{◌≡◌, ◌*◌, ◌/◌, ◌%◌, nat_lt, length};
ghost use Rattle.std.specs.Bool.{then_some};
ghost use Rattle.action.specs.Lists.{nth};
ghost use Rattle.rows.specs.Opening.{opened};
ghost use Rattle.rows.proofs.Rules.{books_lawful};
ghost use Rattle.book.specs.Asking.{Found, state_with};

use super::Book;
use super::equations::Equations;
use action::ActionSet;
use catalogue::{Catalogue, Move};

impl Equations<'_> {
    // The place and the age of a code, where the module has it.
    fn site(&self, code: u32) -> Option<(usize, u32)>
        ensures { result ≡ then_some (nat_lt (code / 16) (length self.now.places.now)) (code / 16, code % 16) }
    {
        let place = code as usize / 16;
        (place < self.places.len()).then_some((place, code % 16))
    }

    // What the module has in a code.
    fn urgent(&self, code: u32) -> ActionSet
        ensures { result ≡ (state_with self.now.places.now code).urgent }
    {
        match self.site(code) {
            Some((place, age)) => self.urgent_at(place, age),
            None => ActionSet::empty(),
        }
    }

    fn nth_move(&self, code: u32, number: usize) -> Option<Move>
        ensures { result ≡ nth (state_with self.now.places.now code).moves number }
    {
        let (place, _) = self.site(code)?;
        if number >= self.summaries[place].moves as usize {
            return None;
        }
        self.move_at(place, number)
    }

    fn tick(&self, code: u32) -> Option<u32>
        ensures { result ≡ (state_with self.now.places.now code).tick }
    {
        let (place, age) = self.site(code)?;
        if self.urgent_at(place, age).contains(0) {
            return None;
        }
        if age < self.summaries[place].depth as u32 {
            Some(code + 1)
        } else {
            Some(code)
        }
    }
}

impl Book<'_> {
    // The equations of a module, where the book has it.
    fn equations(&self, part: usize) -> Option<Equations<'_>>
        ensures { Found self.now.places.now self.now.modules.now part result }
    {
        if self.verdict.is_some() {
            return None;
        }
        let row = *self.modules.get(part)?;
        let table = &self.table;
        Some(Equations {
            places: &self.places[row.first..row.first + row.places],
            summaries: &table.rows[part],
            start: row.start,
        })
    }
}

impl<'a> Catalogue for Book<'a> {
    ghost meaning = { λ b. opened b.places.now b.modules.now };

    ghost lawful = { λ b. books_lawful b.places.now b.modules.now };

    fn modules(&self) -> usize {
        if self.verdict.is_some() {
            return 0;
        }
        self.modules.len()
    }

    fn codes(&self, part: usize) -> Option<u32> {
        let equations = self.equations(part)?;
        Some(16 * equations.places.len() as u32)
    }

    fn start(&self, part: usize) -> Option<u32> {
        let equations = self.equations(part)?;
        Some(16 * equations.start as u32)
    }

    fn move_at(&self, part: usize, code: u32, number: usize) -> Option<Move> {
        self.equations(part)?.nth_move(code, number)
    }

    fn urgent(&self, part: usize, code: u32) -> ActionSet {
        match self.equations(part) {
            Some(equations) => equations.urgent(code),
            None => ActionSet::empty(),
        }
    }

    fn tick(&self, part: usize, code: u32) -> Option<u32> {
        self.equations(part)?.tick(code)
    }
}

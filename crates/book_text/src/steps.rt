// What each word does.
ghost use Rattle.std.specs.Prelude.{◌≡◌, ℕ, List, ◌+◌, ◌≤◌, true, false, [], ◌∷◌, ◌++◌, map, length, MatchResult};
ghost use Rattle.book_words.specs.Words.Kind.{begins, opens, closes, ends, nil, bad, leave};
ghost use Rattle.book_text.specs.declared.fault.BookFault.TheVariants.{NotAllowed, TooMany};
ghost use Rattle.book_text.specs.declared.parser.State.TheVariants.{Term};
ghost use Rattle.book_text.specs.Parsers.{row_in, rows_in, side_in, view};
ghost use Rattle.book_text.specs.Stacks.{waiting_on};
ghost use Rattle.book_text.specs.Changes.{is_at, Fits, TooManyRows, Finishes, Passes, Opens};
ghost use Rattle.book_text.specs.Settling.{settled_row, Settles};
ghost use Rattle.book_text.specs.Steps.{Blank, Steady, Leads, DoesName, DoesAny, DoesModule, DoesRowsAny};

use crate::fault::{BookFault, WordFault};
use crate::names::{add, find, no_longer, part};
use crate::parser::{Open, Parser, Span, State};
use rows::{MOST_MODULES, MOST_PLACES, ModuleRow, Place};

mod reading;

pub use reading::{Used, read};

// The rows are lent to each step. With them in a field, every contract would have to say besides that they are still the
// caller's.
impl Parser {
    fn new() -> Parser
        ensures { Blank result }
    {
        Parser::default()
    }

    // A word is allowed in one state.
    fn expect(&self, wanted: State) -> Result<(), BookFault>
        ensures { MatchResult result (λ _. is_at self.now.state wanted ≡ true) (λ f. (is_at self.now.state wanted ≡ false) × (f ≡ NotAllowed self.now.at)) }
    {
        if self.state == wanted {
            Ok(())
        } else {
            Err(BookFault::NotAllowed(self.at))
        }
    }

    // A word that only leads from one state to the next.
    fn go_on(&mut self, wanted: State, next: State) -> Result<(), BookFault>
        ensures { Passes self.old wanted next self.old.at self.new result }
    {
        self.expect(wanted)?;
        self.state = next;
        Ok(())
    }

    // A word behind which a term must follow.
    fn open(&mut self, wanted: State, op: Open, next: State) -> Result<(), BookFault>
        ensures { Opens self.old wanted op next self.old.at self.new result }
    {
        self.expect(wanted)?;
        self.stack.push(op);
        self.state = next;
        Ok(())
    }

    // Whether the module at hand can have so many rows more.
    fn room(&self, more: usize, lent: usize) -> Result<(), BookFault>
        ensures { MatchResult result (λ _. Fits (self.now.rows + more) self.now.first lent) (λ f. (f ≡ TooMany self.now.at) × TooManyRows (self.now.rows + more) self.now.first lent) }
    {
        let first = self.first;
        let all = usize::from(self.rows).saturating_add(more);
        if all > MOST_PLACES || first > lent || all > lent - first {
            return Err(BookFault::TooMany(self.at));
        }
        Ok(())
    }

    // A term whose newest place is the last is complete, and with it what waits for it.
    fn finish(&mut self, places: &mut [Place]) -> Result<(), BookFault>
        ensures { Finishes self.old self.old.stack places.old (rows_in self.old.first self.old.rows places.old) self.old.at self.new places.new (self.old.rows + waiting_on self.old.stack) result }
    {
        let low = self.stack.floor();
        let waiting = self.stack.pending.saturating_sub(low);
        self.room(waiting, places.len())?;
        self.rows = self.complete(low, places);
        self.stack.pending = low;
        self.state = State::After;
        Ok(())
    }

    fn add_leaf(&mut self, places: &mut [Place], leaf: Place) -> Result<(), BookFault>
        ensures { Finishes self.old self.old.stack places.old (rows_in self.old.first self.old.rows places.old ++ leaf ∷ []) self.old.at self.new places.new (self.old.rows + 1 + waiting_on self.old.stack) result }
    {
        self.room(1, places.len())?;
        places[self.first + usize::from(self.rows)] = leaf;
        self.rows += 1;
        self.finish(places)
    }

    // `module`
    fn on_module(&mut self, lent: usize) -> Result<(), BookFault>
        ensures { DoesModule lent self.old begins self.old.at self.new result }
    {
        self.expect(State::Outside)?;
        if self.titles.len() >= lent.min(MOST_MODULES) {
            return Err(BookFault::TooMany(self.at));
        }
        self.state = State::Title;
        Ok(())
    }

    // A name as a term.
    fn on_call(&mut self, places: &mut [Place], x: &[u8]) -> Result<(), BookFault>
        requires { self.old.state ≡ Term }
        ensures { (text : List ℕ) → DoesName text self.old places.old x.now self.old.at self.new places.new result }
    {
        no_longer(x, self.at)?;
        let row = usize::from(self.rows);
        if row >= MOST_PLACES {
            return Err(BookFault::TooMany(self.at));
        }
        self.names[row] = Span {
            at: self.at,
            size: x.len(),
        };
        self.add_leaf(places, Place::Name(0))
    }

    fn on_name(&mut self, text: &[u8], places: &mut [Place], x: &[u8]) -> Result<(), BookFault>
        ensures { DoesName text.now self.old places.old x.now self.old.at self.new places.new result }
    {
        match self.state {
            State::Title => {
                add(&mut self.titles, text, x, self.at)?;
                self.state = State::Brace;
                Ok(())
            }
            State::Left => {
                add(&mut self.lefts, text, x, self.at)?;
                self.state = State::Equal;
                Ok(())
            }
            State::Term => self.on_call(places, x),
            _ => Err(BookFault::NotAllowed(self.at)),
        }
    }

    // `0`
    fn on_nil(&mut self, places: &mut [Place]) -> Result<(), BookFault>
        ensures { DoesRowsAny self.old places.old nil self.old.at self.new places.new result }
    {
        self.expect(State::Term)?;
        self.add_leaf(places, Place::Nil)
    }

    // `(`
    fn on_opens(&mut self) -> Result<(), BookFault>
        ensures { DoesAny self.old opens self.old.at self.new result }
    {
        self.expect(State::Term)?;
        if self.stack.floors.is_full() {
            return Err(BookFault::TooMany(self.at));
        }
        self.stack.floors.push(self.stack.pending);
        Ok(())
    }

    // `)`
    fn on_closes(&mut self, places: &mut [Place]) -> Result<(), BookFault>
        ensures { DoesRowsAny self.old places.old closes self.old.at self.new places.new result }
    {
        self.expect(State::After)?;
        self.stack
            .floors
            .pop()
            .ok_or(BookFault::NotAllowed(self.at))?;
        self.finish(places)
    }

    // `;`
    fn on_ends(&mut self) -> Result<(), BookFault>
        ensures { DoesAny self.old ends self.old.at self.new result }
    {
        self.expect(State::After)?;
        if !self.stack.floors.is_empty() {
            return Err(BookFault::NotAllowed(self.at));
        }
        let last = self.lefts.len().saturating_sub(1);
        let label = self
            .lefts
            .get_mut(last)
            .ok_or(BookFault::NotAllowed(self.at))?;
        label.place = self.rows.saturating_sub(1);
        self.state = State::Left;
        Ok(())
    }

    // A `?` or `!` with no port.
    fn on_bad(&self) -> Result<(), BookFault>
        ensures { DoesAny self.now bad self.now.at self.now result }
    {
        self.expect(State::Term)?;
        Err(BookFault::Word(WordFault::Port(self.at)))
    }

    // A place once all left sides are known; a name leads to the right side of its equation, and there is no such place where
    // it has none.
    fn settled(&self, text: &[u8], span: Span, place: Place) -> Option<Place>
        ensures { result ≡ settled_row (map (side_in text.now) self.now.lefts.items) (row_in text.now span place) }
    {
        let Place::Name(_) = place else {
            return Some(place);
        };
        let label = find(text, self.lefts.as_slice(), part(text, span))?;
        Some(Place::Name(label.place))
    }

    // Leads every name of the module to its right side, unless one has no equation.
    fn settle(&self, text: &[u8], places: &mut [Place]) -> Result<(), BookFault>
        requires few { self.now.rows ≤ 256 }
        requires room { self.now.first + self.now.rows ≤ length places.old }
        ensures { Settles text.now self.now places.old self.now.at places.new result }
    {
        let first = self.first;
        // The places by number: a walk over `iter_mut` tells nothing of what it writes.
        for (i, span) in self.names[..usize::from(self.rows)].iter().enumerate() {
            let place = self
                .settled(text, *span, places[first + i])
                .ok_or(BookFault::NoEquation(self.at))?;
            places[first + i] = place;
        }
        Ok(())
    }

    // `}`
    fn on_leave(
        &mut self,
        text: &[u8],
        places: &mut [Place],
        modules: &mut [ModuleRow],
    ) -> Result<(), BookFault>
        requires { Steady self.old.at self.old (length places.old) (length modules.old) }
        ensures { Leads (length places.old) (length modules.old) (length text.now) (view text.now self.old places.old modules.old) leave self.old.at (view text.now self.new places.new modules.new) self.new result }
    {
        self.expect(State::Left)?;
        let start = self.lefts.first().ok_or(BookFault::NotAllowed(self.at))?;
        let start = usize::from(start.place);
        self.settle(text, places)?;
        modules[self.done] = ModuleRow {
            first: self.first,
            places: usize::from(self.rows),
            start,
        };
        self.done += 1;
        self.first += usize::from(self.rows);
        self.rows = 0;
        self.lefts.clear();
        self.state = State::Outside;
        Ok(())
    }
}

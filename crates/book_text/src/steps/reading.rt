// Reading a text, word by word.
ghost use Rattle.std.specs.Prelude.{◌+◌, ◌-◌, ◌^◌, ◌<◌, length, take, drop};
ghost use Rattle.book_words.specs.Shown.{kind_of, Spells};
ghost use Rattle.book_text.specs.Parsers.{view};
ghost use Rattle.book_text.specs.Steps.{Steady, Leads};
ghost use Rattle.book_grammar.specs.Examples.{Worked};
ghost use Rattle.book_text.specs.Cases.{WorkedOut};
ghost use Rattle.book_text.specs.Promises.{Promises};
ghost use Rattle.book_text.specs.Outcomes.{ReadsWords, ReadsRows, Reads};

use crate::fault::{BookFault, WordFault};
use crate::parser::{Open, Parser, State};
use book::try_rows;
use book_words::{Found, Word, Words};
use rows::{ModuleRow, Place};

// How many rows a reading used.
#[derive(Clone, Copy, Debug, PartialEq, Eq)]
pub struct Used {
    pub places: usize,
    pub modules: usize,
}

impl Parser {
    // What a word does; the smallest number that holds refuses it. The text and the rows are lent to each step: with them in a
    // field, every contract would have to say besides that they are still the caller's.
    fn step(
        &mut self,
        text: &[u8],
        found: Found<'_>,
        places: &mut [Place],
        modules: &mut [ModuleRow],
    ) -> Result<(), BookFault>
        requires steady { Steady found.at self.old (length places.old) (length modules.old) }
        requires fits { found.at + 1 < 2 ^ 64 }
        requires spells { Spells (take (found.end - found.at) (drop found.at text.now)) found.word }
        ensures { Leads (length places.old) (length modules.old) (length text.now) (view text.now self.old places.old modules.old) (kind_of found.entry.word) found.entry.at (view text.now self.new places.new modules.new) self.new result }
    {
        self.at = found.at;
        match found.word {
            Word::Alien => Err(BookFault::Word(WordFault::Alien(self.at))),
            Word::Other => Err(BookFault::NotAllowed(self.at)),
            Word::Bad => self.on_bad(),
            Word::Module => self.on_module(modules.len()),
            Word::Name(x) => self.on_name(text, places, x),
            Word::Enter => self.go_on(State::Brace, State::Left),
            Word::Leave => self.on_leave(text, places, modules),
            Word::Equals => self.go_on(State::Equal, State::Term),
            Word::Dot => self.go_on(State::Point, State::Term),
            Word::Nil => self.on_nil(places),
            Word::Wait => self.open(State::Term, Open::Waiting, State::Point),
            Word::Act(a) => self.open(State::Term, Open::Acting(a), State::Point),
            Word::Plus => {
                let sum = Open::Adding(self.rows.saturating_sub(1));
                self.open(State::After, sum, State::Term)
            }
            Word::Opens => self.on_opens(),
            Word::Closes => self.on_closes(places),
            Word::Ends => self.on_ends(),
        }
    }
}

// Reads the words into the rows.
fn read_words(
    text: &[u8],
    places: &mut [Place],
    modules: &mut [ModuleRow],
) -> Result<Used, BookFault>
    ensures { ReadsWords text.now places.old modules.old places.new modules.new result }
{
    let mut parser = Parser::new();
    for found in Words::of(text) {
        parser.step(text, found, places, modules)?;
    }
    parser.at = text.len();
    parser.expect(State::Outside)?;
    Ok(Used {
        places: parser.first,
        modules: parser.done,
    })
}

// Reads the words into the rows, and then tries the rows as opening does.
fn read_rows(
    text: &[u8],
    places: &mut [Place],
    modules: &mut [ModuleRow],
) -> Result<Used, BookFault>
    ensures { ReadsRows text.now places.old modules.old places.new modules.new result }
{
    let used = read_words(text, places, modules)?;
    try_rows(&places[..used.places], &modules[..used.modules])?;
    Ok(used)
}

// Reads a text into lent rows. The rows that it does not use are zeroed, and all rows where it is refused.
pub fn read(text: &[u8], places: &mut [Place], modules: &mut [ModuleRow]) -> Result<Used, BookFault>
    ensures result { Reads text.now places.old modules.old places.new modules.new result }
    ensures grammar { Promises text.now places.old modules.old places.new modules.new result }
    ensures words { Worked }
    ensures rows { WorkedOut }
{
    match read_rows(text, places, modules) {
        Ok(used) => {
            places[used.places..].fill(Place::Nil);
            modules[used.modules..].fill(ModuleRow::default());
            Ok(used)
        }
        Err(fault) => {
            places.fill(Place::Nil);
            modules.fill(ModuleRow::default());
            Err(fault)
        }
    }
}

// What can be wrong with a book's text. Most cases hold the offset of the word that is at fault.

ghost use Rattle.std.specs.Prelude.{◌≡◌, Some};
ghost use Rattle.book_text.specs.declared.fault.BookFault.TheVariants.{Word, Rows};
ghost use Rattle.book_text.specs.Faults.{number_of};
ghost use Rattle.book_text.specs.Texts.{word_fault_text, book_fault_text};

use rows::RowsFault;
use std::error::Error;
use std::fmt;

// What is wrong with a word by itself.
#[derive(Clone, Copy, Debug, PartialEq, Eq)]
pub enum WordFault {
    // a byte outside the alphabet
    Alien(usize),
    // a `?` or `!` with no port
    Port(usize),
    // a name that is too long
    Long(usize),
}

// What is wrong with a book.
#[derive(Clone, Copy, Debug, PartialEq, Eq)]
pub enum BookFault {
    Word(WordFault),
    // a word that may not stand there, or the end of the text
    NotAllowed(usize),
    // a module's name or a left side that was given before
    GivenBefore(usize),
    // at a closing brace: a name of the module has no equation
    NoEquation(usize),
    // more modules, equations, places or open parentheses than can be taken
    TooMany(usize),
    // all words were taken, and the rows that they make cannot be opened
    Rows(RowsFault),
}

// By hand: a derived conversion has no contract, and clauses name the error that `?` makes.
impl From<WordFault> for BookFault {
    ghost from_gives = { λ e r. r ≡ Word e };

    fn from(e: WordFault) -> BookFault {
        BookFault::Word(e)
    }
}

// By hand: a derived conversion has no contract, and clauses name the error that `?` makes.
impl From<RowsFault> for BookFault {
    ghost from_gives = { λ e r. r ≡ Rows e };

    fn from(e: RowsFault) -> BookFault {
        BookFault::Rows(e)
    }
}

impl WordFault {
    // The number of the refusal. Each enum of refusals has such a table of its own, which a trait of them would only name again.
    pub fn number(self) -> u8
        ensures { result ≡ number_of (Word self) }
    {
        match self {
            WordFault::Alien(_) => 1,
            WordFault::Port(_) => 3,
            WordFault::Long(_) => 4,
        }
    }
}

impl BookFault {
    // The number of the refusal. Each enum of refusals has such a table of its own, which a trait of them would only name again.
    pub fn number(self) -> u8
        ensures { result ≡ number_of self }
    {
        match self {
            BookFault::Word(fault) => fault.number(),
            BookFault::NotAllowed(_) => 2,
            BookFault::GivenBefore(_) => 5,
            BookFault::NoEquation(_) => 6,
            BookFault::TooMany(_) => 7,
            BookFault::Rows(fault) => fault.number(),
        }
    }
}

// The number of the refusal, and the offset of the word.
impl fmt::Display for WordFault {
    ghost output = { λ e. Some (word_fault_text e) };

    fn fmt<W: fmt::Write>(&self, f: &mut fmt::Formatter<W>) -> fmt::Result {
        let number = self.number();
        match self {
            WordFault::Alien(at) | WordFault::Port(at) | WordFault::Long(at) => {
                write!(f, "{number} {at}")
            }
        }
    }
}

// The number of the refusal, and where it points: an offset of the text, or a module and a place.
impl fmt::Display for BookFault {
    ghost output = { λ e. Some (book_fault_text e) };

    fn fmt<W: fmt::Write>(&self, f: &mut fmt::Formatter<W>) -> fmt::Result {
        let number = self.number();
        match self {
            BookFault::Word(fault) => write!(f, "{fault}"),
            BookFault::NotAllowed(at)
            | BookFault::GivenBefore(at)
            | BookFault::NoEquation(at)
            | BookFault::TooMany(at) => write!(f, "{number} {at}"),
            BookFault::Rows(fault) => write!(f, "{fault}"),
        }
    }
}

impl Error for WordFault {}

impl Error for BookFault {}

// What a reading keeps beside the lent rows, all of it bounded.

use arrayvec::ArrayVec;
use rows::{MOST_MODULES, MOST_PLACES};

// The most equations of a module.
pub const MOST_EQUATIONS: usize = 64;

// The most parentheses that are open at once.
pub const MOST_PARENTHESES: usize = 32;

// The most letters of a name.
pub const MOST_LETTERS: usize = 16;

// The states of the automaton, each named by what comes next: a module or the end, a module's name, its `{`, a left side or
// the `}`, the `=`, a term, the `.` of a prefix; the last is behind a term.
#[derive(Clone, Copy, Debug, Default, PartialEq, Eq)]
pub enum State {
    #[default]
    Outside,
    Title,
    Brace,
    Left,
    Equal,
    Term,
    Point,
    After,
}

// What waits for the term that follows it: a wait, an action, a sum that has its left place.
#[derive(Clone, Copy, Debug, Default, PartialEq, Eq)]
pub enum Open {
    #[default]
    Waiting,
    Acting(i8),
    Adding(u16),
}

// A name, by where it stands in the text. Slices are covered too, but with offsets a parser borrows nothing and has no lifetime,
// and all its names are read from the one text that a step is lent.
#[derive(Clone, Copy, Default)]
pub struct Span {
    pub at: usize,
    pub size: usize,
}

// A name that was given, and the place of its right side: 0 where that is not known yet, and for a module's name. An Option
// is no plainer: a place is only looked up behind the closing brace, where each has one.
#[derive(Clone, Copy, Default)]
pub struct Label {
    pub name: Span,
    pub place: u16,
}

// What is open in a right side. `pending` prefixes and sums wait for a term; of those beyond the most places only the number
// is kept, since a module that has them is refused whatever they are. Each open parenthesis has how many waited around it.
#[derive(Default, Drop)]
pub struct Stack {
    // no list with its length: `pending` goes on counting where `ops` is full
    pub ops: [Open; MOST_PLACES],
    pub pending: usize,
    pub floors: ArrayVec<usize, MOST_PARENTHESES>,
}

// A reading: the module at hand has `rows` places from row `first` on, and `lefts` has its left sides. `titles` has the names
// of the modules that have one, and `done` modules have a row.
#[derive(Default, Drop)]
pub struct Parser {
    pub state: State,
    // where the word at hand stands in the text
    pub at: usize,
    pub stack: Stack,
    pub first: usize,
    pub rows: u16,
    // where the name of a row stands that is one; the lent rows have no room for that
    pub names: [Span; MOST_PLACES],
    pub lefts: ArrayVec<Label, MOST_EQUATIONS>,
    pub titles: ArrayVec<Label, MOST_MODULES>,
    pub done: usize,
}

// What can be wrong with a maker's table.
ghost use Rattle.std.specs.Prelude.{◌≡◌, Some};
ghost use Rattle.table_format.specs.declared.fault.TableFault.TheVariants.{NoMemory};
ghost use Rattle.table_format.specs.Taking.{number as refusal_number, place as place_of};
ghost use Rattle.table_format.specs.Texts.{table_fault_text};

use std::alloc::AllocError;
use std::error::Error;
use std::fmt;

// A case holds the offset of the first byte of the field at fault, unless there is only one such field.
#[derive(Clone, Copy, Debug, PartialEq, Eq)]
pub enum TableFault {
    // There is no byte 01 in front.
    NotVersionOne,
    // A field or a record runs past the record that it stands in, or past the file.
    PastEnd(usize),
    // The length of a state is not 3 + 4 x its number of moves.
    WrongStateLength(usize),
    // Bytes are left over in a module, or in the file.
    LeftOver(usize),
    // There are more modules than a table may have.
    TooManyModules,
    // A module has no state, or more than it may have.
    WrongStateCount(usize),
    // A state has more moves than it may have.
    TooManyMoves(usize),
    // An action byte holds a number that is no action.
    NotAnAction(usize),
    // The byte that marks a move as urgent is neither 00 nor 01.
    NotAMark(usize),
    // A start, a tick or the target of a move is no state of its module.
    NotAState(usize),
    // A state has a tick beside an urgent internal move, or no tick without one.
    WrongTick(usize),
    // Nothing is wrong with the bytes, but there was no memory to take them.
    NoMemory,
}

// By hand: a derived conversion has no contract, and clauses name the error that `?` makes.
impl From<AllocError> for TableFault {
    ghost from_gives = { λ _ r. r ≡ NoMemory };

    fn from(_error: AllocError) -> TableFault {
        Self::NoMemory
    }
}

impl TableFault {
    // The number of the refusal; want of memory has none. Each enum of refusals has such a table of its own, which a trait of
    // them would only name again.
    pub fn number(self) -> Option<u8>
        ensures { result ≡ refusal_number self }
    {
        match self {
            TableFault::NotVersionOne => Some(11),
            TableFault::PastEnd(_) => Some(12),
            TableFault::WrongStateLength(_) => Some(12),
            TableFault::LeftOver(_) => Some(12),
            TableFault::TooManyModules => Some(13),
            TableFault::WrongStateCount(_) => Some(13),
            TableFault::TooManyMoves(_) => Some(13),
            TableFault::NotAnAction(_) => Some(14),
            TableFault::NotAMark(_) => Some(14),
            TableFault::NotAState(_) => Some(14),
            TableFault::WrongTick(_) => Some(15),
            TableFault::NoMemory => None,
        }
    }

    // The offset that is told with the number, as the output tells it: 0 where there is none.
    pub fn place(self) -> usize
        ensures { result ≡ place_of self }
    {
        match self {
            TableFault::NotVersionOne => 0,
            TableFault::PastEnd(at) => at,
            TableFault::WrongStateLength(at) => at,
            TableFault::LeftOver(at) => at,
            TableFault::TooManyModules => 1,
            TableFault::WrongStateCount(at) => at,
            TableFault::TooManyMoves(at) => at,
            TableFault::NotAnAction(at) => at,
            TableFault::NotAMark(at) => at,
            TableFault::NotAState(at) => at,
            TableFault::WrongTick(at) => at,
            TableFault::NoMemory => 0,
        }
    }
}

// The number of the refusal and the offset, or that memory is wanting.
impl fmt::Display for TableFault {
    ghost output = { λ e. Some (table_fault_text e) };

    fn fmt<W: fmt::Write>(&self, f: &mut fmt::Formatter<W>) -> fmt::Result {
        let place = self.place();
        match self.number() {
            Some(number) => write!(f, "{number} {place}"),
            None => write!(f, "out of memory"),
        }
    }
}

impl Error for TableFault {}

// What can be wrong with a list of renaming entries.
ghost use Rattle.std.specs.Prelude.{◌≡◌, Some};
ghost use Rattle.renaming.specs.Faults.{number as refusal_number};
ghost use Rattle.renaming.specs.Texts.{renaming_fault_text};

use std::error::Error;
use std::fmt;

#[derive(Clone, Copy, Debug, PartialEq, Eq)]
pub enum RenamingFault {
    // so many entries, and not one for each port
    Length(usize),
    // the entry at this place is the internal event, or no action
    Entry(usize),
    // the port at this place is sent where one before it is
    Shared(usize),
}

impl RenamingFault {
    // The number of the refusal. Each enum of refusals has such a table of its own, which a trait of them would only name again.
    pub fn number(self) -> u8
        ensures { result ≡ refusal_number self }
    {
        match self {
            RenamingFault::Length(_) => 16,
            RenamingFault::Entry(_) => 16,
            RenamingFault::Shared(_) => 17,
        }
    }
}

// The number of the refusal.
impl fmt::Display for RenamingFault {
    ghost output = { λ e. Some (renaming_fault_text e) };

    fn fmt<W: fmt::Write>(&self, f: &mut fmt::Formatter<W>) -> fmt::Result {
        let number = self.number();
        write!(f, "{number}")
    }
}

impl Error for RenamingFault {}

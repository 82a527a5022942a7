// What a line is and does, and what is answered of it: the words of drawing, swapping and the time question.
#![tactic(auto)]

ghost use Rattle.std.specs.Prelude.{◌≡◌, Some};
ghost use Rattle.line_rules.specs.declared.DrawFault.TheVariants.{Renaming};
ghost use Rattle.line_rules.specs.declared.SwapFault.TheVariants.{Compare};
ghost use Rattle.line_rules.specs.Drawing.{draw_number};
ghost use Rattle.line_rules.specs.Swapping.{swap_number};
ghost use Rattle.line_rules.specs.Time.{time_number};
ghost use Rattle.line_rules.specs.Texts.{draw_fault_text, swap_fault_text, time_fault_text};

use action::ActionSet;
use pair_table::CompareFault;
use renaming::RenamingFault;
use std::error::Error;
use std::fmt;

// Why a line is not drawn.
#[derive(Clone, Copy, Debug, PartialEq, Eq)]
pub enum DrawFault {
    // no slot, or more than 16
    SlotCount,
    // a hidden port outside 1 to 31
    HiddenPort,
    // what is wrong with a slot's renaming
    Renaming(RenamingFault),
    // a slot's module is not in the catalogue
    UnknownModule,
}

// Why a module is not put into a slot.
#[derive(Clone, Copy, Debug, PartialEq, Eq)]
pub enum SwapFault {
    // the line has no such slot
    UnknownSlot,
    // why the new module and the one in the slot are not compared
    Compare(CompareFault),
    // the new module is slower, or does something else; its rank
    Slower(u32),
}

// Why nothing is told of a line's time.
#[derive(Clone, Copy, Debug, PartialEq, Eq)]
pub enum TimeFault {
    // a slot's module is not in the catalogue
    UnknownModule,
    // the list of codes is no state of the line
    NoState,
}

// Whether a line ticks in a state, and the actions that are urgent in it.
#[derive(Clone, Copy, Debug, PartialEq, Eq)]
pub struct TimeAnswer {
    pub ticks: bool,
    pub urgent: ActionSet,
}

impl DrawFault {
    // The number of the refusal. Each enum of refusals has such a table of its own, which a trait of them would only name again.
    pub fn number(self) -> u8
        ensures { result ≡ draw_number self }
    {
        match self {
            DrawFault::SlotCount => 18,
            DrawFault::HiddenPort => 20,
            DrawFault::Renaming(fault) => fault.number(),
            DrawFault::UnknownModule => 19,
        }
    }
}

impl SwapFault {
    // The number of the refusal. Each enum of refusals has such a table of its own, which a trait of them would only name again.
    pub fn number(self) -> u8
        ensures { result ≡ swap_number self }
    {
        match self {
            SwapFault::UnknownSlot => 21,
            SwapFault::Compare(fault) => fault.number(),
            SwapFault::Slower(_) => 25,
        }
    }
}

impl TimeFault {
    // The number of the refusal. Each enum of refusals has such a table of its own, which a trait of them would only name again.
    pub fn number(self) -> u8
        ensures { result ≡ time_number self }
    {
        match self {
            TimeFault::UnknownModule => 22,
            TimeFault::NoState => 26,
        }
    }
}

// By hand: a derived conversion has no contract, and clauses name the error that `?` makes.
impl From<RenamingFault> for DrawFault {
    ghost from_gives = { λ e r. r ≡ Renaming e };

    fn from(why: RenamingFault) -> DrawFault {
        DrawFault::Renaming(why)
    }
}

// By hand: a derived conversion has no contract, and clauses name the error that `?` makes.
impl From<CompareFault> for SwapFault {
    ghost from_gives = { λ e r. r ≡ Compare e };

    fn from(why: CompareFault) -> SwapFault {
        SwapFault::Compare(why)
    }
}

// The number of the refusal.
impl fmt::Display for DrawFault {
    ghost output = { λ e. Some (draw_fault_text e) };

    fn fmt<W: fmt::Write>(&self, f: &mut fmt::Formatter<W>) -> fmt::Result {
        let number = self.number();
        write!(f, "{number}")
    }
}

impl Error for DrawFault {}

// The number of the refusal.
impl fmt::Display for TimeFault {
    ghost output = { λ e. Some (time_fault_text e) };

    fn fmt<W: fmt::Write>(&self, f: &mut fmt::Formatter<W>) -> fmt::Result {
        write!(f, "{}", self.number())
    }
}

impl Error for TimeFault {}

// The number of the refusal, and the rank of a module that is slower.
impl fmt::Display for SwapFault {
    ghost output = { λ e. Some (swap_fault_text e) };

    fn fmt<W: fmt::Write>(&self, f: &mut fmt::Formatter<W>) -> fmt::Result {
        let number = self.number();
        match self {
            SwapFault::Slower(rank) => write!(f, "{number} {rank}"),
            SwapFault::UnknownSlot | SwapFault::Compare(_) => write!(f, "{number}"),
        }
    }
}

impl Error for SwapFault {}

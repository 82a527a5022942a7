// The words of a line: an action, a tick, a list of moves or of urgent actions. Each is a value that prints itself, so that a text of any
// length is printed without being kept.
ghost use Rattle.std.specs.Prelude.{Some};
ghost use Rattle.action.specs.Sets.{members};
ghost use Rattle.catalogue.specs.Catalogue.{state_in};
ghost use Rattle.report.specs.Text.{action_text, move_text, tick_word, listed};

use action::ActionSet;
use catalogue::{Catalogue, Move, Moves};
use std::fmt;

mod lines;

pub use lines::{CatalogueText, catalogue_text, fault_text, long_text, refused_text};

// An action, to be written as in a book: `?7`, `!7` or `i`.
#[derive(Clone, Copy)]
pub struct ActionText(pub i8);

impl fmt::Display for ActionText {
    ghost output = { λ a. Some (action_text a.0) };

    fn fmt<W: fmt::Write>(&self, f: &mut fmt::Formatter<W>) -> fmt::Result {
        let action = self.0 as i16;
        if action == 0 {
            return f.write_str("i");
        }
        if action > 0 {
            write!(f, "?{action}")
        } else {
            let port = -action;
            write!(f, "!{port}")
        }
    }
}

// A move, as `?7>3`.
#[derive(Clone, Copy)]
struct MoveText(Move);

impl fmt::Display for MoveText {
    ghost output = { λ m. Some (move_text m.0) };

    fn fmt<W: fmt::Write>(&self, f: &mut fmt::Formatter<W>) -> fmt::Result {
        let action = ActionText(self.0.action);
        let target = self.0.target;
        write!(f, "{action}>{target}")
    }
}

// The target of a tick, or a dash where time cannot pass.
#[derive(Clone, Copy)]
struct TickText(Option<u32>);

impl fmt::Display for TickText {
    ghost output = { λ t. Some (tick_word t.0) };

    fn fmt<W: fmt::Write>(&self, f: &mut fmt::Formatter<W>) -> fmt::Result {
        match self.0 {
            None => write!(f, "-"),
            Some(target) => write!(f, "{target}"),
        }
    }
}

// The urgent actions of a state, in rising order, each with a space in front.
#[derive(Clone, Copy)]
struct UrgentText(ActionSet);

impl fmt::Display for UrgentText {
    ghost output = { λ u. Some (listed action_text (members u.0)) };

    fn fmt<W: fmt::Write>(&self, f: &mut fmt::Formatter<W>) -> fmt::Result {
        let mut rest = self.0.iter();
        let Some(first) = rest.next() else {
            return write!(f, " -");
        };
        write!(f, " {}", ActionText(first))?;
        for action in rest {
            write!(f, " {}", ActionText(action))?;
        }
        Ok(())
    }
}

// The moves of a state, each with a space in front. One type for this list and the one before would take the walk and what is printed of
// an item as parameters, with clauses on both, to save six lines.
#[derive(Drop)]
struct MovesText<'a, C> {
    catalogue: &'a C,
    part: usize,
    code: u32,
}

impl<C: Catalogue> fmt::Display for MovesText<'_, C> {
    ghost output = { λ m. Some (listed move_text (state_in (C.Catalogue.meaning m.catalogue.now) m.part m.code).moves) };

    fn fmt<W: fmt::Write>(&self, f: &mut fmt::Formatter<W>) -> fmt::Result {
        let mut rest = Moves::of(self.catalogue, self.part, self.code);
        let Some(first) = rest.next() else {
            return write!(f, " -");
        };
        write!(f, " {}", MoveText(first))?;
        for step in rest {
            write!(f, " {}", MoveText(step))?;
        }
        Ok(())
    }
}

// What a catalogue of modules answers, and what it shows of itself.
#![tactic(auto)]

ghost use Rattle.std.specs.Prelude.{◌≡◌, List, length};
ghost use Rattle.std.specs.Option.{option_map};
ghost use Rattle.action.specs.Lists.{nth};
ghost use Rattle.catalogue.specs.Catalogue.{Module, Lawful, state_in, codes as codes_of, start_of};

use action::ActionSet;

mod moves;

pub use moves::Moves;

// The most modules of a catalogue.
pub const MOST_MODULES: usize = 256;

// The most moves of a state.
pub const MOST_MOVES: usize = 64;

// One thing that a module can do in a state: an action, and the code of the state that it leads to.
#[derive(Clone, Copy, Debug, Default, PartialEq, Eq)]
pub struct Move {
    pub action: i8,
    pub target: u32,
}

// Modules, codes and moves count from 0. A question about one that is not there finds nothing: `None`, or the empty set.
pub trait Catalogue {
    // The list of modules that the catalogue means. Every answer is an equation with it.
    ghost meaning: { Self → List Module };

    // How many modules there are.
    fn modules(&self) -> usize
        ensures { result ≡ length (meaning self.now) };

    // How many codes a module has.
    fn codes(&self, part: usize) -> Option<u32>
        ensures { result ≡ option_map codes_of (nth (meaning self.now) part) };

    // The code that a module starts in.
    fn start(&self, part: usize) -> Option<u32>
        ensures { result ≡ option_map start_of (nth (meaning self.now) part) };

    // The move with a number, of a state of a module.
    fn move_at(&self, part: usize, code: u32, number: usize) -> Option<Move>
        ensures { result ≡ nth (state_in (meaning self.now) part code).moves number };

    // The actions that let no time pass by once they can take place.
    fn urgent(&self, part: usize, code: u32) -> ActionSet
        ensures { result ≡ (state_in (meaning self.now) part code).urgent };

    // The code that a tick of time leads to.
    fn tick(&self, part: usize, code: u32) -> Option<u32>
        ensures { result ≡ (state_in (meaning self.now) part code).tick };

    // The bounds and the laws of catalogues, which each of them keeps.
    ghost lawful: { (c : Self) → Lawful (meaning c) };
}

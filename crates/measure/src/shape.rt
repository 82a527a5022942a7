// The shapes of modules that are compared. Each stresses comparing in its own way.
use super::module::{Module, Step};
use std::alloc::{AllocError, Global};
use std::{array, fmt};

#[derive(Clone, Copy, Debug, PartialEq, Eq)]
pub enum Shape {
    // one long line of states, whose last ones differ: as many rounds as pairs
    Chain,
    // every state of one with every state of the other, and many moves by one action: nothing is dropped
    Dense,
    // the same, with one move that has no partner
    DenseOdd,
    // many moves by one action between states in a row: many rounds, each with many pairs
    Ladder,
    // two rings of lengths without a common divisor: all pairs, and as many rounds
    Cycles,
    // states with a move by every action, and behind them short lines: few rounds
    Bush,
}

// Which module of a shape: the one that is to stand in the place of the other, or the other.
#[derive(Clone, Copy, Debug, PartialEq, Eq)]
pub enum Side {
    New,
    Old,
}

impl fmt::Display for Shape {
    fn fmt<W: fmt::Write>(&self, f: &mut fmt::Formatter<W>) -> fmt::Result {
        let name = match self {
            Shape::Chain => "chain",
            Shape::Dense => "dense",
            Shape::DenseOdd => "dense-odd",
            Shape::Ladder => "ladder",
            Shape::Cycles => "cycles",
            Shape::Bush => "bush",
        };
        write!(f, "{name}")
    }
}

impl Shape {
    pub const ALL: [Shape; 6] = [
        Shape::Chain,
        Shape::Dense,
        Shape::DenseOdd,
        Shape::Ladder,
        Shape::Cycles,
        Shape::Bush,
    ];

    // The module of a side.
    pub fn module(self, heap: Global, side: Side) -> Result<Module, AllocError> {
        let is_new = side == Side::New;
        match self {
            Shape::Chain => chain(heap, is_new),
            Shape::Dense => dense(heap, if is_new { 1 } else { 99 }, false),
            Shape::DenseOdd => dense(heap, if is_new { 1 } else { 99 }, is_new),
            Shape::Ladder => ladder(heap, is_new),
            Shape::Cycles if is_new => cycle(heap, 127, false),
            Shape::Cycles => cycle(heap, 258, true),
            Shape::Bush => bush(heap, is_new),
        }
    }
}

fn step(action: i8, target: u16) -> Step {
    Step {
        action,
        urgent: false,
        target,
    }
}

// States in a line, each with a move to the next one. The last has none, or an odd one back to the first.
fn chain(heap: Global, odd: bool) -> Result<Module, AllocError> {
    let mut module = Module::new(heap);
    for next in 1..4096 {
        module.push(heap, &[step(1, next)])?;
    }
    if odd {
        module.push(heap, &[step(2, 0)])?;
    } else {
        module.push(heap, &[])?;
    }
    Ok(module)
}

// Numbers that look random, and are the same in each run.
#[derive(Drop)]
struct Draws {
    last: u32,
}

impl Draws {
    fn next(&mut self) -> u16 {
        self.last = self
            .last
            .wrapping_mul(1_664_525)
            .wrapping_add(1_013_904_223);
        (self.last / 65_536) as u16
    }
}

const DENSE_STATES: u16 = 180;

const DENSE_MOVES: usize = 64;

// States with as many moves as there may be, by four actions, to targets that look random.
fn dense(heap: Global, seed: u32, odd: bool) -> Result<Module, AllocError> {
    let mut draws = Draws { last: seed };
    let mut module = Module::new(heap);
    for state in 0..DENSE_STATES {
        let mut moves: [Step; DENSE_MOVES] = array::from_fn(|k| step(
            (k % 4) as i8,
            draws.next() % DENSE_STATES,
        ));
        if odd && state == 7 {
            moves[DENSE_MOVES - 1].action = 5;
        }
        module.push(heap, &moves)?;
    }
    Ok(module)
}

// States in a row, each with moves by four actions that stay and moves by four that go on. The last only stays.
fn ladder(heap: Global, odd: bool) -> Result<Module, AllocError> {
    let mut module = Module::new(heap);
    for state in 0..DENSE_STATES {
        let next = (state + 1).min(DENSE_STATES - 1);
        let mut moves: [Step; DENSE_MOVES] = array::from_fn(|k| {
            step((k % 4) as i8, if k % 8 < 4 { state } else { next })
        });
        if odd && state == next {
            moves[DENSE_MOVES - 1].action = 5;
        }
        module.push(heap, &moves)?;
    }
    Ok(module)
}

// States in a ring. Going on is urgent in the last one alone, or in all the others.
fn cycle(heap: Global, length: u16, last_urgent: bool) -> Result<Module, AllocError> {
    let mut module = Module::new(heap);
    for state in 0..length {
        let is_last = state + 1 == length;
        let step = Step {
            action: 1,
            urgent: is_last == last_urgent,
            target: if is_last { 0 } else { state + 1 },
        };
        module.push(heap, &[step])?;
    }
    Ok(module)
}

const BUSH_ROOTS: u16 = 64;

const BUSH_LEAVES: u16 = 3969;

// The last two leaves do as the first two.
const BUSH_PLACES: u16 = 3967;

// A tree of states with a move by each action, and its leaves, each of which goes on to the leaf a thousand further round. One
// leaf has no move, or an odd one to the first leaf.
fn bush(heap: Global, odd: bool) -> Result<Module, AllocError> {
    let mut module = Module::new(heap);
    for root in 0..BUSH_ROOTS {
        let moves: [Step; 63] = array::from_fn(|k| step(k as i8 - 31, root * 63 + k as u16 + 1));
        module.push(heap, &moves)?;
    }
    for leaf in 0..BUSH_LEAVES {
        let place = leaf % BUSH_PLACES;
        if place != 2967 {
            module.push(heap, &[step(1, BUSH_ROOTS + (place + 1000) % BUSH_PLACES)])?;
        } else if odd {
            module.push(heap, &[step(2, BUSH_ROOTS)])?;
        } else {
            module.push(heap, &[])?;
        }
    }
    Ok(module)
}

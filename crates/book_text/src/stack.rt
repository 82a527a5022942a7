// What is open in a right side, and what becomes of it.
ghost use Rattle.std.specs.Prelude.{◌≡◌, ◌+◌, ◌-◌, ◌^◌, ◌<◌, ◌≤◌, take, length};
ghost use Rattle.book_text.specs.Parsers.{op_at, rows_in};
ghost use Rattle.book_text.specs.Stacks.{floor, pushed, place_for, closed_rows};

use crate::parser::{Open, Parser, Stack};
use rows::{MOST_PLACES, Place};

impl Open {
    // What an op becomes with the place that follows it.
    fn before(self, k: u16) -> Place
        ensures { result ≡ place_for self k }
    {
        match self {
            Open::Waiting => Place::Wait(k),
            Open::Acting(a) => Place::Act(a, k),
            Open::Adding(j) => Place::Sum(j, k),
        }
    }
}

impl Stack {
    // How many ops are open around the innermost parenthesis.
    pub(crate) fn floor(&self) -> usize
        ensures { result ≡ floor self.now }
    {
        match self.floors.as_slice() {
            [.., last] => *last,
            [] => 0,
        }
    }

    // One more op; beyond the most places only its number is kept.
    pub(crate) fn push(&mut self, op: Open)
        ensures { self.old.pending + 1 < 2 ^ 64 → self.new ≡ pushed self.old op }
    {
        let i = self.pending;
        if i < MOST_PLACES {
            self.ops[i] = op;
        }
        self.pending = i.saturating_add(1);
    }

    fn op_at(&self, i: usize) -> Open
        ensures { result ≡ op_at self.now.ops i }
    {
        self.ops.get(i).copied().unwrap_or_default()
    }
}

impl Parser {
    // The ops above `low` are complete, the last one first: the number of rows then.
    pub(crate) fn complete(&self, low: usize, places: &mut [Place]) -> u16
        requires few { self.now.rows + (self.now.stack.pending - low) ≤ 256 }
        requires room { self.now.first + (self.now.rows + (self.now.stack.pending - low)) ≤ length places.old }
        ensures rows { result ≡ self.now.rows + (self.now.stack.pending - low) }
        ensures table { rows_in self.now.first result places.new ≡ closed_rows self.now.stack.ops low (self.now.stack.pending - low) (rows_in self.now.first self.now.rows places.old) }
        ensures front { take self.now.first places.new ≡ take self.now.first places.old }
    {
        // By number: the newest op is first, and `pending` may count more ops than `ops` keeps.
        let mut n = self.rows;
        for i in (low..self.stack.pending).rev() {
            places[self.first + usize::from(n)] = self.stack.op_at(i).before(n.saturating_sub(1));
            n += 1;
        }
        n
    }
}

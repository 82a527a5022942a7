// What the tests share: a book, tables of makers, wirings, and plans of lines.
use action::ActionSet;
use book::Book;
use book_text::read;
use catalogue::Catalogue;
use line::{Line, SlotPlan, draw};
use line_rules::{SwapFault, TimeAnswer};
use maker_table::Table;
use pair_table::PairRow;
use rows::{ModuleRow, Place};
use std::alloc::Global;
use std::process::Abort;
use std::test::Fail;

mod drawing;
mod histories;
mod others;
mod piles;
mod printed;
mod swapping;
mod timing;

// Places are numbered as their texts are complete, and a code is 16 times the place, and the age. So the starts are, in this
// order, 32, 16, 16, 32, 64, 48, 32, 32 and 16.
const BOOK: &str = "\
module Slow { S = w.?1.S; } \
module Fast { F = ?1.F; } \
module Sender { X = !1.0; } \
module Receiver { X = w.?1.0; } \
module Either { X = !1.0 + ?1.0; } \
module Deep { X = ?2.w.?1.0; } \
module Flat { X = ?2.?1.0; } \
module Later { X = w.i.0; } \
module Now { X = i.0; }";

const SLOW: usize = 0;

const FAST: usize = 1;

const SENDER: usize = 2;

const RECEIVER: usize = 3;

const EITHER: usize = 4;

const DEEP: usize = 5;

const FLAT: usize = 6;

const LATER: usize = 7;

const NOW: usize = 8;

// the first number that is no module of the book
const UNKNOWN: usize = 9;

// Each port to itself.
const PLAIN: &[i8] = &[
    1, 2, 3, 4, 5, 6, 7, 8, 9, 10, 11, 12, 13, 14, 15, 16, 17, 18, 19, 20, 21, 22, 23, 24, 25, 26,
    27, 28, 29, 30, 31,
];

// The ports 1 and 2 exchanged.
const CROSSED: &[i8] = &[
    2, 1, 3, 4, 5, 6, 7, 8, 9, 10, 11, 12, 13, 14, 15, 16, 17, 18, 19, 20, 21, 22, 23, 24, 25, 26,
    27, 28, 29, 30, 31,
];

// Receiving on 1 becomes sending on 1.
const TURNED: &[i8] = &[
    -1, 2, 3, 4, 5, 6, 7, 8, 9, 10, 11, 12, 13, 14, 15, 16, 17, 18, 19, 20, 21, 22, 23, 24, 25, 26,
    27, 28, 29, 30, 31,
];

// A slot of a plan: its module and what its ports are.
type Planned = (usize, &'static [i8]);

fn plans(heap: Global, slots: &[Planned]) -> Result<Vec<SlotPlan<'static>>, Fail> {
    let mut plans = Vec::new(heap);
    for (holds, entries) in slots {
        plans.push(SlotPlan {
            holds: *holds,
            entries: *entries,
        })?;
    }
    Ok(plans)
}

// A line that can be drawn.
fn drawn<C: Catalogue>(
    heap: Global,
    catalogue: &C,
    slots: &[Planned],
    hidden: &[u8],
) -> Result<Line, Fail> {
    let plans = plans(heap, slots)?;
    match draw(catalogue, &plans, hidden) {
        Ok(line) => Ok(line),
        Err(_) => Err(Fail::new("not drawn")),
    }
}

// The rows of a text.
#[derive(Drop)]
struct Rows {
    places: Vec<Place>,
    modules: Vec<ModuleRow>,
}

impl Rows {
    fn of(heap: Global, text: &str) -> Result<Rows, Fail> {
        let mut places = vec![in heap; Place::default(); 64]?;
        let mut modules = vec![in heap; ModuleRow::default(); 16]?;
        let used = read(text.as_bytes(), &mut places, &mut modules)?;
        places.truncate(used.places);
        modules.truncate(used.modules);
        Ok(Rows { places, modules })
    }

    fn book(&self) -> Book<'_> {
        Book::over(&self.places, &self.modules)
    }
}

// A table that can be taken.
fn table_of(heap: Global, bytes: &[u8]) -> Result<Table, Fail> {
    match Table::take(heap, bytes.to_vec(heap)?) {
        Ok(table) => Ok(table),
        Err(_) => Err(Fail::new("not taken")),
    }
}

// The modules that the slots hold, and that there is none behind them.
fn modules_of(heap: Global, line: &Line) -> Result<Vec<usize>, Fail> {
    let mut found = Vec::new(heap);
    for slot in 0..20 {
        if let Some(part) = line.module_in(slot) {
            found.push(part)?;
        }
    }
    Ok(found)
}

// The set of some actions.
fn set_of(actions: &[i8]) -> ActionSet {
    let mut set = ActionSet::empty();
    for action in actions {
        set.insert(*action);
    }
    set
}

// What is told of a line's time: whether it ticks, and what is urgent; or the number of the refusal.
type Told = Result<(bool, &'static [i8]), u8>;

fn check_time<C: Catalogue>(
    rt: &impl Abort,
    catalogue: &C,
    line: &Line,
    state: &[u32],
    told: Told,
    name: &str,
) {
    let wanted = told.map(|(ticks, urgent)| TimeAnswer {
        ticks,
        urgent: set_of(urgent),
    });
    let found = line.time(catalogue, state).map_err(|fault| fault.number());
    assert_eq!(rt; found, wanted, "{} in {:?}", name, state);
}

// What a swap answers: the pair count, or the number of the refusal and the rank, which is 0 but after 25.
type Outcome = Result<usize, (u8, u32)>;

fn outcome_of(answer: Result<usize, SwapFault>) -> Outcome {
    answer.map_err(|fault| match fault {
        SwapFault::Slower(rank) => (fault.number(), rank),
        SwapFault::UnknownSlot | SwapFault::Compare(_) => (fault.number(), 0),
    })
}

// A row of a pair table, as the cases show it: new, old, rank.
type Row = (u32, u32, u32);

// What a lent row holds before it is written.
const LENT: PairRow = PairRow {
    new: 7,
    old: 7,
    rank: 7,
};

fn lent_rows(heap: Global, count: usize) -> Result<Vec<PairRow>, Fail> {
    let rows = vec![in heap; LENT; count]?;
    Ok(rows)
}

// That the first rows of a table are those that were to be written, and the rest as they were lent.
fn check_table(
    rt: &impl Abort,
    heap: Global,
    table: &[PairRow],
    written: &[Row],
    name: &str,
) -> Result<(), Fail> {
    let mut wanted = Vec::new(heap);
    for (new, old, rank) in written {
        wanted.push(PairRow {
            new: *new,
            old: *old,
            rank: *rank,
        })?;
    }
    for _ in written.len()..table.len() {
        wanted.push(LENT)?;
    }
    assert_eq!(rt; table, wanted.as_slice(), "{}", name);
    Ok(())
}

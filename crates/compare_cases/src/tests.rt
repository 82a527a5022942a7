// What the tests share.
use book::Book;
use book_text::read;
use catalogue::Catalogue;
use compare::compare;
use maker_table::Table;
use pair_table::{CompareFault, Compared, PairRow};
use rows::{ModuleRow, Place};
use std::alloc::Global;
use std::process::Abort;
use std::test::Fail;

mod lengths;
mod made;
mod piles;
mod refused;
mod renamings;
mod written;

// A new state, an old one, and a rank.
type Row = (u32, u32, u32);

// What is in the rows before a comparison. No comparison writes it.
const MARK: Row = (u32::MAX, u32::MAX, u32::MAX);

// The pair count and the rank of the first pair, or the number of a refusal.
type Answer = Result<(usize, u32), u8>;

// A new module, an old one, and the rows of all their pairs.
type Case<'a> = (usize, usize, &'a [Row]);

fn pair_row((new, old, rank): Row) -> PairRow {
    PairRow { new, old, rank }
}

// Compares two modules in so many marked rows: the answer, and the rows afterwards.
fn compared<C: Catalogue>(
    heap: Global,
    catalogue: &C,
    new: usize,
    old: usize,
    length: usize,
) -> Result<(Answer, Vec<PairRow>), Fail> {
    let mut table = vec![in heap; pair_row(MARK); length]?;
    let answer = match compare(catalogue, new, old, &mut table) {
        Ok(Compared { pairs, rank }) => Ok((pairs, rank)),
        Err(fault) => Err(fault.number()),
    };
    Ok((answer, table))
}

// Asserts that the first rows of a comparison are these, and that all behind them are as they were.
fn assert_rows(rt: &impl Abort, new: usize, old: usize, table: &[PairRow], rows: &[Row]) {
    assert!(rt; rows.len() <= table.len());
    for (i, found) in table.iter().enumerate() {
        let row = rows.get(i).copied().unwrap_or(MARK);
        assert_eq!(rt; *found, pair_row(row), "{} for {}: row {}", new, old, i);
    }
}

// Asserts what comparing answers for each case and the rows that it leaves, in a table with two rows to spare. The numbers of
// the modules begin at `first`.
fn assert_cases<C: Catalogue>(
    rt: &impl Abort,
    heap: Global,
    catalogue: &C,
    first: usize,
    cases: &[Case<'_>],
) -> Result<(), Fail> {
    for (new, old, rows) in cases {
        let pairs = rows.len();
        let rank = rows.first().ok_or("no rows")?.2;
        let new = first.saturating_add(*new);
        let old = first.saturating_add(*old);
        let (answer, table) = compared(heap, catalogue, new, old, pairs.saturating_add(2))?;
        assert_eq!(rt; answer, Ok((pairs, rank)), "{} for {}", new, old);
        assert_rows(rt, new, old, &table, rows);
    }
    Ok(())
}

// The rows of a book.
#[derive(Drop)]
struct BookRows {
    places: Vec<Place>,
    modules: Vec<ModuleRow>,
}

impl BookRows {
    fn read(heap: Global, text: &str) -> Result<BookRows, Fail> {
        let mut places = vec![in heap; Place::default(); 256]?;
        let mut modules = vec![in heap; ModuleRow::default(); 64]?;
        let used = read(text.as_bytes(), &mut places, &mut modules)?;
        places.truncate(used.places);
        modules.truncate(used.modules);
        Ok(BookRows { places, modules })
    }

    fn book(&self) -> Book<'_> {
        Book::over(&self.places, &self.modules)
    }
}

// The table of a text of hexadecimal digits, two to a byte; spaces count for nothing.
fn table(heap: Global, text: &str) -> Result<Table, Fail> {
    let mut bytes = Vec::new(heap);
    let mut high: Option<u8> = None;
    for letter in text.chars() {
        if letter == ' ' {
            continue;
        }
        let digit = letter.to_digit(16).ok_or("no digit")? as u8;
        match high {
            None => high = Some(digit),
            Some(first) => {
                bytes.push(first.wrapping_mul(16) | digit)?;
                high = None;
            }
        }
    }
    Ok(Table::take(heap, bytes)?)
}

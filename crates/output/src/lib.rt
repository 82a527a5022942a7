// What the programs print of the two files that they read: a planner's book and a maker's table.
#![tactic(auto)]

ghost use Rattle.std.specs.Prelude.{◌≡◌, ◌≢◌, ◌+◌, ◌≤◌, length, take, IfOk, Some, string_bytes, vec_len};
ghost use Rattle.catalogue.specs.Catalogue.{most_modules};
ghost use Rattle.rows.specs.Opening.{opened};
ghost use Rattle.table_format.specs.Reading.{meaning};
ghost use Rattle.maker_table.specs.Table.{written};
ghost use Rattle.table_format.specs.declared.fault.TableFault.TheVariants.{NoMemory};
ghost use Rattle.output.specs.declared.FileFault.TheVariants.{Book as BookAt, Table as TableAt};
ghost use Rattle.output.specs.Output.{place_rows, module_rows, file_fault_text, file_fault_line, asked_of, output};
ghost use Rattle.output.specs.Taking.{Takes};
ghost use Rattle.output.specs.Showing.{modules_printed, printed};
ghost use Rattle.output.specs.Worked.{Worked};

use book::Book;
use book_text::{BookFault, read};
use catalogue::Catalogue;
use comparison_text::{comparison_text, comparisons_text};
use layers::Joined;
use maker_table::Table;
pub use report::{BOOK_NAME, TABLE_NAME};
use report::{CatalogueText, LONGEST_FILE};
use rows::{MOST_MODULES, ModuleRow, Place};
use std::alloc::{AllocError, Global};
use std::error::Error;
use std::fmt;
use swaps_text::swaps_text;
use table_format::TableFault;

// How many rows there are to read a book into: for modules as many as a book may have.
const PLACE_ROWS: usize = 4096;

const MODULE_ROWS: usize = MOST_MODULES;

// What can be wrong with the files. The first file at fault is told.
#[derive(Clone, Copy, Debug, PartialEq, Eq)]
pub enum FileFault {
    // the book is longer than a file may be
    BookLong,
    Book(BookFault),
    // the table is longer than a file may be
    TableLong,
    Table(TableFault),
}

// By hand: a derived conversion has no contract, and clauses name the error that `?` makes.
impl From<BookFault> for FileFault {
    ghost from_gives = { λ e r. r ≡ BookAt e };

    fn from(why: BookFault) -> FileFault {
        FileFault::Book(why)
    }
}

// By hand: a derived conversion has no contract, and clauses name the error that `?` makes.
impl From<TableFault> for FileFault {
    ghost from_gives = { λ e r. r ≡ TableAt e };

    fn from(why: TableFault) -> FileFault {
        FileFault::Table(why)
    }
}

// The name of the file, and what is wrong with it.
impl fmt::Display for FileFault {
    ghost output = { λ e. Some (file_fault_text e) };

    fn fmt<W: fmt::Write>(&self, f: &mut fmt::Formatter<W>) -> fmt::Result {
        match self {
            FileFault::BookLong => write!(f, "{BOOK_NAME} long"),
            FileFault::Book(fault) => write!(f, "{BOOK_NAME} {fault}"),
            FileFault::TableLong => write!(f, "{TABLE_NAME} long"),
            FileFault::Table(fault) => write!(f, "{TABLE_NAME} {fault}"),
        }
    }
}

impl Error for FileFault {}

// What is asked of the modules of the two files.
#[derive(Clone, Copy, Debug, PartialEq, Eq)]
pub enum Request {
    // what each module means
    Modules,
    // every module compared with every other
    Comparisons,
    // a new module compared with an old one, with the rows of their pairs
    Comparison(usize, usize),
    // each module tried in each slot of a line of the first modules
    Swaps,
}

// The rows that a book is read into.
#[derive(Drop)]
pub struct Rows {
    places: Vec<Place>,
    modules: Vec<ModuleRow>,
    ghost places_len: { vec_len places ≡ place_rows },
    ghost modules_len: { vec_len modules ≡ module_rows },
}

impl Rows {
    // Rows for a book as large as it may be. Want of memory is the only error.
    pub fn new(heap: Global) -> Result<Rows, AllocError> {
        let places = vec![in heap; Place::default(); PLACE_ROWS]?;
        let modules = vec![in heap; ModuleRow::default(); MODULE_ROWS]?;
        Ok(Rows { places, modules })
    }
}

// The files, taken: how many rows the book uses, and the table.
#[derive(Drop)]
struct Taken {
    places: usize,
    modules: usize,
    table: Table,
}

// Reads the book into rows, then takes the table.
fn take_files(
    heap: Global,
    book: &[u8],
    table: Vec<u8>,
    rows: &mut Rows,
) -> Result<Taken, FileFault>
    ensures { Takes book.now table.items rows.new.places.items rows.new.modules.items result }
{
    if book.len() > LONGEST_FILE {
        return Err(FileFault::BookLong);
    }
    let used = read(book, &mut rows.places, &mut rows.modules)?;
    if table.len() > LONGEST_FILE {
        return Err(FileFault::TableLong);
    }
    let taken = Table::take(heap, table)?;
    Ok(Taken {
        places: used.places,
        modules: used.modules,
        table: taken,
    })
}

// Why a file is refused; want of memory is no fault of it.
fn refused_text(heap: Global, why: FileFault) -> Result<String, AllocError>
    ensures { IfOk result (λ s. (string_bytes s ≡ file_fault_line why) × (why ≢ TableAt NoMemory)) }
{
    if why == FileFault::Table(TableFault::NoMemory) {
        return Err(AllocError);
    }
    format!(in heap; "{why}\n")
}

// What the modules of the book mean, then what those of the table do: each file's under its name, with the numbers that they have
// where the two are joined.
#[derive(Drop)]
struct ModulesText<'a, 'b> {
    both: &'a Joined<Book<'b>, Table>,
}

impl fmt::Display for ModulesText<'_, '_> {
    ghost output = { λ m. Some (modules_printed m.both.now) };

    fn fmt<W: fmt::Write>(&self, f: &mut fmt::Formatter<W>) -> fmt::Result {
        let book = CatalogueText {
            name: BOOK_NAME,
            catalogue: self.both.front(),
            first: 0,
        };
        let table = CatalogueText {
            name: TABLE_NAME,
            catalogue: self.both,
            first: self.both.front().modules(),
        };
        write!(f, "{book}{table}")
    }
}

// What is printed of the two files. A text is kept whole. Of the modules there can be far more text than memory, so they are kept as a
// catalogue, and print themselves line by line.
#[derive(Drop)]
pub enum Printout<'a> {
    Text(String),
    Modules(Joined<Book<'a>, Table>),
}

impl fmt::Display for Printout<'_> {
    ghost output = { λ s. Some (printed s) };

    fn fmt<W: fmt::Write>(&self, f: &mut fmt::Formatter<W>) -> fmt::Result {
        match self {
            Printout::Text(text) => write!(f, "{text}"),
            Printout::Modules(both) => {
                let modules = ModulesText { both };
                write!(f, "{modules}")
            }
        }
    }
}

// What is asked of the modules of the book, and of those of the table, as one text. A request is what the arguments say, and no
// closure could stand for it, since what it asks is generic in the catalogue.
fn answer_text(
    heap: Global,
    request: Request,
    both: &Joined<Book, Table>,
) -> Result<String, AllocError>
    requires all_fit { length (opened both.now.front.places.now both.now.front.modules.now) + length (meaning (written both.now.back)) ≤ most_modules }
    ensures { IfOk result (λ s. string_bytes s ≡ asked_of request (opened both.now.front.places.now both.now.front.modules.now) (meaning (written both.now.back))) }
{
    match request {
        Request::Modules => {
            let modules = ModulesText { both };
            format!(in heap; "{modules}")
        }
        Request::Comparisons => comparisons_text(heap, both),
        Request::Comparison(new, old) => comparison_text(heap, both, new, old),
        Request::Swaps => swaps_text(heap, both),
    }
}

// The same of the book in the rows. The modules, which are large, stand in a frame of their own.
fn taken_text(
    heap: Global,
    request: Request,
    rows: &Rows,
    taken: Taken,
) -> Result<String, AllocError>
    requires places { taken.places ≤ vec_len rows.now.places }
    requires modules { taken.modules ≤ vec_len rows.now.modules }
    ensures { IfOk result (λ s. string_bytes s ≡ asked_of request (opened (take taken.places rows.now.places.items) (take taken.modules rows.now.modules.items)) (meaning (written taken.table))) }
{
    let book = Book::over(&rows.places[..taken.places], &rows.modules[..taken.modules]);
    let both = Joined::new(book, taken.table);
    answer_text(heap, request, &both)
}

// The same, with the modules kept as a catalogue. That is large, so it is made for the request for modules alone, and where it is
// handed up.
fn taken_shown<'a>(
    heap: Global,
    request: Request,
    rows: &'a Rows,
    taken: Taken,
) -> Result<Printout<'a>, AllocError>
    requires places { taken.places ≤ vec_len rows.now.places }
    requires modules { taken.modules ≤ vec_len rows.now.modules }
    ensures { IfOk result (λ s. printed s ≡ asked_of request (opened (take taken.places rows.now.places.items) (take taken.modules rows.now.modules.items)) (meaning (written taken.table))) }
{
    match request {
        Request::Modules => {
            let book = Book::over(&rows.places[..taken.places], &rows.modules[..taken.modules]);
            Ok(Printout::Modules(Joined::new(book, taken.table)))
        }
        asked => Ok(Printout::Text(taken_text(heap, asked, rows, taken)?)),
    }
}

// What is printed of the two files: what is asked of their modules, or the line of the first file at fault. Want of memory is the
// only error.
#[tactic(auto, using(crate::proofs::Worked::worked))]
pub fn show<'a>(
    heap: Global,
    request: Request,
    book: &[u8],
    table: Vec<u8>,
    rows: &'a mut Rows,
) -> Result<Printout<'a>, AllocError>
    ensures shown { IfOk result (λ s. printed s ≡ output request book.now table.items) }
    ensures worked { Worked }
{
    match take_files(heap, book, table, rows) {
        Ok(taken) => taken_shown(heap, request, rows, taken),
        Err(fault) => Ok(Printout::Text(refused_text(heap, fault)?)),
    }
}

// The same as one text, which is handed up as it was made.
pub fn output_text(
    heap: Global,
    request: Request,
    book: Vec<u8>,
    table: Vec<u8>,
) -> Result<String, AllocError>
    ensures { IfOk result (λ s. string_bytes s ≡ output request book.items table.items) }
{
    let mut rows = Rows::new(heap)?;
    match take_files(heap, &book, table, &mut rows) {
        Ok(taken) => taken_text(heap, request, &rows, taken),
        Err(fault) => refused_text(heap, fault),
    }
}

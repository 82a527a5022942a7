// Opening rows.
ghost use Rattle.std.specs.Prelude.{◌≡◌, None, IfOk};
ghost use Rattle.std.specs.Result.{result_err};
ghost use Rattle.rows.specs.Opening.{fault as fault_of_rows, verdict_of};
ghost use Rattle.rows.specs.Rules.{BooksByTheRules, WaitsDelayNothing, TimeDeterministic};
ghost use Rattle.rows.specs.Walks.{TellsOfWalks};
ghost use Rattle.rows.specs.Cases.{Worked};
ghost use Rattle.book.specs.Keeping.{KeepsAll};

use super::Book;
use super::table::Table;
use rows::{MOST_MODULES, MOST_PLACES, ModuleRow, Place, RowsFault};
use trial::{Summary, try_module};

// Tries rows, and keeps the summaries of each module that passes.
fn fill(places: &[Place], modules: &[ModuleRow], table: &mut Table) -> Result<(), RowsFault>
    ensures judged { result ≡ verdict_of (fault_of_rows places.now modules.now) }
    ensures kept { KeepsAll places.now modules.now table.new.rows (result_err result) }
{
    // by index, since a walk over `iter_mut` tells nothing of what it writes
    for (part, row) in modules.iter().enumerate() {
        table.rows[part] = try_module(places, part, *row)?;
    }
    Ok(())
}

impl<'a> Book<'a> {
    // Opens rows as a book, whatever they hold. Where something is wrong with them, the book has no modules.
    pub fn over(places: &'a [Place], modules: &'a [ModuleRow]) -> Book<'a>
        ensures lent { result.places.now ≡ places.now }
        ensures listed { result.modules.now ≡ modules.now }
        ensures judged { result.verdict ≡ fault_of_rows places.now modules.now }
        ensures rules { fault_of_rows places.now modules.now ≡ None → BooksByTheRules places.now modules.now }
        ensures waits { fault_of_rows places.now modules.now ≡ None → WaitsDelayNothing places.now modules.now }
        ensures time { TimeDeterministic }
        ensures worked { Worked }
    {
        let mut table = Table {
            rows: [[Summary::default(); MOST_PLACES]; MOST_MODULES],
        };
        let verdict = fill(places, modules, &mut table).err();
        Book {
            places,
            modules,
            table,
            verdict,
        }
    }

    // Opens rows as a book, or tells what is wrong with them.
    pub fn open(places: &'a [Place], modules: &'a [ModuleRow]) -> Result<Book<'a>, RowsFault>
        ensures opened { IfOk result (λ b. (b.places.now ≡ places.now) × (b.modules.now ≡ modules.now)) }
        ensures judged { result_err result ≡ fault_of_rows places.now modules.now }
    {
        let book = Book::over(places, modules);
        match book.fault() {
            Some(fault) => Err(fault),
            None => Ok(book),
        }
    }

    // What is wrong with the rows, if anything.
    pub fn fault(&self) -> Option<RowsFault>
        ensures judged { result ≡ fault_of_rows self.now.places.now self.now.modules.now }
        ensures walks { TellsOfWalks self.now.places.now self.now.modules.now result }
    {
        self.verdict
    }
}

// Tries rows as opening does. It has the loop of `fill` alone, since it keeps no summaries and so needs no table for them.
pub fn try_rows(places: &[Place], modules: &[ModuleRow]) -> Result<(), RowsFault>
    ensures { result ≡ verdict_of (fault_of_rows places.now modules.now) }
{
    for (part, row) in modules.iter().enumerate() {
        try_module(places, part, *row)?;
    }
    Ok(())
}

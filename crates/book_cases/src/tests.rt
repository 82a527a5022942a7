// What the tests share.
use book_text::read;
use rows::{ModuleRow, Place};
use std::alloc::Global;
use std::test::Fail;

mod answers;
mod bytes;
mod lent;
mod limits;
mod numbered;
mod opened;
mod ports;
mod refused;
mod size;
mod tried;
mod words;

// What reading a text answers, with so many rows lent: `taken`, and how many rows of each kind it uses; or the refusal as it
// prints, its number and its place.
fn told_with(heap: Global, text: &str, places: usize, modules: usize) -> Result<String, Fail> {
    let mut places = vec![in heap; Place::default(); places]?;
    let mut modules = vec![in heap; ModuleRow::default(); modules]?;
    match read(text.as_bytes(), &mut places, &mut modules) {
        Ok(used) => {
            let of_places = used.places;
            let of_modules = used.modules;
            Ok(format!(in heap; "taken {of_places} {of_modules}")?)
        }
        Err(fault) => Ok(format!(in heap; "{fault}")?),
    }
}

// The same with as many rows lent as can be used.
fn told(heap: Global, text: &str) -> Result<String, Fail> {
    told_with(heap, text, 16_384, 64)
}

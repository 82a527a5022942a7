// Making a renaming from a list of entries.
ghost use Rattle.std.specs.Prelude.{◌≡◌, ◌≤◌, ◌==◌, not, position, ℤ, unsigned_abs};
ghost use Rattle.std.specs.List.{list_any};
ghost use Rattle.action.specs.Action.{last_port};
ghost use Rattle.renaming.specs.Renaming.{is_signal, first_wrong, first_shared, each_to_itself, renamed};
ghost use Rattle.renaming.specs.Faults.{Made, LawOf};

use super::super::fault::RenamingFault;
use super::Renaming;
use action::{LAST_PORT, is_action};
use std::array;

// Whether a port may be sent to this number: an action, and not the internal event.
fn is_signal(entry: i8) -> bool
    ensures { result ≡ is_signal entry }
{
    entry != 0 && is_action(entry)
}

// The first entry that is no signal.
fn first_wrong(entries: &[i8]) -> Option<usize>
    ensures { result ≡ position (λ a. not (is_signal a)) entries.now }
{
    entries.iter().position(|entry| !is_signal(*entry))
}

// Whether some entry has the port of this one.
fn has_port(entries: &[i8], entry: i8) -> bool
    ensures { result ≡ list_any (λ a. unsigned_abs entry == unsigned_abs a) entries.now }
{
    entries
        .iter()
        .any(|other| entry.unsigned_abs() == other.unsigned_abs())
}

// The first entry that has the port of one before it.
fn first_shared(entries: &[i8]) -> Option<usize>
    ensures { result ≡ first_shared entries.now }
{
    (0..entries.len()).find(|i| has_port(&entries[..*i], entries[*i]))
}

impl Renaming {
    // Sends each port to itself, so that every action stays what it is.
    pub fn identity() -> Renaming
        ensures value { result.entries ≡ each_to_itself }
        ensures stays { (a : ℤ) → unsigned_abs a ≤ last_port → renamed result.entries a ≡ a }
    {
        Renaming {
            entries: array::from_fn(|i| i as i8 + 1),
        }
    }

    // Takes a list of entries, or tells what is wrong with it.
    #[tactic(auto, using(crate::proofs::Taking::law_of))]
    pub fn new(entries: &[i8]) -> Result<Renaming, RenamingFault>
        ensures made { Made entries.now result }
        ensures law { LawOf entries.now }
    {
        let copy = <[i8; LAST_PORT as usize]>::try_from(entries).map_err(|_| RenamingFault::Length(
            entries.len(),
        ))?;
        if let Some(i) = first_wrong(entries) {
            return Err(RenamingFault::Entry(i));
        }
        if let Some(i) = first_shared(entries) {
            return Err(RenamingFault::Shared(i));
        }
        Ok(Renaming { entries: copy })
    }
}

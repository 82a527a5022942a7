// Trying the rows of a module, and working out the summaries of its places on the way.
ghost use Rattle.std.specs.Prelude.{◌≡◌, ℕ, ◌<◌, not, length, position, nat_le, nat_lt, slice_index_or, get_or};
ghost use Rattle.catalogue.specs.Catalogue.{most_moves};
ghost use Rattle.rows.specs.Places.{ages, row};
ghost use Rattle.rows.specs.Opening.{inside, by_action};
ghost use Rattle.trial.specs.Summaries.{unknown, summary_by, Summarizes};
ghost use Rattle.trial.specs.Trying.{AllInside, TriedPlaces, Tried};

use super::module::Module;
use super::summary::Summary;
use action::is_action;
use catalogue::MOST_MOVES;
use rows::{MOST_MODULES, MOST_PLACES, ModuleRow, Place, RowsFault};

// Whether a place leads to places of a module of so many alone.
fn is_inside(place: Place, places: usize) -> bool
    ensures { result ≡ inside places place }
{
    let known = |number: u16| (number as usize) < places;
    match place {
        Place::Nil => true,
        Place::Act(_, j) | Place::Wait(j) | Place::Name(j) => known(j),
        Place::Sum(l, r) => known(l) && known(r),
    }
}

// Whether what stands for an action in a place is one.
fn is_by_action(place: Place) -> bool
    ensures { result ≡ by_action place }
{
    match place {
        Place::Act(action, _) => is_action(action),
        _ => true,
    }
}

// The first place without a walk that ends.
fn first_unguarded(summaries: &[Summary]) -> Option<usize>
    ensures { result ≡ position (λ s. not s.guarded) summaries.now }
{
    summaries.iter().position(|summary| !summary.guarded)
}

// The first place that is too deep.
fn first_deep(summaries: &[Summary]) -> Option<usize>
    ensures { result ≡ position (λ s. not (nat_lt s.depth ages)) summaries.now }
{
    summaries.iter().position(|summary| summary.depth > 15)
}

// The first place with too many moves.
fn first_with_many_moves(summaries: &[Summary]) -> Option<usize>
    ensures { result ≡ position (λ s. not (nat_le s.moves most_moves)) summaries.now }
{
    summaries
        .iter()
        .position(|summary| summary.moves as usize > MOST_MOVES)
}

impl Module<'_> {
    // The first place that leads out of the module.
    fn first_outside(&self) -> Option<usize>
        ensures { result ≡ position (λ p. not (inside (length self.now.places.now) p)) self.now.places.now }
    {
        let count = self.places.len();
        self.places
            .iter()
            .position(|place| !is_inside(*place, count))
    }

    // The first place with a number for an action that is none.
    fn first_without_action(&self) -> Option<usize>
        ensures { result ≡ position (λ p. not (by_action p)) self.now.places.now }
    {
        self.places.iter().position(|place| !is_by_action(*place))
    }

    // The summaries of all places, followed through one place more.
    fn follow_on(&self, summaries: &[Summary]) -> [Summary; MOST_PLACES]
        ensures { (i : ℕ) → i < length self.now.places.now → slice_index_or result i unknown ≡ summary_by (row self.now.places.now i) (λ j. get_or summaries.now j unknown) }
    {
        let mut next = [Summary::default(); MOST_PLACES];
        // by index, since a walk over `iter_mut` tells nothing of what it writes
        for (i, place) in self.places.iter().enumerate() {
            next[i] = Summary::of(*place, summaries);
        }
        next
    }

    // The summaries of all places, in an array, so that no want of memory can stop the trying. A walk through more places
    // than there are comes back, so as many rounds decide.
    fn summarize(&self) -> [Summary; MOST_PLACES]
        requires { AllInside self.now.places.now }
        ensures { Summarizes self.now.places.now (length self.now.places.now) result }
    {
        let mut summaries = [Summary::default(); MOST_PLACES];
        for _round in 0..self.places.len() {
            summaries = self.follow_on(&summaries);
        }
        summaries
    }

    // Tries the places.
    fn try_places(&self, part: usize) -> Result<[Summary; MOST_PLACES], RowsFault>
        ensures { TriedPlaces self.now.places.now part result }
    {
        if let Some(place) = self.first_outside() {
            return Err(RowsFault::Outside { part, place });
        }
        if let Some(place) = self.first_without_action() {
            return Err(RowsFault::NoAction { part, place });
        }
        let summaries = self.summarize();
        let own = &summaries[..self.places.len()];
        if let Some(place) = first_unguarded(own) {
            return Err(RowsFault::Unguarded { part, place });
        }
        if let Some(place) = first_deep(own) {
            return Err(RowsFault::Deep { part, place });
        }
        if let Some(place) = first_with_many_moves(own) {
            return Err(RowsFault::ManyMoves { part, place });
        }
        Ok(summaries)
    }
}

// Tries a module.
#[tactic(auto, unfolding(rows::specs::Opening::module_fault))]
pub fn try_module(
    places: &[Place],
    part: usize,
    row: ModuleRow,
) -> Result<[Summary; MOST_PLACES], RowsFault>
    ensures { Tried places.now part row result }
{
    if part >= MOST_MODULES {
        return Err(RowsFault::ManyModules { part });
    }
    if row.places > MOST_PLACES {
        return Err(RowsFault::ManyPlaces { part });
    }
    let places = places
        .get(row.first..)
        .and_then(|rest| rest.get(..row.places))
        .ok_or(RowsFault::BeyondRows { part })?;
    if row.start >= row.places {
        return Err(RowsFault::NoStart { part });
    }
    Module { places }.try_places(part)
}

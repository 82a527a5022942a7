// Drawing a line from a plan.
ghost use Rattle.std.specs.Prelude.{IfOk};
ghost use Rattle.line_rules.specs.Line.{Drawn};
ghost use Rattle.line_rules.specs.Drawing.{Draws};
ghost use Rattle.line_rules.specs.Swapping.{NoHistorySlows};
ghost use Rattle.line_rules.specs.Cases.{CanBeMet};
ghost use Rattle.line.specs.Meaning.{line_of, wired_so, plans, Ported, Fitting, Drawing};

use super::{Line, MOST_SLOTS, Slot};
use action::{ActionSet, LAST_PORT};
use catalogue::Catalogue;
use line_rules::DrawFault;
use renaming::Renaming;

// A slot as it is planned: a module, by its number in the catalogue, and what its ports 1, 2, .. are to the line.
#[derive(Clone, Copy)]
pub struct SlotPlan<'a> {
    pub holds: usize,
    pub entries: &'a [i8],
}

// The set of the hidden ports, where all of them are ports. A loop, since it ends at the first that is none.
fn port_set(hidden: &[u8]) -> Option<ActionSet>
    ensures { Ported hidden.now result }
{
    let mut set = ActionSet::empty();
    for port in hidden {
        if !(1..=LAST_PORT as u8).contains(port) {
            return None;
        }
        set.insert(*port as i8);
    }
    Some(set)
}

// The slot that is planned: its renaming is tried first, then its module.
fn fitted<C: Catalogue>(catalogue: &C, holds: usize, entries: &[i8]) -> Result<Slot, DrawFault>
    ensures { Fitting (C.Catalogue.meaning catalogue.now) (wired_so holds entries.now) result }
{
    let renaming = Renaming::new(entries)?;
    if holds >= catalogue.modules() {
        return Err(DrawFault::UnknownModule);
    }
    Ok(Slot { holds, renaming })
}

// Draws the line that a plan gives, or tells what is wrong with the plan. Whatever swaps are tried on the line then, it
// is never slower than as drawn, and never comes to a stand.
pub fn draw<C: Catalogue>(
    catalogue: &C,
    slots: &[SlotPlan<'_>],
    hidden: &[u8],
) -> Result<Line, DrawFault>
    ensures answer { Drawing (C.Catalogue.meaning catalogue.now) (plans slots.now) hidden.now result }
    ensures law { Draws (C.Catalogue.meaning catalogue.now) (plans slots.now) hidden.now }
    ensures drawn { IfOk result (λ l. Drawn (C.Catalogue.meaning catalogue.now) (line_of l)) }
    ensures promise { IfOk result (λ l. NoHistorySlows (C.Catalogue.meaning catalogue.now) (line_of l)) }
    ensures possible { CanBeMet }
{
    if slots.is_empty() || slots.len() > MOST_SLOTS {
        return Err(DrawFault::SlotCount);
    }
    let hidden = port_set(hidden).ok_or(DrawFault::HiddenPort)?;
    let blank = Slot {
        holds: 0,
        renaming: Renaming::identity(),
    };
    let mut held = [blank; MOST_SLOTS];
    // by index, since a walk over `iter_mut` tells nothing of what it writes
    for (i, plan) in slots.iter().enumerate() {
        held[i] = fitted(catalogue, plan.holds, plan.entries)?;
    }
    Ok(Line {
        slots: held,
        count: slots.len(),
        hidden,
    })
}

// What the program `swaps` prints of a catalogue: a line of its first modules, and the swaps that are tried in it.
#![tactic(auto)]

ghost use Rattle.std.specs.Prelude.{◌≡◌, length, map, min, IfOk, string_bytes, OnOk};
ghost use Rattle.std.specs.List.{range_with_len};
ghost use Rattle.report.specs.Adding.{Added};
ghost use Rattle.line_rules.specs.Line.{most_slots};
ghost use Rattle.line.specs.Meaning.{line_of};
ghost use Rattle.swaps_text.specs.Text.{trial_line, slot_trials, trials, trial_rows, told, swap_lines};
ghost use Rattle.swaps_text.specs.Trying.{Tried};

use catalogue::Catalogue;
use line::{Line, MOST_SLOTS, SlotPlan, draw};
use line_rules::SwapFault;
use pair_table::PairRow;
use renaming::Renaming;
use std::alloc::{AllocError, Global};

// The rows of the table that each swap is tried with.
const TABLE_ROWS: usize = 4096;

// The line of a swap. Its two cases would be no plainer in a type of their own that prints itself.
fn add_trial(
    out: &mut String,
    slot: usize,
    part: usize,
    outcome: Result<usize, SwapFault>,
) -> Result<(), AllocError>
    ensures { Added out.old out.new (trial_line slot part outcome) result }
{
    match outcome {
        Ok(_) => writeln!(out, "{slot} {part} ok"),
        Err(fault) => writeln!(out, "{slot} {part} {fault}"),
    }
}

// Tries each module in a slot. The line and the table change, the text grows, and the catalogue stays: a struct of the four would
// lend out three `&mut`, and say in its clauses what stays beside what changes.
fn try_slot<C: Catalogue>(
    out: &mut String,
    catalogue: &C,
    line: &mut Line,
    slot: usize,
    table: &mut [PairRow],
) -> Result<(), AllocError>
    ensures { OnOk result (Tried (C.Catalogue.meaning catalogue.now) (line_of line.old) (line_of line.new) (string_bytes out.old) (string_bytes out.new) (slot_trials (length table.old) (length (C.Catalogue.meaning catalogue.now)) slot)) }
{
    let count = catalogue.modules();
    for part in 0..count {
        let outcome = line.swap(catalogue, slot, part, table);
        add_trial(out, slot, part, outcome)?;
    }
    Ok(())
}

// Tries each module in each slot.
fn try_all<C: Catalogue>(
    out: &mut String,
    catalogue: &C,
    line: &mut Line,
    table: &mut [PairRow],
) -> Result<(), AllocError>
    ensures { Added out.old out.new (told (C.Catalogue.meaning catalogue.now) (line_of line.old) (trials (length table.old) (length (C.Catalogue.meaning catalogue.now)) (length (line_of line.old).slots))) result }
{
    let count = line.slots();
    for slot in 0..count {
        try_slot(out, catalogue, line, slot, table)?;
    }
    Ok(())
}

// Each module tried in each slot of a line.
fn trials_text<C: Catalogue>(
    heap: Global,
    catalogue: &C,
    mut line: Line,
) -> Result<String, AllocError>
    ensures { IfOk result (λ s. string_bytes s ≡ told (C.Catalogue.meaning catalogue.now) (line_of line) (trials trial_rows (length (C.Catalogue.meaning catalogue.now)) (length (line_of line).slots))) }
{
    let mut table = vec![in heap; PairRow::default(); TABLE_ROWS]?;
    let mut out = String::new(heap);
    try_all(&mut out, catalogue, &mut line, &mut table)?;
    Ok(out)
}

// The plan of the first modules, as many as a line may have slots, each in the slot with its number and unrenamed.
fn first_plans<'a, C: Catalogue>(
    heap: Global,
    catalogue: &C,
    entries: &'a [i8],
) -> Result<Vec<SlotPlan<'a>>, AllocError>
    ensures { IfOk result (λ v. v.items ≡ map (λ holds. record { holds = holds; entries = entries.entry }) (range_with_len 0 (min (length (C.Catalogue.meaning catalogue.now)) most_slots))) }
{
    let count = catalogue.modules().min(MOST_SLOTS);
    (0..count)
        .map(|holds| SlotPlan { holds, entries })
        .collect(heap)
}

// Draws a line of the first modules and tries each module in each of its slots, a line each; or why it is not drawn.
pub fn swaps_text<C: Catalogue>(heap: Global, catalogue: &C) -> Result<String, AllocError>
    ensures { IfOk result (λ s. string_bytes s ≡ swap_lines (C.Catalogue.meaning catalogue.now)) }
{
    let unrenamed = Renaming::identity();
    let plans = first_plans(heap, catalogue, unrenamed.entries())?;
    match draw(catalogue, &plans, &[]) {
        Ok(drawn) => trials_text(heap, catalogue, drawn),
        Err(fault) => format!(in heap; "draw {fault}\n"),
    }
}

// What the program `bench` prints of a catalogue: its modules, compared.
#![tactic(auto)]

ghost use Rattle.std.specs.Prelude.{◌≡◌, length, IfOk, string_bytes};
ghost use Rattle.action.specs.Lists.{each};
ghost use Rattle.report.specs.Adding.{Added};
ghost use Rattle.report.specs.Text.{numbered};
ghost use Rattle.comparison_text.specs.Text.{answer_line, comparison_lines, comparison_within, comparisons, comparison, row_line};

use catalogue::Catalogue;
use compare::compare;
use pair_table::{CompareFault, Compared, MOST_ROWS, PairRow};
use std::alloc::{AllocError, Global};

// The line of a comparison. Its two cases would be no plainer in a type of their own that prints itself.
fn add_answer(
    out: &mut String,
    new: usize,
    old: usize,
    answer: Result<Compared, CompareFault>,
) -> Result<(), AllocError>
    ensures { Added out.old out.new (answer_line new old answer) result }
{
    match answer {
        Ok(Compared { pairs, rank }) => writeln!(out, "{new} {old} {pairs} {rank}"),
        Err(fault) => writeln!(out, "{new} {old} {fault}"),
    }
}

// The lines of some rows.
fn add_rows(out: &mut String, rows: &[PairRow]) -> Result<(), AllocError>
    ensures { Added out.old out.new (each row_line rows.now) result }
{
    for row in rows {
        writeln!(out, "{row}")?;
    }
    Ok(())
}

// One new module with every old one.
fn add_comparisons<C: Catalogue>(
    out: &mut String,
    catalogue: &C,
    new: usize,
    table: &mut [PairRow],
) -> Result<(), AllocError>
    ensures { Added out.old out.new (comparison_lines (C.Catalogue.meaning catalogue.now) (length table.old) new) result }
{
    let count = catalogue.modules();
    for old in 0..count {
        let answer = compare(catalogue, new, old, table);
        add_answer(out, new, old, answer)?;
    }
    Ok(())
}

// Every new module with every old one.
fn add_all<C: Catalogue>(
    out: &mut String,
    catalogue: &C,
    table: &mut [PairRow],
) -> Result<(), AllocError>
    ensures { Added out.old out.new (numbered (λ new m. comparison_lines (C.Catalogue.meaning catalogue.now) (length table.old) new) 0 (C.Catalogue.meaning catalogue.now)) result }
{
    let count = catalogue.modules();
    for new in 0..count {
        add_comparisons(out, catalogue, new, table)?;
    }
    Ok(())
}

// One new module with one old one, and the rows. Without this function, whose five parameters `comparison_text` makes or has,
// the proof of that one outgrows the memory of a check.
fn add_comparison<C: Catalogue>(
    out: &mut String,
    catalogue: &C,
    new: usize,
    old: usize,
    table: &mut [PairRow],
) -> Result<(), AllocError>
    ensures { Added out.old out.new (comparison_within (C.Catalogue.meaning catalogue.now) (length table.old) new old) result }
{
    let answer = compare(catalogue, new, old, table);
    add_answer(out, new, old, answer)?;
    match answer {
        Ok(found) => add_rows(out, &table[..found.pairs]),
        Err(_) => Ok(()),
    }
}

// Every new module with every old one, a line each: how many pairs there are and the rank, or why they are not compared.
pub fn comparisons_text<C: Catalogue>(heap: Global, catalogue: &C) -> Result<String, AllocError>
    ensures { IfOk result (λ s. string_bytes s ≡ comparisons (C.Catalogue.meaning catalogue.now)) }
{
    let mut table = vec![in heap; PairRow::default(); MOST_ROWS]?;
    let mut lines = String::new(heap);
    add_all(&mut lines, catalogue, &mut table)?;
    Ok(lines)
}

// One new module with one old one: their line, and where they are compared the rows of their pairs, a line each.
pub fn comparison_text<C: Catalogue>(
    heap: Global,
    catalogue: &C,
    new: usize,
    old: usize,
) -> Result<String, AllocError>
    ensures { IfOk result (λ s. string_bytes s ≡ comparison (C.Catalogue.meaning catalogue.now) new old) }
{
    let mut table = vec![in heap; PairRow::default(); MOST_ROWS]?;
    let mut out = String::new(heap);
    add_comparison(&mut out, catalogue, new, old, &mut table)?;
    Ok(out)
}

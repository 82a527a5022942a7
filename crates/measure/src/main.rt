// Measures how long comparing takes: pairs of modules of several shapes, built in memory as a maker's table each.
#![tactic(auto)]

use anyhow::anyhow;
use catalogue::Catalogue;
use compare::compare;
use maker_table::Table;
use module::table_bytes;
use pair_table::{Compared, MOST_ROWS, PairRow};
use shape::{Shape, Side};
use std::env;
use std::rt::{Clock, Env};
use std::time::{Duration, Instant};

mod module;
mod shape;

const USAGE: &str = "measure takes no arguments, or the word time";

// How often each comparison is timed.
const TIMES: usize = 3;

// Whether the arguments ask for times.
fn is_timed(rt: &(impl Env + AllocGlobal)) -> anyhow::Result<bool> {
    let mut words = env::args(rt)?;
    let _program = words.next();
    let Some(word) = words.next() else {
        return Ok(false);
    };
    if word.as_str() != "time" || words.next().is_some() {
        return Err(anyhow!(USAGE));
    }
    Ok(true)
}

// The shortest of some comparisons: what else the machine does can only make one longer.
fn shortest(
    rt: &impl Clock,
    catalogue: &impl Catalogue,
    rows: &mut [PairRow],
) -> anyhow::Result<Duration> {
    let mut least = Duration::MAX;
    for _ in 0..TIMES {
        let start = Instant::now(rt)?;
        compare(catalogue, 0, 1, rows)?;
        least = least.min(start.elapsed(rt)?);
    }
    Ok(least)
}

// Prints the line of a shape. The comparison whose answer is printed comes before those that are timed, and warms up for them.
fn measure(
    rt: &(impl Print + AllocGlobal + Clock),
    shape: Shape,
    is_timed: bool,
) -> anyhow::Result<()> {
    let new = shape.module(rt.alloc(), Side::New)?;
    let old = shape.module(rt.alloc(), Side::Old)?;
    let table = Table::take(rt.alloc(), table_bytes(rt.alloc(), &[new, old])?)?;
    let mut rows = vec![in rt.alloc(); PairRow::default(); MOST_ROWS]?;
    let Compared { pairs, rank } = compare(&table, 0, 1, &mut rows)?;
    print!(rt; "{shape} {pairs} {rank}")?;
    if is_timed {
        let micros = shortest(rt, &table, &mut rows)?.as_micros();
        print!(rt; " {micros}")?;
    }
    println!(rt;)?;
    Ok(())
}

fn main(rt: HostRuntime) -> anyhow::Result<()> {
    let is_timed = is_timed(&rt)?;
    for shape in Shape::ALL {
        measure(&rt, shape, is_timed)?;
    }
    Ok(())
}

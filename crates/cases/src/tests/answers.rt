// What a table answers to each question, also about modules, codes and moves that are not there.
use super::bytes_of;
use catalogue::{Catalogue, Move};
use maker_table::Table;
use std::alloc::Global;
use std::process::Abort;
use std::test::Fail;

// Module 0 has two codes and starts in 1; module 1 moves at the first and the last action; module 2 is nil.
const HEX: &str = "01 0003 \
0016 0002 0001 000b ffff 02 00 01 0001 03 00 0000 0003 0001 00 \
0011 0001 0000 000b 0000 02 e1 01 0000 1f 00 0000 \
0009 0001 0000 0003 0000 00";

fn table(rt: &impl Abort, heap: Global) -> Result<Table, Fail> {
    match Table::take(heap, bytes_of(rt, heap, HEX)?) {
        Ok(table) => Ok(table),
        Err(_) => Err(Fail::new("refused")),
    }
}

const MODULES: [(usize, Option<u32>, Option<u32>); 5] = [
    (0, Some(2), Some(1)),
    (1, Some(1), Some(0)),
    (2, Some(1), Some(0)),
    (3, None, None),
    (usize::MAX, None, None),
];

#[test]
fn modules(rt: HostRuntime) -> Result<(), Fail> {
    let table = table(&rt, rt.alloc())?;
    assert_eq!(rt; table.modules(), 3);
    for (part, codes, start) in MODULES {
        assert_eq!(rt; table.codes(part), codes);
        assert_eq!(rt; table.start(part), start);
    }
    Ok(())
}

const TICKS: [(usize, u32, Option<u32>); 8] = [
    (0, 0, None),
    (0, 1, Some(1)),
    (0, 2, None),
    (0, u32::MAX, None),
    (1, 0, Some(0)),
    (2, 0, Some(0)),
    (2, 1, None),
    (3, 0, None),
];

#[test]
fn ticks(rt: HostRuntime) -> Result<(), Fail> {
    let table = table(&rt, rt.alloc())?;
    for (part, code, tick) in TICKS {
        assert_eq!(rt; table.tick(part, code), tick);
    }
    Ok(())
}

const MOVES: [(usize, u32, usize, Option<(i8, u32)>); 11] = [
    (0, 0, 0, Some((0, 1))),
    (0, 0, 1, Some((3, 0))),
    (0, 0, 2, None),
    (0, 0, usize::MAX, None),
    (0, 1, 0, None),
    (0, 2, 0, None),
    (1, 0, 0, Some((-31, 0))),
    (1, 0, 1, Some((31, 0))),
    (1, 0, 2, None),
    (2, 0, 0, None),
    (3, 0, 0, None),
];

fn pair(step: Option<Move>) -> Option<(i8, u32)> {
    match step {
        None => None,
        Some(step) => Some((step.action, step.target)),
    }
}

#[test]
fn moves(rt: HostRuntime) -> Result<(), Fail> {
    let table = table(&rt, rt.alloc())?;
    for (part, code, number, step) in MOVES {
        assert_eq!(rt; pair(table.move_at(part, code, number)), step);
    }
    Ok(())
}

const URGENT: [(usize, u32, i8, bool); 10] = [
    (0, 0, 0, true),
    (0, 0, 3, false),
    (0, 0, -128, false),
    (0, 1, 0, false),
    (0, 2, 0, false),
    (1, 0, -31, true),
    (1, 0, 31, false),
    (1, 0, -32, false),
    (2, 0, 0, false),
    (3, 0, 0, false),
];

#[test]
fn urgent(rt: HostRuntime) -> Result<(), Fail> {
    let table = table(&rt, rt.alloc())?;
    for (part, code, action, held) in URGENT {
        assert_eq!(rt; table.urgent(part, code).contains(action), held);
    }
    Ok(())
}

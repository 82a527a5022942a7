// Pair tables of many lengths: which suffice, and what is left in the rows.
use super::written::{BOOK, LATE, PROMPT};
use super::{Answer, BookRows, MARK, Row, assert_rows, compared, pair_row};
use maker_table::Table;
use pair_table::PairRow;
use std::alloc::Global;
use std::process::Abort;
use std::test::Fail;

// `?2.w.?1.0` for `?2.?1.0` has four pairs, and the start is dropped in round 2. In a table that is too small no round is tried.
const LENGTHS: [(usize, Answer, &[Row]); 10] = [
    (0, Err(24), &[]),
    (1, Err(24), &[(48, 32, 0)]),
    (2, Err(24), &[(48, 32, 0), (32, 16, 0)]),
    (3, Err(24), &[(48, 32, 0), (32, 16, 0), (0, 0, 0)]),
    (
        4,
        Ok((4, 2)),
        &[(48, 32, 2), (32, 16, 1), (0, 0, 0), (33, 16, 0)],
    ),
    (
        5,
        Ok((4, 2)),
        &[(48, 32, 2), (32, 16, 1), (0, 0, 0), (33, 16, 0)],
    ),
    (
        32_767,
        Ok((4, 2)),
        &[(48, 32, 2), (32, 16, 1), (0, 0, 0), (33, 16, 0)],
    ),
    (
        32_768,
        Ok((4, 2)),
        &[(48, 32, 2), (32, 16, 1), (0, 0, 0), (33, 16, 0)],
    ),
    (
        32_769,
        Ok((4, 2)),
        &[(48, 32, 2), (32, 16, 1), (0, 0, 0), (33, 16, 0)],
    ),
    (
        40_000,
        Ok((4, 2)),
        &[(48, 32, 2), (32, 16, 1), (0, 0, 0), (33, 16, 0)],
    ),
];

#[test]
fn lengths(rt: HostRuntime) -> Result<(), Fail> {
    let rows = BookRows::read(rt.alloc(), BOOK)?;
    for (length, wanted, filled) in LENGTHS {
        let (answer, table) = compared(rt.alloc(), &rows.book(), LATE, PROMPT, length)?;
        assert_eq!(rt; answer, wanted, "{} rows", length);
        assert_rows(&rt, LATE, PROMPT, &table, filled);
    }
    Ok(())
}

// How the states of a ring follow one another.
#[derive(Clone, Copy)]
enum Way {
    // by ticks, with no moves
    Ticks,
    // by one move each, beside a tick that stays
    Moves,
}

// The state behind one, where so many stand in line and then in a ring.
fn behind(state: u16, line: u16, states: u16) -> u16 {
    match state.checked_add(1) {
        Some(next) if next < states => next,
        _ => line,
    }
}

fn push_number(bytes: &mut Vec<u8>, number: usize) -> Result<(), Fail> {
    bytes.extend_from_slice(&u16::try_from(number)?.to_be_bytes())?;
    Ok(())
}

// Adds a module of so many states, of which the first stand in line and the others in a ring.
fn push_ring(bytes: &mut Vec<u8>, way: Way, line: u16, states: u16) -> Result<(), Fail> {
    let record = match way {
        Way::Ticks => 5,
        Way::Moves => 9,
    };
    push_number(bytes, 4 + record * usize::from(states))?;
    bytes.extend_from_slice(&states.to_be_bytes())?;
    push_number(bytes, 0)?;
    for state in 0..states {
        push_number(bytes, record - 2)?;
        let next = behind(state, line, states).to_be_bytes();
        match way {
            Way::Ticks => {
                bytes.extend_from_slice(&next)?;
                bytes.push(0)?;
            }
            Way::Moves => {
                bytes.extend_from_slice(&state.to_be_bytes())?;
                bytes.extend_from_slice(&[1, 7, 0])?;
                bytes.extend_from_slice(&next)?;
            }
        }
    }
    Ok(())
}

fn rings(heap: Global, way: Way, line: u16, new: u16, old: u16) -> Result<Table, Fail> {
    let mut bytes = [1u8, 0, 2].to_vec(heap)?;
    push_ring(&mut bytes, way, line, new)?;
    push_ring(&mut bytes, way, line, old)?;
    Ok(Table::take(heap, bytes)?)
}

// Asserts that the first rows hold the pairs that follow one another from the starts on, which no round drops, and that those
// behind are as they were.
fn assert_ring_rows(
    rt: &impl Abort,
    table: &[PairRow],
    filled: usize,
    line: u16,
    new: u16,
    old: u16,
) {
    let mut pair = (0, 0);
    for (i, found) in table.iter().enumerate() {
        let row = if i < filled {
            (u32::from(pair.0), u32::from(pair.1), 0)
        } else {
            MARK
        };
        assert_eq!(rt; *found, pair_row(row), "row {}", i);
        pair = (behind(pair.0, line, new), behind(pair.1, line, old));
    }
}

// How many states stand in line in both modules; how many states the new one and the old one have; how many rows are lent; the
// answer; how many rows are filled. Behind the line the pairs are as many as the product of the lengths of the rings, which have
// no common divisor.
const RINGS: [(u16, u16, u16, usize, Answer, usize); 13] = [
    // 127 * 258 = 32,766
    (0, 127, 258, 32_765, Err(24), 32_765),
    (0, 127, 258, 32_766, Ok((32_766, 0)), 32_766),
    (0, 127, 258, 32_767, Ok((32_766, 0)), 32_766),
    (0, 127, 258, 40_000, Ok((32_766, 0)), 32_766),
    // 2 + 127 * 258 = 32,768
    (2, 129, 260, 32_767, Err(24), 32_767),
    (2, 129, 260, 32_768, Ok((32_768, 0)), 32_768),
    (2, 129, 260, 40_000, Ok((32_768, 0)), 32_768),
    // 3 + 127 * 258 = 32,769
    (3, 130, 261, 32_768, Err(24), 32_768),
    (3, 130, 261, 32_769, Err(24), 32_768),
    (3, 130, 261, 40_000, Err(24), 32_768),
    // 182 * 181 = 32,942
    (0, 182, 181, 32_768, Err(24), 32_768),
    (0, 182, 181, 40_000, Err(24), 32_768),
    // 4,095 * 4,096
    (0, 4_095, 4_096, 40_000, Err(24), 32_768),
];

#[test]
fn most_rows(rt: HostRuntime) -> Result<(), Fail> {
    for (line, new, old, length, wanted, filled) in RINGS {
        for way in [Way::Ticks, Way::Moves] {
            let modules = rings(rt.alloc(), way, line, new, old)?;
            let (answer, table) = compared(rt.alloc(), &modules, 0, 1, length)?;
            assert_eq!(rt; answer, wanted, "{} for {} in {} rows", new, old, length);
            assert_ring_rows(&rt, &table, filled, line, new, old);
        }
    }
    Ok(())
}

// The modules of a book, compared.
use super::{BookRows, Case, assert_cases};
use std::test::Fail;

pub const BOOK: &str = "module Slow { S = w.?1.S; } module Fast { F = ?1.F; } \
module Late { X = ?2.w.?1.0; } module Prompt { X = ?2.?1.0; } \
module Soon { X = w.i.0; } module Now { X = i.0; } \
module One { X = ?1.0; } module Sent { X = !1.0; } \
module Both { X = ?1.0 + ?2.0; } module Lazy { X = w.?1.0 + ?2.0; } \
module Then { X = ?1.?2.0; } module Fork { X = ?1.0 + ?1.?2.0; } module Turned { X = ?1.?2.0 + ?1.0; } \
module Calm { X = i.0 + w.?1.0; } module Brisk { X = i.0 + ?1.0; } \
module Waits { X = w.w.?1.0; } module Wait { X = w.?1.0; } module Rest { X = 0; }";

// The numbers of its modules.
pub const SLOW: usize = 0;

pub const FAST: usize = 1;

pub const LATE: usize = 2;

pub const PROMPT: usize = 3;

pub const SOON: usize = 4;

pub const NOW: usize = 5;

pub const ONE: usize = 6;

pub const SENT: usize = 7;

pub const BOTH: usize = 8;

const LAZY: usize = 9;

pub const THEN: usize = 10;

const FORK: usize = 11;

const TURNED: usize = 12;

const CALM: usize = 13;

const BRISK: usize = 14;

const WAITS: usize = 15;

const WAIT: usize = 16;

const REST: usize = 17;

// How many they are.
pub const WRITTEN: usize = 18;

// A code is 16 times a place, and an age.
pub const CASES: [Case<'static>; 29] = [
    (
        FAST,
        SLOW,
        &[(16, 32, 0), (0, 0, 0), (16, 33, 0), (0, 1, 0)],
    ),
    (
        SLOW,
        FAST,
        &[(32, 16, 1), (0, 0, 1), (33, 16, 2), (1, 0, 2)],
    ),
    (FAST, FAST, &[(16, 16, 0), (0, 0, 0)]),
    (
        SLOW,
        SLOW,
        &[(32, 32, 0), (0, 0, 0), (33, 33, 0), (1, 1, 0)],
    ),
    // the start is dropped only after the pair behind ?2 has been
    (
        LATE,
        PROMPT,
        &[(48, 32, 2), (32, 16, 1), (0, 0, 0), (33, 16, 0)],
    ),
    (
        PROMPT,
        LATE,
        &[(32, 48, 0), (16, 32, 0), (0, 0, 0), (16, 33, 0)],
    ),
    // or after the pair that time leads to
    (
        WAITS,
        WAIT,
        &[(48, 32, 2), (0, 0, 0), (49, 33, 1), (50, 33, 0)],
    ),
    (
        WAIT,
        WAITS,
        &[(32, 48, 0), (0, 0, 0), (33, 49, 0), (33, 50, 0)],
    ),
    // the new one ticks, and the old one does not; and the other way round
    (SOON, NOW, &[(32, 16, 1), (0, 0, 0)]),
    (NOW, SOON, &[(16, 32, 0), (0, 0, 0)]),
    // both tick once, and then neither does
    (SOON, SOON, &[(32, 32, 0), (0, 0, 0), (33, 33, 0)]),
    (NOW, NOW, &[(16, 16, 0), (0, 0, 0)]),
    // a move of the new one without a partner, and one of the old one
    (BOTH, ONE, &[(64, 16, 1), (0, 0, 0)]),
    (ONE, BOTH, &[(16, 64, 1), (0, 0, 0)]),
    (ONE, REST, &[(16, 0, 1)]),
    (REST, ONE, &[(0, 16, 1)]),
    (ONE, SENT, &[(16, 16, 1)]),
    (REST, SOON, &[(0, 32, 1), (0, 33, 1)]),
    (REST, REST, &[(0, 0, 0)]),
    // one of two urgent actions is not urgent in the new one
    (
        LAZY,
        BOTH,
        &[(80, 64, 1), (0, 0, 0), (48, 32, 0), (81, 64, 0)],
    ),
    (
        BOTH,
        LAZY,
        &[(64, 80, 0), (0, 0, 0), (32, 48, 0), (64, 81, 0)],
    ),
    // several moves by one action, of the new one, of the old one, and of both
    (
        FORK,
        THEN,
        &[(80, 32, 2), (0, 16, 1), (48, 16, 0), (32, 0, 0)],
    ),
    (
        THEN,
        FORK,
        &[(32, 80, 2), (16, 0, 1), (16, 48, 0), (0, 32, 0)],
    ),
    (
        FORK,
        FORK,
        &[
            (80, 80, 0),
            (0, 0, 0),
            (0, 48, 1),
            (48, 0, 1),
            (48, 48, 0),
            (32, 32, 0),
        ],
    ),
    (
        FORK,
        TURNED,
        &[
            (80, 80, 0),
            (0, 16, 1),
            (0, 48, 0),
            (48, 16, 0),
            (48, 48, 1),
            (32, 0, 0),
        ],
    ),
    (
        TURNED,
        FORK,
        &[
            (80, 80, 0),
            (16, 0, 1),
            (16, 48, 0),
            (48, 0, 0),
            (48, 48, 1),
            (0, 32, 0),
        ],
    ),
    // where the new one does not tick, nothing is asked of the urgent actions
    (CALM, BRISK, &[(80, 64, 0), (0, 0, 0), (32, 32, 0)]),
    (BRISK, CALM, &[(64, 80, 0), (0, 0, 0), (32, 32, 0)]),
    (CALM, NOW, &[(80, 16, 1), (0, 0, 0)]),
];

#[test]
fn written(rt: HostRuntime) -> Result<(), Fail> {
    let rows = BookRows::read(rt.alloc(), BOOK)?;
    assert_cases(&rt, rt.alloc(), &rows.book(), 0, &CASES)
}

// Which plans are drawn, and the number of those that are not, also where several things are wrong.
use super::{
    BOOK, CROSSED, EITHER, FAST, NOW, PLAIN, Planned, Rows, SLOW, TURNED, UNKNOWN, modules_of,
    plans,
};
use line::draw;
use std::test::Fail;

// One entry too few, and one too many.
const SHORT: &[i8] = &[
    1, 2, 3, 4, 5, 6, 7, 8, 9, 10, 11, 12, 13, 14, 15, 16, 17, 18, 19, 20, 21, 22, 23, 24, 25, 26,
    27, 28, 29, 30,
];

const LONG: &[i8] = &[
    1, 2, 3, 4, 5, 6, 7, 8, 9, 10, 11, 12, 13, 14, 15, 16, 17, 18, 19, 20, 21, 22, 23, 24, 25, 26,
    27, 28, 29, 30, 31, 31,
];

// The last entry is the internal event, or lies beyond 31 either way.
const INTERNAL: &[i8] = &[
    1, 2, 3, 4, 5, 6, 7, 8, 9, 10, 11, 12, 13, 14, 15, 16, 17, 18, 19, 20, 21, 22, 23, 24, 25, 26,
    27, 28, 29, 30, 0,
];

const BEYOND: &[i8] = &[
    1, 2, 3, 4, 5, 6, 7, 8, 9, 10, 11, 12, 13, 14, 15, 16, 17, 18, 19, 20, 21, 22, 23, 24, 25, 26,
    27, 28, 29, 30, 32,
];

const BELOW: &[i8] = &[
    1, 2, 3, 4, 5, 6, 7, 8, 9, 10, 11, 12, 13, 14, 15, 16, 17, 18, 19, 20, 21, 22, 23, 24, 25, 26,
    27, 28, 29, 30, -32,
];

// The ports 3 and 4 are sent to one, by other signs.
const SHARED: &[i8] = &[
    1, 2, -4, 4, 5, 6, 7, 8, 9, 10, 11, 12, 13, 14, 15, 16, 17, 18, 19, 20, 21, 22, 23, 24, 25, 26,
    27, 28, 29, 30, 31,
];

// The first two ports are sent to one, and the last entry is the internal event.
const SHARED_AND_INTERNAL: &[i8] = &[
    1, 1, 3, 4, 5, 6, 7, 8, 9, 10, 11, 12, 13, 14, 15, 16, 17, 18, 19, 20, 21, 22, 23, 24, 25, 26,
    27, 28, 29, 30, 0,
];

// The first two ports are sent to one, and an entry is missing.
const SHARED_AND_SHORT: &[i8] = &[
    1, 1, 3, 4, 5, 6, 7, 8, 9, 10, 11, 12, 13, 14, 15, 16, 17, 18, 19, 20, 21, 22, 23, 24, 25, 26,
    27, 28, 29, 30,
];

const SIXTEEN: &[Planned] = &[(FAST, PLAIN); 16];

const SEVENTEEN: &[Planned] = &[(FAST, PLAIN); 17];

const SEVENTEEN_SHORT: &[Planned] = &[(UNKNOWN, SHORT); 17];

const LAST_UNKNOWN: &[Planned] = &[
    (SLOW, PLAIN),
    (SLOW, PLAIN),
    (SLOW, PLAIN),
    (SLOW, PLAIN),
    (SLOW, PLAIN),
    (SLOW, PLAIN),
    (SLOW, PLAIN),
    (SLOW, PLAIN),
    (SLOW, PLAIN),
    (SLOW, PLAIN),
    (SLOW, PLAIN),
    (SLOW, PLAIN),
    (SLOW, PLAIN),
    (SLOW, PLAIN),
    (SLOW, PLAIN),
    (UNKNOWN, PLAIN),
];

// A port has eight bits without a sign, so what would be -1 is 255.
const REFUSED: [(&str, &[Planned], &[u8], u8); 34] = [
    ("no slot", &[], &[], 18),
    ("17 slots", SEVENTEEN, &[], 18),
    ("hidden 0", &[(SLOW, PLAIN)], &[0], 20),
    ("hidden 32", &[(SLOW, PLAIN)], &[32], 20),
    ("hidden 127", &[(SLOW, PLAIN)], &[127], 20),
    ("hidden 225, -31 with a sign", &[(SLOW, PLAIN)], &[225], 20),
    ("hidden 255, -1 with a sign", &[(SLOW, PLAIN)], &[255], 20),
    ("hidden 32 last", &[(SLOW, PLAIN)], &[1, 31, 32], 20),
    ("hidden 0 first", &[(SLOW, PLAIN)], &[0, 1, 31], 20),
    ("no entry", &[(SLOW, &[])], &[], 16),
    ("30 entries", &[(SLOW, SHORT)], &[], 16),
    ("32 entries", &[(SLOW, LONG)], &[], 16),
    ("an entry 0", &[(SLOW, INTERNAL)], &[], 16),
    ("an entry 32", &[(SLOW, BEYOND)], &[], 16),
    ("an entry -32", &[(SLOW, BELOW)], &[], 16),
    ("3 and 4 sent to one", &[(SLOW, SHARED)], &[], 17),
    ("module 9", &[(UNKNOWN, PLAIN)], &[], 19),
    (
        "the largest number for a module",
        &[(usize::MAX, PLAIN)],
        &[],
        19,
    ),
    ("module 9 in the last slot", LAST_UNKNOWN, &[], 19),
    // pairs of faults: 18 before all others
    ("18 before 20, no slot", &[], &[0], 18),
    ("18 before 20, 17 slots", SEVENTEEN, &[32], 18),
    ("18 before 16 and 19", SEVENTEEN_SHORT, &[], 18),
    // 20 before what is wrong with a slot
    ("20 before 16", &[(SLOW, SHORT)], &[0], 20),
    ("20 before 17", &[(SLOW, SHARED)], &[32], 20),
    ("20 before 19", &[(UNKNOWN, PLAIN)], &[1, 32], 20),
    // within a slot
    (
        "16 before 17, by an entry",
        &[(SLOW, SHARED_AND_INTERNAL)],
        &[],
        16,
    ),
    (
        "16 before 17, by the length",
        &[(SLOW, SHARED_AND_SHORT)],
        &[],
        16,
    ),
    ("16 before 19", &[(UNKNOWN, SHORT)], &[], 16),
    ("17 before 19", &[(UNKNOWN, SHARED)], &[], 17),
    // slot by slot
    (
        "19 of slot 0 before 16 of slot 1",
        &[(UNKNOWN, PLAIN), (SLOW, SHORT)],
        &[],
        19,
    ),
    (
        "19 of slot 0 before 17 of slot 1",
        &[(UNKNOWN, PLAIN), (SLOW, SHARED)],
        &[],
        19,
    ),
    (
        "17 of slot 0 before 16 of slot 1",
        &[(SLOW, SHARED), (SLOW, SHORT)],
        &[],
        17,
    ),
    (
        "16 of slot 0 before 19 of slot 1",
        &[(SLOW, INTERNAL), (UNKNOWN, PLAIN)],
        &[],
        16,
    ),
    (
        "17 of slot 1 behind a good slot",
        &[(SLOW, PLAIN), (SLOW, SHARED)],
        &[],
        17,
    ),
];

#[test]
fn refused(rt: HostRuntime) -> Result<(), Fail> {
    let rows = Rows::of(rt.alloc(), BOOK)?;
    let book = rows.book();
    for (name, slots, hidden, number) in REFUSED {
        let plans = plans(rt.alloc(), slots)?;
        let told = draw(&book, &plans, hidden)
            .err()
            .map(|fault| fault.number());
        assert_eq!(rt; told, Some(number), "{}", name);
    }
    Ok(())
}

const TAKEN: [(&str, &[Planned], &[u8], &[usize]); 6] = [
    ("one slot", &[(SLOW, PLAIN)], &[], &[SLOW]),
    ("the last module", &[(NOW, PLAIN)], &[], &[NOW]),
    ("16 slots", SIXTEEN, &[], &[FAST; 16]),
    ("hidden 1 and 31", &[(SLOW, PLAIN)], &[1, 31], &[SLOW]),
    ("hidden 7 twice", &[(SLOW, PLAIN)], &[7, 7], &[SLOW]),
    (
        "slots in their order, each wired otherwise",
        &[(EITHER, CROSSED), (SLOW, TURNED), (FAST, PLAIN)],
        &[2],
        &[EITHER, SLOW, FAST],
    ),
];

#[test]
fn taken(rt: HostRuntime) -> Result<(), Fail> {
    let rows = Rows::of(rt.alloc(), BOOK)?;
    let book = rows.book();
    for (name, slots, hidden, modules) in TAKEN {
        let plans = plans(rt.alloc(), slots)?;
        let Ok(line) = draw(&book, &plans, hidden) else {
            return Err(Fail::new(name));
        };
        assert_eq!(rt; line.slots(), slots.len(), "{}", name);
        assert_eq!(rt;
            modules_of(rt.alloc(), &line)?.as_slice(),
            modules,
            "{}",
            name
        );
    }
    Ok(())
}

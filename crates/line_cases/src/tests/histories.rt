// A short history of swaps, some accepted and some refused, and the line after each.
use super::{
    BOOK, DEEP, FAST, FLAT, Outcome, PLAIN, RECEIVER, Rows, SENDER, SLOW, Told, UNKNOWN,
    check_time, drawn, lent_rows, modules_of, outcome_of,
};
use std::test::Fail;

const AT_FIRST: Told = Ok((true, &[2]));

// Once Fast is in, it meets Sender at once.
const WITH_FAST: Told = Ok((false, &[0, 2]));

// The slot, the new module, how many rows are lent, and the answer; then the line's modules, its start, and the time there.
const STEPS: [(usize, usize, usize, Outcome, &[usize], &[u32], Told); 12] = [
    (
        0,
        FAST,
        3,
        Err((24, 0)),
        &[SLOW, DEEP, SENDER],
        &[32, 48, 16],
        AT_FIRST,
    ),
    (
        0,
        FAST,
        9,
        Ok(4),
        &[FAST, DEEP, SENDER],
        &[16, 48, 16],
        WITH_FAST,
    ),
    (
        0,
        SLOW,
        9,
        Err((25, 1)),
        &[FAST, DEEP, SENDER],
        &[16, 48, 16],
        WITH_FAST,
    ),
    (
        3,
        FAST,
        9,
        Err((21, 0)),
        &[FAST, DEEP, SENDER],
        &[16, 48, 16],
        WITH_FAST,
    ),
    (
        1,
        FLAT,
        9,
        Ok(4),
        &[FAST, FLAT, SENDER],
        &[16, 32, 16],
        WITH_FAST,
    ),
    (
        1,
        DEEP,
        9,
        Err((25, 2)),
        &[FAST, FLAT, SENDER],
        &[16, 32, 16],
        WITH_FAST,
    ),
    (
        2,
        RECEIVER,
        9,
        Err((25, 1)),
        &[FAST, FLAT, SENDER],
        &[16, 32, 16],
        WITH_FAST,
    ),
    (
        1,
        UNKNOWN,
        9,
        Err((23, 0)),
        &[FAST, FLAT, SENDER],
        &[16, 32, 16],
        WITH_FAST,
    ),
    (
        0,
        FAST,
        2,
        Ok(2),
        &[FAST, FLAT, SENDER],
        &[16, 32, 16],
        WITH_FAST,
    ),
    (
        0,
        SLOW,
        3,
        Err((24, 0)),
        &[FAST, FLAT, SENDER],
        &[16, 32, 16],
        WITH_FAST,
    ),
    (
        1,
        FLAT,
        3,
        Ok(3),
        &[FAST, FLAT, SENDER],
        &[16, 32, 16],
        WITH_FAST,
    ),
    (
        0,
        SLOW,
        4,
        Err((25, 1)),
        &[FAST, FLAT, SENDER],
        &[16, 32, 16],
        WITH_FAST,
    ),
];

// Port 1 is hidden. At first Slow urges nothing, Deep 2 and Sender -1.
#[test]
fn history(rt: HostRuntime) -> Result<(), Fail> {
    let rows = Rows::of(rt.alloc(), BOOK)?;
    let book = rows.book();
    let slots = [(SLOW, PLAIN), (DEEP, PLAIN), (SENDER, PLAIN)];
    let mut line = drawn(rt.alloc(), &book, &slots, &[1])?;
    check_time(&rt, &book, &line, &[32, 48, 16], AT_FIRST, "as drawn");
    for (step, (slot, new, lent, outcome, modules, start, told)) in STEPS.into_iter().enumerate() {
        let mut table = lent_rows(rt.alloc(), lent)?;
        let answer = line.swap(&book, slot, new, &mut table);
        assert_eq!(rt; outcome_of(answer), outcome, "step {}", step);
        assert_eq!(rt;
            modules_of(rt.alloc(), &line)?.as_slice(),
            modules,
            "step {}",
            step
        );
        check_time(&rt, &book, &line, start, told, "a step");
    }
    Ok(())
}

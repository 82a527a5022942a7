// What time does in lines: whether they tick, and what is urgent.
use super::{
    BOOK, CROSSED, DEEP, EITHER, FAST, FLAT, LATER, NOW, PLAIN, Planned, RECEIVER, Rows, SENDER,
    SLOW, TURNED, Told, check_time, drawn,
};
use std::alloc::Global;
use std::process::Abort;
use std::test::Fail;

const ALL_PORTS: &[u8] = &[
    1, 2, 3, 4, 5, 6, 7, 8, 9, 10, 11, 12, 13, 14, 15, 16, 17, 18, 19, 20, 21, 22, 23, 24, 25, 26,
    27, 28, 29, 30, 31,
];

const HALL: &[Planned] = &[(SENDER, PLAIN), (RECEIVER, PLAIN)];

const THREE: &[Planned] = &[(SENDER, PLAIN), (FLAT, PLAIN), (RECEIVER, PLAIN)];

// What is told of a line of the book's modules in a state.
fn check_line(
    rt: &impl Abort,
    heap: Global,
    slots: &[Planned],
    hidden: &[u8],
    state: &[u32],
    told: Told,
    name: &str,
) -> Result<(), Fail> {
    let rows = Rows::of(heap, BOOK)?;
    let book = rows.book();
    let line = drawn(heap, &book, slots, hidden)?;
    check_time(rt, &book, &line, state, told, name);
    Ok(())
}

// Of the slots' modules: Sender starts in 16, where -1 is urgent. Receiver starts in 32, where nothing is urgent, and ticks to
// 33, where 1 is. Either starts in 64, where -1 and 1 are urgent. Flat starts in 32, where 2 is urgent, and has the place of
// `?1.0` at 16. Later starts in 32 and ticks to 33, where the internal event is urgent, as it is in 16, the start of Now.
const MEETINGS: [(&str, &[Planned], &[u8], &[u32], Told); 18] = [
    // the slots `!1.0` and `w.?1.0`, port 1 hidden
    ("a hall, hidden", HALL, &[1], &[16, 32], Ok((true, &[]))),
    (
        "a hall, hidden, a tick later",
        HALL,
        &[1],
        &[16, 33],
        Ok((false, &[0])),
    ),
    (
        "a hall, hidden, at its end",
        HALL,
        &[1],
        &[0, 0],
        Ok((true, &[])),
    ),
    // .. not hidden, and another port hidden
    ("a hall", HALL, &[], &[16, 32], Ok((true, &[-1]))),
    (
        "a hall, a tick later",
        HALL,
        &[],
        &[16, 33],
        Ok((false, &[-1, 0, 1])),
    ),
    (
        "a hall, 2 hidden",
        HALL,
        &[2, 31],
        &[16, 33],
        Ok((false, &[-1, 0, 1])),
    ),
    // the receiver alone is late
    (
        "a hall, its parcel sent",
        HALL,
        &[],
        &[0, 33],
        Ok((true, &[1])),
    ),
    // the actions of one port do not meet within a slot
    (
        "either alone",
        &[(EITHER, PLAIN)],
        &[],
        &[64],
        Ok((true, &[-1, 1])),
    ),
    (
        "either alone, hidden",
        &[(EITHER, PLAIN)],
        &[1],
        &[64],
        Ok((true, &[])),
    ),
    (
        "either alone, 2 hidden",
        &[(EITHER, PLAIN)],
        &[2],
        &[64],
        Ok((true, &[-1, 1])),
    ),
    (
        "either beside a slot of other ports",
        &[(EITHER, PLAIN), (FLAT, PLAIN)],
        &[],
        &[64, 32],
        Ok((true, &[-1, 1, 2])),
    ),
    // .. but two slots with one module do, and neither has to be the first
    (
        "either twice",
        &[(EITHER, PLAIN), (EITHER, PLAIN)],
        &[1],
        &[64, 64],
        Ok((false, &[0])),
    ),
    (
        "slots 0 and 2 meet",
        THREE,
        &[],
        &[16, 32, 33],
        Ok((false, &[-1, 0, 1, 2])),
    ),
    (
        "slots 0 and 2 do not meet yet",
        THREE,
        &[],
        &[16, 32, 32],
        Ok((true, &[-1, 2])),
    ),
    (
        "slots 1 and 2 do not meet",
        THREE,
        &[],
        &[0, 16, 33],
        Ok((true, &[1])),
    ),
    (
        "slots 0 and 1 meet",
        THREE,
        &[1],
        &[16, 16, 32],
        Ok((false, &[0])),
    ),
    (
        "the receiver before the sender",
        &[(RECEIVER, PLAIN), (SENDER, PLAIN)],
        &[1],
        &[33, 16],
        Ok((false, &[0])),
    ),
    (
        "two senders",
        &[(SENDER, PLAIN), (SENDER, PLAIN)],
        &[],
        &[16, 16],
        Ok((true, &[-1])),
    ),
];

#[test]
fn meetings(rt: HostRuntime) -> Result<(), Fail> {
    for (name, slots, hidden, state, told) in MEETINGS {
        check_line(&rt, rt.alloc(), slots, hidden, state, told, name)?;
    }
    Ok(())
}

const WIRINGS: [(&str, &[Planned], &[u8], &[u32], Told); 10] = [
    // renamed slots
    (
        "sends on 2",
        &[(SENDER, CROSSED)],
        &[],
        &[16],
        Ok((true, &[-2])),
    ),
    (
        "turned to receive",
        &[(SENDER, TURNED)],
        &[],
        &[16],
        Ok((true, &[1])),
    ),
    (
        "either, turned",
        &[(EITHER, TURNED)],
        &[],
        &[64],
        Ok((true, &[-1, 1])),
    ),
    (
        "one crossed, so that they miss each other",
        &[(SENDER, CROSSED), (RECEIVER, PLAIN)],
        &[],
        &[16, 33],
        Ok((true, &[-2, 1])),
    ),
    (
        "both crossed",
        &[(SENDER, CROSSED), (RECEIVER, CROSSED)],
        &[],
        &[16, 33],
        Ok((false, &[-2, 0, 2])),
    ),
    (
        "crossed, so that they meet on 2",
        &[(SENDER, CROSSED), (FLAT, PLAIN)],
        &[2],
        &[16, 32],
        Ok((false, &[0])),
    ),
    (
        "two receivers, one turned",
        &[(RECEIVER, TURNED), (RECEIVER, PLAIN)],
        &[],
        &[33, 33],
        Ok((false, &[-1, 0, 1])),
    ),
    (
        "a sender turned beside a receiver",
        &[(SENDER, TURNED), (RECEIVER, PLAIN)],
        &[],
        &[16, 33],
        Ok((true, &[1])),
    ),
    // hidden are ports of the line, not of the slot
    (
        "sends on 2, 1 hidden",
        &[(SENDER, CROSSED)],
        &[1],
        &[16],
        Ok((true, &[-2])),
    ),
    (
        "sends on 2, 2 hidden",
        &[(SENDER, CROSSED)],
        &[2],
        &[16],
        Ok((true, &[])),
    ),
];

#[test]
fn wirings(rt: HostRuntime) -> Result<(), Fail> {
    for (name, slots, hidden, state, told) in WIRINGS {
        check_line(&rt, rt.alloc(), slots, hidden, state, told, name)?;
    }
    Ok(())
}

const STATES: [(&str, &[Planned], &[u8], &[u32], Told); 14] = [
    // the internal event is never dropped
    (
        "now, all hidden",
        &[(NOW, PLAIN)],
        ALL_PORTS,
        &[16],
        Ok((false, &[0])),
    ),
    (
        "a hall, all hidden",
        HALL,
        ALL_PORTS,
        &[16, 33],
        Ok((false, &[0])),
    ),
    ("later", &[(LATER, PLAIN)], &[], &[32], Ok((true, &[]))),
    (
        "later, a tick later",
        &[(LATER, PLAIN)],
        &[],
        &[33],
        Ok((false, &[0])),
    ),
    (
        "one slot that does not tick",
        &[(SLOW, PLAIN), (NOW, PLAIN), (FAST, PLAIN)],
        &[],
        &[32, 16, 16],
        Ok((false, &[0, 1])),
    ),
    // ages that are not reached, up to the last code
    (
        "the last code of a receiver",
        &[(RECEIVER, PLAIN)],
        &[],
        &[47],
        Ok((true, &[1])),
    ),
    (
        "nil at age 15",
        &[(DEEP, PLAIN)],
        &[],
        &[15],
        Ok((true, &[])),
    ),
    // no states
    (
        "one code past the last",
        &[(RECEIVER, PLAIN)],
        &[],
        &[48],
        Err(26),
    ),
    (
        "the largest number for a code",
        &[(RECEIVER, PLAIN)],
        &[],
        &[u32::MAX],
        Err(26),
    ),
    ("no codes", HALL, &[1], &[], Err(26)),
    ("a list too short", HALL, &[1], &[16], Err(26)),
    ("a list too long", HALL, &[1], &[16, 32, 0], Err(26)),
    ("no code of slot 0", HALL, &[1], &[32, 32], Err(26)),
    ("no code of slot 1", HALL, &[1], &[16, 48], Err(26)),
];

#[test]
fn states(rt: HostRuntime) -> Result<(), Fail> {
    for (name, slots, hidden, state, told) in STATES {
        check_line(&rt, rt.alloc(), slots, hidden, state, told, name)?;
    }
    Ok(())
}

// The modules of a maker's table, compared: the first six of the book, with the states alone that can be reached.
use super::written::{FAST, LATE, NOW, PROMPT, SLOW, SOON};
use super::{Case, assert_cases, table};
use std::test::Fail;

pub const TABLE: &str = "01 0006 \
0028 0004 0000 0007 0001 01 01 00 0002 0007 0001 01 01 01 0002 0007 0003 01 01 00 0002 0007 0003 01 01 01 0002 \
0016 0002 0000 0007 0000 01 01 01 0001 0007 0001 01 01 01 0001 \
0024 0004 0000 0007 0000 01 02 01 0001 0007 0002 01 01 00 0003 0007 0002 01 01 01 0003 0003 0003 00 \
001b 0003 0000 0007 0000 01 02 01 0001 0007 0001 01 01 01 0002 0003 0002 00 \
001b 0003 0000 0007 0001 01 00 00 0002 0007 ffff 01 00 01 0002 0003 0002 00 \
0012 0002 0000 0007 ffff 01 00 01 0001 0003 0001 00";

// How many modules it has.
pub const MADE: usize = 6;

// As in the book, but for the codes.
pub const CASES: [Case<'static>; 8] = [
    (FAST, SLOW, &[(0, 0, 0), (1, 2, 0), (0, 1, 0), (1, 3, 0)]),
    (SLOW, FAST, &[(0, 0, 1), (2, 1, 1), (1, 0, 2), (3, 1, 2)]),
    (LATE, PROMPT, &[(0, 0, 2), (1, 1, 1), (3, 2, 0), (2, 1, 0)]),
    (PROMPT, LATE, &[(0, 0, 0), (1, 1, 0), (2, 3, 0), (1, 2, 0)]),
    (SOON, NOW, &[(0, 0, 1), (2, 1, 0)]),
    (NOW, SOON, &[(0, 0, 0), (1, 2, 0)]),
    (NOW, NOW, &[(0, 0, 0), (1, 1, 0)]),
    (SLOW, LATE, &[(0, 0, 1), (1, 0, 1)]),
];

#[test]
fn made(rt: HostRuntime) -> Result<(), Fail> {
    let modules = table(rt.alloc(), TABLE)?;
    assert_cases(&rt, rt.alloc(), &modules, 0, &CASES)
}

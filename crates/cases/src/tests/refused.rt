// Tables that are refused, each with the number and the place of its refusal.
use super::{bytes_of, refusal};
use std::test::Fail;

// In a table of one module the module's length stands at byte 3, its number of states at 5 and its start at 7. The
// length of the first state stands at 9, its tick at 11, its number of moves at 13 and its first move at 14.
const REFUSED: [(&str, u8, usize); 70] = [
    // no byte 01 in front, whatever follows
    ("", 11, 0),
    ("00", 11, 0),
    ("02 0000", 11, 0),
    ("00 ffff", 11, 0),
    // the number of modules: cut off, or too large, whatever follows
    ("01", 12, 1),
    ("01 00", 12, 1),
    ("01 0041", 13, 1),
    ("01 ffff 0004 0000 0000", 13, 1),
    // the length of a module: cut off, or past the file, whatever stands in the module
    ("01 0001", 12, 3),
    ("01 0001 00", 12, 3),
    ("01 0040", 12, 3),
    ("01 0001 0001", 12, 3),
    ("01 0001 0004 0000", 12, 3),
    ("01 0001 000a 0001 0000 0003 0000 00", 12, 3),
    ("01 0001 ffff 0001 0000 0003 0000 00", 12, 3),
    // the number of states: past the module, or not 1 to 4,096, whatever the start is
    ("01 0001 0000", 12, 5),
    ("01 0001 0001 00", 12, 5),
    ("01 0001 0000 0001 0000 0003 0000 00", 12, 5),
    ("01 0001 0002 0000", 13, 5),
    ("01 0001 0002 1001", 13, 5),
    ("01 0001 0009 0000 0005 0003 0000 00", 13, 5),
    ("01 0001 0009 ffff 0000 0003 0000 00", 13, 5),
    // the start: past the module, or no state, whatever the states are
    ("01 0001 0002 0001", 12, 7),
    ("01 0001 0003 0001 00", 12, 7),
    ("01 0001 0004 0001 0001", 14, 7),
    ("01 0001 0009 0001 ffff 0002 0000 00", 14, 7),
    // the length of a state: past the module, under 3, or not that of its moves, whatever the tick is
    ("01 0001 0004 0001 0000", 12, 9),
    ("01 0001 0005 0001 0000 00", 12, 9),
    ("01 0001 0006 0001 0000 0000", 12, 9),
    ("01 0001 0006 0001 0000 0003", 12, 9),
    ("01 0001 0008 0001 0000 0003 0000 00", 12, 9),
    ("01 0001 0009 0001 0000 0002 0000 00", 12, 9),
    ("01 0001 0009 0001 0000 0004 0000 00", 12, 9),
    ("01 0001 0009 0001 0000 ffff 0000 00", 12, 9),
    ("01 0001 000a 0001 0000 0004 0005 00 00", 12, 9),
    ("01 0001 0009 0001 0000 0003 0000 01", 12, 9),
    ("01 0001 0009 0001 0000 0003 0005 ff", 12, 9),
    ("01 0001 000d 0001 0000 0007 0000 00 03 00 0000", 12, 9),
    ("01 0001 000d 0001 0000 0007 0000 02 03 00 0000", 12, 9),
    // the tick is no state, whatever the moves are
    ("01 0001 0009 0001 0000 0003 0001 00", 14, 11),
    ("01 0001 0009 0001 0000 0003 fffe 00", 14, 11),
    ("01 0001 000d 0001 0000 0007 0001 01 20 02 0001", 14, 11),
    // the action of a move lies beyond 31 either way, whatever its other fields are
    ("01 0001 000d 0001 0000 0007 0000 01 20 00 0000", 14, 14),
    ("01 0001 000d 0001 0000 0007 0000 01 e0 00 0000", 14, 14),
    ("01 0001 000d 0001 0000 0007 0000 01 7f 00 0000", 14, 14),
    ("01 0001 000d 0001 0000 0007 0000 01 80 00 0000", 14, 14),
    ("01 0001 000d 0001 0000 0007 ffff 01 20 02 0001", 14, 14),
    // the urgent byte is neither 00 nor 01, whatever the target is
    ("01 0001 000d 0001 0000 0007 0000 01 03 02 0000", 14, 15),
    ("01 0001 000d 0001 0000 0007 0000 01 00 ff 0001", 14, 15),
    // the target is no state, whatever the tick is
    ("01 0001 000d 0001 0000 0007 0000 01 03 00 0001", 14, 16),
    ("01 0001 000d 0001 0000 0007 ffff 01 03 01 ffff", 14, 16),
    // the first move at fault counts
    (
        "01 0001 0011 0001 0000 000b 0000 02 03 00 0000 20 00 0000",
        14,
        18,
    ),
    (
        "01 0001 0011 0001 0000 000b 0000 02 03 00 0001 20 00 0000",
        14,
        16,
    ),
    // no tick, and no urgent internal move
    ("01 0001 0009 0001 0000 0003 ffff 00", 15, 11),
    ("01 0001 000d 0001 0000 0007 ffff 01 03 01 0000", 15, 11),
    ("01 0001 000d 0001 0000 0007 ffff 01 00 00 0000", 15, 11),
    // a tick beside an urgent internal move
    ("01 0001 000d 0001 0000 0007 0000 01 00 01 0000", 15, 11),
    (
        "01 0001 0011 0001 0000 000b 0000 02 00 00 0000 00 01 0000",
        15,
        11,
    ),
    // that comes before what is wrong behind the state
    ("01 0001 000a 0001 0000 0003 ffff 00 00", 15, 11),
    ("01 0001 000e 0002 0000 0003 ffff 00 0003 0005 00", 15, 11),
    // the second state, of 2: its length past the module, and its tick
    ("01 0001 0009 0002 0000 0003 0000 00", 12, 14),
    ("01 0001 000e 0002 0000 0003 0001 00 0003 0002 00", 14, 16),
    ("01 0001 000e 0002 0001 0003 0001 00 0003 ffff 00", 15, 16),
    // bytes left over in the module, before those left over in the file
    ("01 0001 000a 0001 0000 0003 0000 00 00", 12, 14),
    ("01 0001 000b 0001 0000 0003 0000 00 0003 00", 12, 14),
    // bytes left over in the file
    ("01 0000 00", 12, 3),
    ("01 0001 0009 0001 0000 0003 0000 00 00", 12, 14),
    // the second module, of 2: missing, left over in the first, and its start
    ("01 0002 0009 0001 0000 0003 0000 00", 12, 14),
    ("01 0002 000a 0001 0000 0003 0000 00 00 0000", 12, 14),
    (
        "01 0002 0009 0001 0000 0003 0000 00 0009 0001 0001 0003 0000 00",
        14,
        18,
    ),
];

#[test]
fn refused(rt: HostRuntime) -> Result<(), Fail> {
    for (hex, number, place) in REFUSED {
        let bytes = bytes_of(&rt, rt.alloc(), hex)?;
        assert_eq!(rt; refusal(bytes.as_slice()), Some((number, place)), "{}", hex);
    }
    Ok(())
}

// Tables that are taken.
use super::{bytes_of, refusal};
use std::test::Fail;

const TAKEN: [&str; 11] = [
    // no module
    "01 0000",
    // nil: a single state that ticks to itself
    "01 0001 0009 0001 0000 0003 0000 00",
    // the first and the last port, received from and sent on, urgent or not
    "01 0001 000d 0001 0000 0007 0000 01 01 00 0000",
    "01 0001 000d 0001 0000 0007 0000 01 1f 00 0000",
    "01 0001 000d 0001 0000 0007 0000 01 ff 01 0000",
    "01 0001 000d 0001 0000 0007 0000 01 e1 01 0000",
    // an internal move beside a tick, and an urgent one without a tick, also behind one that is not urgent
    "01 0001 000d 0001 0000 0007 0000 01 00 00 0000",
    "01 0001 000d 0001 0000 0007 ffff 01 00 01 0000",
    "01 0001 0011 0001 0000 000b ffff 02 00 00 0000 00 01 0000",
    // the last state of a module as start, tick and target
    "01 0001 0012 0002 0001 0007 0001 01 03 00 0001 0003 0001 00",
    // two modules
    "01 0002 0009 0001 0000 0003 0000 00 0009 0001 0000 0003 0000 00",
];

#[test]
fn taken(rt: HostRuntime) -> Result<(), Fail> {
    for hex in TAKEN {
        let bytes = bytes_of(&rt, rt.alloc(), hex)?;
        assert_eq!(rt; refusal(bytes.as_slice()), None, "{}", hex);
    }
    Ok(())
}

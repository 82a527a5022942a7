// Tables at their limits, and one past them.
use super::{bytes_of, refusal};
use std::alloc::Global;
use std::process::Abort;
use std::test::Fail;

// A head, and then the same bytes so many times.
fn repeated(
    rt: &impl Abort,
    heap: Global,
    head: &str,
    count: usize,
    record: &str,
) -> Result<Vec<u8>, Fail> {
    let mut bytes = bytes_of(rt, heap, head)?;
    let more = bytes_of(rt, heap, record)?;
    for _ in 0..count {
        bytes.extend_from_slice(more.as_slice())?;
    }
    Ok(bytes)
}

// 64 and 65 modules, 64 and 65 moves in a state, 4,096 and 4,097 states in a module
const LIMITS: [(&str, usize, &str, Option<(u8, usize)>); 6] = [
    ("01 0040", 64, "0009 0001 0000 0003 0000 00", None),
    ("01 0041", 65, "0009 0001 0000 0003 0000 00", Some((13, 1))),
    (
        "01 0001 0109 0001 0000 0103 0000 40",
        64,
        "03 00 0000",
        None,
    ),
    (
        "01 0001 010d 0001 0000 0107 0000 41",
        65,
        "03 00 0000",
        Some((13, 13)),
    ),
    ("01 0001 5004 1000 0fff", 4096, "0003 0fff 00", None),
    (
        "01 0001 5009 1001 0fff",
        4097,
        "0003 0fff 00",
        Some((13, 5)),
    ),
];

#[test]
fn limits(rt: HostRuntime) -> Result<(), Fail> {
    for (head, count, record, told) in LIMITS {
        let bytes = repeated(&rt, rt.alloc(), head, count, record)?;
        assert_eq!(rt; refusal(bytes.as_slice()), told, "{}", head);
    }
    Ok(())
}

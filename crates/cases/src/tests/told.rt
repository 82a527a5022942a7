// What is told of a file by itself, under its name: its modules as one text, and why it is refused.
use super::bytes_of;
use maker_table::Table;
use report::{TABLE_NAME, catalogue_text, fault_text, long_text, refused_text};
use std::test::Fail;
use table_format::TableFault;

#[test]
fn told(rt: HostRuntime) -> Result<(), Fail> {
    let heap = rt.alloc();
    let bytes = bytes_of(&rt, heap, "01 0001 0009 0001 0000 0003 0000 00")?;
    let Ok(table) = Table::take(heap, bytes) else {
        return Err(Fail::new("refused"));
    };
    let modules = catalogue_text(heap, TABLE_NAME, &table)?;
    assert_eq!(rt;
        modules.as_str(),
        "maker.tab: modules 1\nmodule 0: codes 1, start 0\n0.0: tick 0; urgent -; moves -\n"
    );
    let fault = fault_text(heap, TABLE_NAME, 15, 11)?;
    assert_eq!(rt; fault.as_str(), "maker.tab 15 11\n");
    let refused = refused_text(heap, TABLE_NAME, &TableFault::NotVersionOne)?;
    assert_eq!(rt; refused.as_str(), "maker.tab 11 0\n");
    let long = long_text(heap, TABLE_NAME)?;
    assert_eq!(rt; long.as_str(), "maker.tab long\n");
    Ok(())
}

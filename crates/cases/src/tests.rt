// What the tests share.
use std::alloc::Global;
use std::process::Abort;
use std::test::Fail;
use table_format::try_table;

mod answers;
mod limits;
mod refused;
mod shown;
mod taken;
mod told;

// The bytes of a text of hexadecimal digits, two to a byte; spaces count for nothing.
fn bytes_of(rt: &impl Abort, heap: Global, text: &str) -> Result<Vec<u8>, Fail> {
    let mut bytes = Vec::new(heap);
    let mut high: Option<u8> = None;
    for letter in text.chars() {
        if letter == ' ' {
            continue;
        }
        let digit = letter.to_digit(16).ok_or("no digit")? as u8;
        match high {
            None => high = Some(digit),
            Some(first) => {
                bytes.push(first.wrapping_mul(16) | digit)?;
                high = None;
            }
        }
    }
    assert!(rt; high.is_none(), "an odd number of digits");
    Ok(bytes)
}

// The number and the place of a table's refusal.
fn refusal(bytes: &[u8]) -> Option<(u8, usize)> {
    match try_table(bytes) {
        Ok(()) => None,
        Err(fault) => Some((fault.number().unwrap_or(0), fault.place())),
    }
}

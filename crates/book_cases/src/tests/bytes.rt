// Every byte, as a text and inside one.
use book_text::read;
use rows::{ModuleRow, Place};
use std::alloc::Global;
use std::test::Fail;

// What reading bytes answers: nothing where they are taken, or the refusal as it prints.
fn refusal(heap: Global, text: &[u8]) -> Result<String, Fail> {
    let mut places = [Place::default(); 4];
    let mut modules = [ModuleRow::default(); 2];
    match read(text, &mut places, &mut modules) {
        Ok(_) => Ok(String::new(heap)),
        Err(fault) => Ok(format!(in heap; "{fault}")?),
    }
}

// A byte between two texts, as one.
fn around(heap: Global, front: &str, byte: u8, back: &str) -> Result<Vec<u8>, Fail> {
    let mut text = Vec::new(heap);
    text.extend_from_slice(front.as_bytes())?;
    text.push(byte)?;
    text.extend_from_slice(back.as_bytes())?;
    Ok(text)
}

// Alone: space and newline are no words, and no other byte may begin a book.
fn alone(byte: u8) -> &'static str {
    match byte {
        b' ' | b'\n' => "",
        b'A'..=b'Z' | b'a'..=b'z' | b'0'..=b'9' => "2 0",
        b'?' | b'!' | b'.' | b'+' | b'=' | b';' | b'(' | b')' | b'{' | b'}' => "2 0",
        _ => "1 0",
    }
}

// Where a term stands: some are terms or begin one, which is then cut off by the brace.
fn as_term(byte: u8) -> &'static str {
    match byte {
        b' ' | b'\n' | b'A'..=b'Z' | b'0' | b'w' | b'i' | b'(' => "2 17",
        b'?' | b'!' => "3 15",
        b'a'..=b'z' | b'1'..=b'9' => "2 15",
        b'.' | b'+' | b'=' | b';' | b')' | b'{' | b'}' => "2 15",
        _ => "1 15",
    }
}

// Inside a name: letters and digits go on with it, and others end it.
fn in_name(byte: u8) -> &'static str {
    match byte {
        b'A'..=b'Z' | b'a'..=b'z' | b'0'..=b'9' => "",
        b' ' | b'\n' => "2 9",
        b'{' => "2 11",
        b'?' | b'!' | b'.' | b'+' | b'=' | b';' | b'(' | b')' | b'}' => "2 8",
        _ => "1 8",
    }
}

#[test]
fn bytes(rt: HostRuntime) -> Result<(), Fail> {
    for byte in 0..=255u8 {
        let text = around(rt.alloc(), "", byte, "")?;
        assert_eq!(rt;
            refusal(rt.alloc(), &text)?.as_str(),
            alone(byte),
            "{} alone",
            byte
        );
        let text = around(rt.alloc(), "module A { X = ", byte, " }")?;
        assert_eq!(rt;
            refusal(rt.alloc(), &text)?.as_str(),
            as_term(byte),
            "{} as a term",
            byte
        );
        let text = around(rt.alloc(), "module A", byte, "B { X = 0; }")?;
        assert_eq!(rt;
            refusal(rt.alloc(), &text)?.as_str(),
            in_name(byte),
            "{} in a name",
            byte
        );
    }
    Ok(())
}

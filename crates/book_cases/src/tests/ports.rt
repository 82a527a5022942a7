// Actions of a book: the ports that there are, and words that are none.
use super::told;
use std::test::Fail;

const BAD: [&str; 24] = [
    "?",
    "!",
    "? 7",
    "! 7",
    "?0",
    "!0",
    "?00",
    "?01",
    "?07",
    "!031",
    "?32",
    "!32",
    "?39",
    "?99",
    "?100",
    "?255",
    "?256",
    "?257",
    "?65537",
    "?4294967297",
    "?18446744073709551617",
    "?00000000000000000007",
    "?-7",
    "?+7",
];

#[test]
fn bad(rt: HostRuntime) -> Result<(), Fail> {
    for word in BAD {
        let text = format!(in rt.alloc(); "module A {{ X = {word}.0; }}")?;
        let found = told(rt.alloc(), &text)?;
        assert_eq!(rt; found.as_str(), "3 15", "{}", text);
        let text = format!(in rt.alloc(); "module A {{ X = w.({word}.0); }}")?;
        let found = told(rt.alloc(), &text)?;
        assert_eq!(rt; found.as_str(), "3 18", "{}", text);
    }
    Ok(())
}

#[test]
fn good(rt: HostRuntime) -> Result<(), Fail> {
    for port in 1..=31 {
        let text = format!(in rt.alloc(); "module A {{ X = ?{port}.0 + !{port} . 0; }}")?;
        let found = told(rt.alloc(), &text)?;
        assert_eq!(rt; found.as_str(), "taken 5 1", "{}", text);
    }
    Ok(())
}

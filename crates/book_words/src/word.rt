// A word of a text. A name is the part of the text that it occupies.
#[derive(Clone, Copy, Debug, PartialEq, Eq)]
pub enum Word<'a> {
    // a byte outside the alphabet
    Alien,
    // a run of letters and digits that is no word of the language
    Other,
    // a `?` or `!` with no port
    Bad,
    // `module`
    Module,
    // `0`
    Nil,
    // `w`
    Wait,
    Dot,
    Plus,
    Equals,
    // `;`
    Ends,
    // the parentheses
    Opens,
    Closes,
    // the braces
    Enter,
    Leave,
    Name(&'a [u8]),
    // `?7` is 7, `!7` is -7, `i` is 0
    Act(i8),
}

// A word with its offset, and the offset behind it.
#[derive(Clone, Copy, Debug, PartialEq, Eq)]
pub struct Found<'a> {
    pub at: usize,
    pub end: usize,
    pub word: Word<'a>,
}

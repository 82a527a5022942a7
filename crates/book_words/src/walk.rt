// A walk over the words of a text.
ghost use Rattle.std.specs.Prelude.{◌≡◌, length};
ghost use Rattle.std.specs.Iterator.{at_most};
ghost use Rattle.book_words.specs.Words.{words};
ghost use Rattle.book_words.specs.Walking.{coming, IsAt, Gives};

use crate::reader::next_word;
use crate::word::Found;

#[derive(Clone, Copy, Debug, PartialEq, Eq)]
pub struct Words<'a> {
    text: &'a [u8],
    // where to look for the next word
    at: usize,
}

impl<'a> Words<'a> {
    // The words of a text, from the first one on.
    pub fn of(text: &'a [u8]) -> Words<'a>
        ensures words { coming result ≡ words text.now }
        ensures begins { IsAt result text.now 0 }
    {
        Words { text, at: 0 }
    }
}

impl<'a> Iterator for Words<'a> {
    type Item = Found<'a>;

    ghost next_gives = { Gives };

    ghost remaining = { λ s. at_most (length (coming s)) };

    fn next(&mut self) -> Option<Found<'a>> {
        let found = next_word(self.text, self.at)?;
        self.at = found.end;
        Some(found)
    }
}

// A module in a table's bytes whose head was tried.
ghost use Rattle.std.specs.Prelude.{◌≡◌, ◌+◌, ◌≤◌, length};
ghost use Rattle.table_format.specs.Reading.{after, codes_at};

#[derive(Clone, Copy)]
pub struct Module<'a> {
    pub bytes: &'a [u8],
    // the offset of its first byte, how many states it has, and the offset behind it
    pub at: usize,
    pub codes: usize,
    pub end: usize,
    ghost counted: { codes ≡ codes_at bytes.now at },
    ghost ended: { end ≡ after bytes.now at },
    ghost headed: { at + 6 ≤ end },
    ghost within: { end ≤ length bytes.now },
}

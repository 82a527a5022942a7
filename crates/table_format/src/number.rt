// Numbers in a table's bytes.
ghost use Rattle.std.specs.Prelude.{◌≡◌};
ghost use Rattle.table_format.specs.Numbers.{byte_action, pair_in};
ghost use Rattle.table_format.specs.Reading.{after_in};

// The tick target that stands for no tick: a number of the format, which a reader turns into `None` at once.
pub const NO_TICK: u16 = 65535;

// The signed number in an action byte.
pub fn action_of(byte: u8) -> i8
    ensures { result ≡ byte_action byte }
{
    byte.cast_signed()
}

// The number in the two bytes at an offset, where they are there.
pub fn pair_at(bytes: &[u8], at: usize) -> Option<u16>
    ensures { result ≡ pair_in bytes.now at }
{
    let pair = bytes.get(at..)?.first_chunk::<2>()?;
    Some(u16::from_be_bytes(*pair))
}

// The offset behind the record at an offset, by the length that it begins with.
pub fn after(bytes: &[u8], at: usize) -> Option<usize>
    ensures { result ≡ after_in bytes.now at }
{
    let length = pair_at(bytes, at)?;
    Some(at + 2 + length as usize)
}

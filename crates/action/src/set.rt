// A set of actions in one word: bit a + 31 says whether action a is in it, and bit 63 is not used.
ghost use Rattle.std.specs.Prelude.{◌^◌, ◌<◌};

mod iter;
mod operations;

pub use iter::Actions;

#[derive(Clone, Copy, Debug, PartialEq, Eq)]
pub struct ActionSet {
    bits: u64,
    ghost narrow: { bits < 2 ^ 63 },
}

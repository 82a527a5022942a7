// A walk over what a set holds, in rising order.
ghost use Rattle.std.specs.Prelude.{◌≡◌, ◌-◌, ◌<◌, ◌&&◌, nat_lt};
ghost use Rattle.action.specs.Sets.{has, members, signed};
ghost use Rattle.action.specs.Iterating.{coming, Comes};
ghost use Rattle.std.specs.Iterator.{at_most};

use super::super::number::LAST_PORT;
use super::ActionSet;

#[derive(Clone, Copy, Debug)]
pub struct Actions {
    set: ActionSet,
    // the bit to look at next
    bit: u8,
}

// The action of a bit.
fn action_at(bit: u8) -> i8
    requires { bit < 63 }
    ensures { result ≡ signed bit }
{
    bit as i8 - LAST_PORT
}

impl ActionSet {
    // Whether the bit is that of an action that the set holds.
    fn has_bit(self, bit: u8) -> bool
        ensures { result ≡ (nat_lt bit 63 && has self (signed bit)) }
    {
        bit < 63 && self.contains(action_at(bit))
    }

    // The actions that the set holds, in rising order.
    pub fn iter(self) -> Actions
        ensures { coming result ≡ members self }
    {
        Actions { set: self, bit: 0 }
    }
}

impl Iterator for Actions {
    type Item = i8;

    ghost next_gives = { λ s r t. Comes (coming s) r (coming t) };

    ghost remaining = { λ s. at_most (63 - s.bit) };

    fn next(&mut self) -> Option<i8> {
        let set = self.set;
        let bit = (self.bit..63).find(|bit| set.has_bit(*bit))?;
        self.bit = bit + 1;
        Some(action_at(bit))
    }
}

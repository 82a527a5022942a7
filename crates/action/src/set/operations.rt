// What can be done with sets of actions. Every contract says which actions a set holds.
ghost use Rattle.std.specs.Prelude.{◌≡◌, ◌≤◌, false, ◌&&◌, ◌||◌, T, ◌↔◌, ℤ, unsigned_abs};
ghost use Rattle.action.specs.Action.{is_action, same, last_port, Opposite};
ghost use Rattle.action.specs.Sets.{place, has, within, meets, meets_on, ◌∋◌};

use super::super::number::{LAST_PORT, is_action};
use super::ActionSet;

// The bit of an action.
fn bit_of(action: i8) -> u32
    requires { unsigned_abs action ≤ last_port }
    ensures { result ≡ place action }
{
    (action + LAST_PORT) as u32
}

// Whether the two sets hold the two actions of one port, one each.
fn meets_on(one: ActionSet, other: ActionSet, port: u8) -> bool
    requires { port ≤ last_port }
    ensures { result ≡ meets_on one other port }
{
    let receive = port as i8;
    let send = -receive;
    (one.contains(receive) && other.contains(send))
        || (one.contains(send) && other.contains(receive))
}

impl ActionSet {
    // The set that holds nothing.
    pub fn empty() -> ActionSet
        ensures { (a : ℤ) → has result a ≡ false }
    {
        ActionSet { bits: 0 }
    }

    // The set that holds one action alone, and nothing where the number is no action.
    pub fn only(action: i8) -> ActionSet
        ensures { (a : ℤ) → has result a ≡ (is_action action && same action a) }
    {
        if !is_action(action) {
            return ActionSet::empty();
        }
        ActionSet {
            bits: 1u64 << bit_of(action),
        }
    }

    // Whether the set holds an action.
    pub fn contains(self, action: i8) -> bool
        ensures { result ≡ has self action }
    {
        if !is_action(action) {
            return false;
        }
        (self.bits >> bit_of(action)) % 2 == 1
    }

    // The set of what either set holds.
    pub fn union(self, other: ActionSet) -> ActionSet
        ensures { (a : ℤ) → has result a ≡ (has self a || has other a) }
    {
        ActionSet {
            bits: self.bits | other.bits,
        }
    }

    // Adds an action; a number that is no action is left out.
    pub fn insert(&mut self, action: i8)
        ensures { (a : ℤ) → has self.new a ≡ (has self.old a || (is_action action && same action a)) }
    {
        *self = self.union(ActionSet::only(action));
    }

    // Whether the other set holds all that this one does.
    pub fn is_subset(self, other: ActionSet) -> bool
        ensures value { result ≡ within self other }
        ensures means { T result ↔ ((a : ℤ) → self ∋ a → other ∋ a) }
    {
        self.bits & other.bits == self.bits
    }

    // Whether this set holds the one of two opposite actions and the other set the other.
    pub fn meets_opposites(self, other: ActionSet) -> bool
        ensures value { result ≡ meets self other }
        ensures means { T result ↔ ((a : ℤ) × (b : ℤ) × Opposite a b × (self ∋ a) × (other ∋ b)) }
    {
        (1..32).any(|port| meets_on(self, other, port))
    }
}

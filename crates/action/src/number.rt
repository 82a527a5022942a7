// An action is an `i8` from -31 to 31: p receives on port p, -p sends on it, and 0 is the internal event.
ghost use Rattle.std.specs.Prelude.{◌≡◌};
ghost use Rattle.action.specs.Action.{is_action, opposite as opposite_of};

// The ports are 1 to this. An action is a number with a sign and no enum, since lent rows and the bytes of tables hold it so.
pub const LAST_PORT: i8 = 31;

// Whether a number is an action.
pub fn is_action(number: i8) -> bool
    ensures { result ≡ is_action number }
{
    (-LAST_PORT..=LAST_PORT).contains(&number)
}

// The action that meets this one. The internal event has none, and neither has what is no action.
pub fn opposite(number: i8) -> Option<i8>
    ensures { result ≡ opposite_of number }
{
    if number == 0 || !is_action(number) {
        return None;
    }
    Some(-number)
}

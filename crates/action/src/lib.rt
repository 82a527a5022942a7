// Actions and sets of actions, the alphabet of every module and every line.
#![tactic(auto)]

mod number;
mod set;

pub use number::{LAST_PORT, is_action, opposite};
pub use set::{ActionSet, Actions};

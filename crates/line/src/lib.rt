// Lines of modules: drawing one, swapping a module in one, and what time does in one.
#![tactic(auto)]

mod lines;

pub use lines::{Line, MOST_SLOTS, SlotPlan, draw};

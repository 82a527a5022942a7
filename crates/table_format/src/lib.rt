// The bytes of makers' tables: which are taken, which are refused and why, and what they mean.
#![tactic(auto)]

mod fault;
mod module;
mod number;
mod record;
mod trying;

pub use fault::TableFault;
pub use number::{NO_TICK, action_of, after, pair_at};
pub use record::StateRecord;
pub use trying::try_table;

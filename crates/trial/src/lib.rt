// Trying the rows of a module: each place for each criterion, with a summary of it.
#![tactic(auto)]

mod module;
mod summary;
mod trying;

pub use summary::Summary;
pub use trying::try_module;

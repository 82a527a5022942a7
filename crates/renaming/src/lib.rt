// Renamings of ports: how a slot, or a whole catalogue, is wired to its surroundings.
#![tactic(auto)]

mod fault;
mod renaming;

pub use fault::RenamingFault;
pub use renaming::Renaming;

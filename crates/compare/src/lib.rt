// Whether one module of a catalogue is never slower than another, beside whatever neighbours.
#![tactic(auto)]

mod comparing;
mod filled;
mod growing;
mod index;
mod modules;
mod moves;
mod part;
mod ranking;
mod settling;

pub use comparing::compare;

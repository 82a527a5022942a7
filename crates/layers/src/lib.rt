// Catalogues over catalogues: one behind another, and one whose actions are renamed. They are catalogues again, so they
// pile up.
#![tactic(auto)]

mod joined;
mod renamed;

pub use joined::Joined;
pub use renamed::Renamed;

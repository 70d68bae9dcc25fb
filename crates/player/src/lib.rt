// From a manifest's bytes to its timeline: the head over it, and its sums.
#![tactic(auto)]

mod fault;
mod screening;

pub use chosen::Positions;
pub use fault::OpenFault;
pub use screening::{open, screen, tally};

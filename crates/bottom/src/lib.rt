// Bottom timelines that have addresses.
#![tactic(auto)]

mod placed;

pub use placed::Placed;

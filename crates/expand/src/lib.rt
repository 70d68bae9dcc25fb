// The S elements of a SegmentTimeline, expanded into runs.
#![tactic(auto)]

mod fault;
mod place;
mod runs;
mod stated;

pub use fault::RunFault;
pub use runs::{expand, read_stated};
pub use stated::Stated;

// The manifest's timeline, and the sum of what it lists and leaves out.
#![tactic(auto)]

mod accounting;
mod laid;
mod plan;
mod sums;

pub use accounting::account;
pub use laid::{Bottom, ManifestTimeline, lay_out};
pub use plan::{Kind, Plan};
pub use sums::Sums;

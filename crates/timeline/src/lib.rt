// Timelines: the trait, the bottom timelines, the layers over any timeline, and addresses.
#![tactic(auto)]

mod addressed;
mod cut;
mod even;
mod fault;
mod laws;
mod lent;
mod limits;
mod run;
mod segment;
mod shift;
#[cfg(test)]
mod tests;
mod timeline;
mod written;

pub use addressed::Addressed;
pub use cut::Cut;
pub use even::Even;
pub use fault::{AddressFault, NoSuchPlace};
pub use laws::{order_law, sum_law};
pub use limits::{LATEST_END, is_too_many};
pub use run::Run;
pub use segment::Segment;
pub use shift::Shift;
pub use timeline::Timeline;
pub use written::Written;

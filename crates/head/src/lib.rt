// The head: it stands at a place of a timeline or nowhere, and moves along any timeline by calls.
#![tactic(auto)]

mod fault;
mod head;
mod sequence;
mod step;
#[cfg(test)]
mod tests;

pub use fault::HeadFault;
pub use head::{FINEST, Head};
pub use sequence::replay;
pub use step::{Call, Step};

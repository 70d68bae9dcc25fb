// The listing of a manifest: reading, check and resolving under one fault, and each printed line as a call.
#![tactic(auto)]

mod fault;
mod printing;
mod segments;
mod surveying;

pub use fault::ListFault;
pub use printing::{Listing, Printed};
pub use surveying::survey;

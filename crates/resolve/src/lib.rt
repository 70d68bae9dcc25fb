// From rows to runs and values: the call that a manifest's timeline is made by.
#![tactic(auto)]

mod fault;
mod numbers;
mod prepared;
mod preparing;
mod resolving;

pub use fault::ResolveFault;
pub use resolving::resolve;

// Conformance rules of a manifest, and the findings where they are broken.
#![tactic(auto)]

mod checker;
mod element;
mod rule;
#[cfg(test)]
mod tests;

pub use checker::check;
pub use element::is_typed;
pub use rule::{CheckFault, Finding, Rule};

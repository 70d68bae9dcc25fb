// Tables of rows over the caller's memory, and the rows that a manifest is read into.
#![tactic(auto)]

mod manifest;
mod row;
mod span;
mod store;

pub use manifest::{Attribute, Element, ManifestRows};
pub use row::{Full, Row};
pub use span::{Span, same};
pub use store::Table;

// The manifest read into rows of elements and attributes.
#![tactic(auto)]

mod fault;
mod lexer;

pub use fault::{ReadFault, ReadRefusal};
pub use lexer::markup::{LIMIT, read};

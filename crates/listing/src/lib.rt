// The listing of a manifest: reading and check under one fault, and each printed line as a call.
#![tactic(auto)]

mod fault;
mod line;
mod printing;
mod surveying;

pub use fault::ListFault;
pub use line::{Line, put_line};
pub use printing::{line_at, write_line};
pub use surveying::survey;

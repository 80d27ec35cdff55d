//! The words of the program's command line: what they ask for.
#![tactic(auto)]

mod options;
mod parsing;
mod request;

pub use options::Options;
pub use request::{Request, request_of};

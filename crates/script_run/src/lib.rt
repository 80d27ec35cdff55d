//! Carries out scripts: `run` is what the program's `main` calls.
#![tactic(auto)]

mod built;
mod endings;
mod job;
mod program;
mod script;
mod sums;

pub use program::{WRONG_WORDS, run};

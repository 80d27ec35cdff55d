//! The job that a number makes: a script and the raster that it loads, by draws of a generator.
#![tactic(auto)]

mod generator;
mod job;
pub mod laws;
mod script;

pub use job::{Job, make_script};

//! The fifteen operations on images: what each takes, what it gives, and the laws by which other
//! crates reason about them.
#![tactic(auto)]

pub mod examples;
pub mod laws;
mod meanings;
mod operation;
pub mod regions;
pub mod windows;

pub use operation::IntOp;

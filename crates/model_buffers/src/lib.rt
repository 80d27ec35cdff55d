//! Tables of named buffers and their edits: the definitions, and the laws by which other crates
//! reason about them.
#![tactic(auto)]

pub mod adding;
pub mod causes;
pub mod counts;
mod edit;
pub mod examples;
pub mod held;
pub mod layouts;
mod refused;
pub mod sharing;
pub mod tables;
pub mod writing;

pub use edit::{BufferEdit, RawBytes};
pub use refused::EditRefused;

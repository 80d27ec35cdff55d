//! Buffers as they are edited, and those of the states that are retained, over one chain.
#![tactic(auto)]

mod edits;
mod steps;
mod versions;

pub use versions::BufferVersions;

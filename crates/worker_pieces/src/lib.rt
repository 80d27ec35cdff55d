//! Work that is split into pieces among threads.
#![tactic(auto)]

mod workers;

pub use workers::Workers;

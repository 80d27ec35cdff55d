//! Scenes that follow one another: what the damages of the last commits tell of what changed, and which
//! cached pairs that leaves.
#![tactic(auto)]

mod last_damages;
pub mod laws;

pub use last_damages::LastDamages;

//! Tables of buffers under nodes of any operations: histories as they are made by steps, and sessions of steps and renders.
#![tactic(auto)]

pub mod examples;
pub mod histories;
pub mod sessions;
pub mod tables;

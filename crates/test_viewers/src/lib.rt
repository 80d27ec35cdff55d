//! Worked examples of viewers of scenes.
#![tactic(auto)]

#[cfg(test)]
mod frames;
mod scenes;

pub use scenes::inverted_zeros;

//! Worked examples of stores, and a naive store that each call is compared with.

mod lending;
#[cfg(test)]
mod naive;
#[cfg(test)]
mod scripts;
#[cfg(test)]
mod tests;

pub use lending::keep;

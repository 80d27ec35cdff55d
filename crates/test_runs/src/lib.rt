//! Worked examples of whole runs. What each must leave was worked out by hand, or apart, by a program that evaluates
//! whole images.
#![tactic(auto)]

#[cfg(test)]
mod contents;
#[cfg(test)]
mod examples;
#[cfg(test)]
mod runs;
#[cfg(test)]
mod tests;

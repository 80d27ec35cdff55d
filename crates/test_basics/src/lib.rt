//! What single calls of the lowest crates answer, as tests: rectangles, words, tiles, pieces of work, layouts,
//! options, made jobs and scripts. They stand apart from these crates, which the gate would otherwise prove a second
//! time with them.
#![tactic(auto)]

#[cfg(test)]
mod tests;

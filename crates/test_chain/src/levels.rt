//! Tables of tiles: small examples over chains.

mod calls;
mod examples;
mod steps;
mod tests;

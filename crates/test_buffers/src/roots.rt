//! Roots of buffers: small examples over chains.

mod calls;
mod examples;
mod refused_writes;
mod steps;
mod tests;
mod views;

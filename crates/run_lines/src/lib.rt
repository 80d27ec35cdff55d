//! Carries out the lines of scripts over a session: edits, steps and renders over a chain, files of a shelf, and texts.
#![tactic(auto)]

mod edits;
mod events;
mod files;
mod lines;
mod loads;
mod nodes;
mod rasters;
mod renders;
mod script;
mod steps;
mod stop;

pub use commit_session::Counts;
pub use events::{put_text, refuse};
pub use lines::is_of_watch;
pub use script::{RunLimits, carry_out};

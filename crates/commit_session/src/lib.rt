//! Sessions of edits, commits and renders over one chain of tiles.
#![tactic(auto)]

mod edit;
mod edits;
mod refused;
mod renders;
mod session;
mod session_edits;
mod session_renders;
mod session_steps;
mod state;
mod steps;
mod voids;
mod written;

pub use edit::Edit;
pub use model_states::Direction;
pub use refused::SessionRefused;
pub use session::{OwnedSession, Session};
pub use state::{Counts, SessionState};

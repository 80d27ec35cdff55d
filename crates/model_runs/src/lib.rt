//! What a run of a script is to do: for each line its events, its refusal, its texts, and what it costs; what is left
//! of it where a run ends; and what its counts stay below.
#![tactic(auto)]

pub mod bounds;
mod cause;
mod ending;
pub mod examples;
pub mod laws;
mod statuses;
mod texts;

pub use cause::Cause;
pub use ending::End;
pub use statuses::status_of;
pub use texts::{grab_text, refusal_text, render_text, report_text, sum_text};

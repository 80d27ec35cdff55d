//! A plain, slow program that computes images as they are defined: one sample after another, each
//! by its definition. Faster bodies are compared with it.
#![tactic(auto)]

mod evaluation;
pub mod formulas;
mod levels;
mod picture;
mod pixels;
mod policies;
mod raw_bytes;
mod results;
mod windows;

pub use evaluation::{Buffer, Step, evaluate};
pub use levels::level;
pub use picture::{Picture, Samples, draw, sample_all};
pub use raw_bytes::{from_raw, raw_with};
pub use results::result_of;

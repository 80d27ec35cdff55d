//! The formats of pixels, the policies for what is outside an image, and the limits of the script
//! language and of the operations. Nothing here computes with images.
#![tactic(auto)]

mod abyss;
mod format;
pub mod limits;
mod samples;

pub use abyss::Abyss;
pub use format::Format;
pub use samples::PixelSamples;

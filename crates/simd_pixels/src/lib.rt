//! Pixels in vectors of samples: side by side, or as planes with a vector for each channel.
#![tactic(auto)]

mod components;
mod layout;
mod planes;

pub use components::{Components, FromComponents};
pub use layout::{AlphaOfFour, AlphaOfTwo, Layout, Opaque};
pub use planes::{Colors, ColorsAlpha, Gray, GrayAlpha, Planes};

//! Tiles of bytes that several owners share, each with bytes of its own to write.
#![tactic(auto)]

mod block;
mod owner;
mod room;
mod tile;

pub use tile::{Tile, Wrote};

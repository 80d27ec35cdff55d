//! Tables of named buffers over a chain: each root's image is held by tiles.
#![tactic(auto)]

mod adding;
mod buffers;
mod copying;
mod duplicating;
mod edits;
mod freezing;
mod laws;
mod level_reads;
mod recent_tiles;
mod refused;
mod shares;
mod sources;
mod writing;
mod written;

pub use buffers::Buffers;
pub use laws::{
    added_buffers_have_causes, buffers_are_tables, no_buffers_ask_nothing,
    other_buffers_are_unchanged,
};
pub use refused::BufferRefused;
pub use sources::BufferTiles;

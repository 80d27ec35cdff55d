//! Tables of tiles: the level handler of one root buffer.
#![tactic(auto)]

mod four_tiles;
mod laws;
mod level_tile;
mod new_tiles;
mod put_tiles;
mod puts;
mod reads;
mod shares;
mod table;
mod tile_bytes;

pub use laws::{
    few_levels_are_held, more_tiles_are_held, new_tables_ask_nothing, no_new_tiles_ask_nothing,
    other_new_tiles_are_unchanged, other_tables_are_unchanged, tables_are_framed,
};
pub use level_tile::LevelTile;
pub use new_tiles::NewTiles;
pub use table::LevelTable;

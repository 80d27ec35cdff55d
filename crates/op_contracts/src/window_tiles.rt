//! Tiles beside where they are.

ghost use Rattle.std.specs.Prelude.{◌≡◌, ◌↔◌, All, IsTrue};
ghost use Rattle.std.specs.List.{IsDistinct};
ghost use Rattle.std.specs.Map.{lookup};
ghost use Rattle.std.specs.Option.{option_copied};
ghost use Rattle.plane_rect.specs.Tile.{same_tile};
ghost use Rattle.op_contracts.specs.TileList.{HasLength, tiles_in};

use plane_rect::TileAt;
use std::marker::Model;
use tile_cow::Tile;

/// Tiles beside where they are, in some order. A clause sees them as the list of the tiles' positions
/// and bytes.
#[derive(Drop)]
pub struct WindowTiles {
    entries: Vec<(TileAt, Tile)>,
}

impl Model for WindowTiles {
    ghost use Rattle.std.specs.Prelude.{ℕ, List};
    ghost use Rattle.plane_rect.specs.Tile.{Tile};

    ghost Value = { List (Tile × List ℕ) };

    ghost view = { λ tiles. tiles.entries.items };
}

impl WindowTiles {
    /// Makes the list of these tiles, without memory.
    pub fn new(entries: Vec<(TileAt, Tile)>) -> WindowTiles
        ensures { result ≡ entries.items }
    {
        WindowTiles { entries }
    }

    /// Returns the tiles as a slice.
    pub fn as_slice(&self) -> &[(TileAt, Tile)]
        ensures { result.now ≡ self.now }
    {
        &self.entries
    }

    /// Gives the tiles back, without memory.
    pub fn into_vec(self) -> Vec<(TileAt, Tile)>
        ensures { result.items ≡ self }
    {
        self.entries
    }

    /// Returns the first tile of a position, where there is one. Takes time in proportion to the number of tiles.
    pub fn tile_of(&self, at: TileAt) -> Option<&Tile>
        ensures { option_copied result ≡ lookup (same_tile at) self.now }
    {
        find_tile(&self.entries, at)
    }

    /// Returns the bytes of the first tile of a position, where there is one. Takes time in proportion
    /// to the number of tiles.
    pub fn bytes_of(&self, at: TileAt) -> Option<&[u8]>
        ensures { option_copied result ≡ lookup (same_tile at) self.now }
    {
        let tile = self.tile_of(at)?;
        Some(tile.bytes())
    }

    /// Returns whether no position is there twice. Takes time in proportion to the square of the number
    /// of tiles.
    pub fn are_distinct(&self) -> bool
        ensures { IsTrue result ↔ IsDistinct same_tile (tiles_in self.now) }
    {
        for (number, entry) in self.entries.iter().enumerate() {
            if find_tile(&self.entries[number + 1..], entry.0).is_some() {
                return false;
            }
        }
        true
    }

    /// Returns whether each tile has so many bytes.
    pub fn have_length(&self, len: usize) -> bool
        ensures { IsTrue result ↔ All (HasLength len) self.now }
    {
        self.entries
            .iter()
            .all(|entry| entry.1.bytes().len() == len)
    }
}

/// Returns the first of these tiles that has a position, where there is one.
fn find_tile(entries: &[(TileAt, Tile)], at: TileAt) -> Option<&Tile>
    ensures { option_copied result ≡ lookup (same_tile at) entries.now }
{
    let entry = entries.iter().find(|entry| at == entry.0)?;
    Some(&entry.1)
}

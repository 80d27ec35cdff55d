//! Tiles of 64 by 64 pixels.

ghost use Rattle.std.specs.Prelude.{◌≡◌, ℕ, ◌*◌, ◌^◌, ◌≤◌, ◌++◌, ◌↔◌, IsTrue, Some, All, AllPairs, length, Contains};
ghost use Rattle.std.specs.Cmp.{partial_equiv_from_equiv, partial_order_from_own_ties};
ghost use Rattle.std.specs.Cmp.Rules.{comparing, hashing};
ghost use Rattle.std.specs.Hash as fed;
ghost use Rattle.std.specs.Iterator.{YieldsFirst, item_count};
ghost use Rattle.std.specs.Ordering.{as_partial_cmp};
ghost use Rattle.std.proofs.Common.{rules};
ghost use Rattle.plane_rect.specs.Rectangle.{IsCoordinate, Inside, plane_index as index_of, plane_side};
ghost use Rattle.plane_rect.specs.Tile.{IsBefore, IsTile, IsWhole, Meets, Tile, last_tile, plane, same_tile, tile_at, tile_cmp, tile_columns, tile_lines, tile_rectangle, tile_square, tiles};
ghost use Rattle.plane_rect.specs.SameTile.{same_tile-laws};

use crate::plane::{PLANE_SIDE, plane_index};
use crate::rect::Rect;
use std::cmp::Ordering;
use std::hash::{Hash, Hasher};
use std::marker::Model;

/// How many columns, and how many rows, a tile has, in pixels.
pub const TILE_SIDE: u32 = 64;

/// How far the tiles reach from the origin, to each side, in tiles.
const TILE_ORIGIN: i32 = 1 << 18;

/// The name of the tile of the positions from `64 * tx` to `64 * tx + 63` in x, and so in y.
///
/// Neither number is below -2^18 or above 2^18, where a tile begins after the plane. A clause sees
/// it by its column and row among the tiles, counted from the plane's corner.
#[derive(Clone, Copy, Debug)]
pub struct TileAt {
    pub tx: i32,
    pub ty: i32,
}

impl Model for TileAt {
    ghost use Rattle.plane_rect.specs.Tile.{NameTile, Tile, tile_by, tile_coordinate};

    ghost Value = { Tile };

    ghost view = { λ t. tile_by t.tx t.ty };

    ghost invariant = { λ t. NameTile t.tx t.ty };

    ghost inverse = { λ t. record { tx = tile_coordinate t.column; ty = tile_coordinate t.row } };
}

impl TileAt {
    /// Returns the tile that contains the position of x and y, neither below -2^24 or above 2^24.
    pub fn of(x: i32, y: i32) -> TileAt
        requires x { IsCoordinate x }
        requires y { IsCoordinate y }
        ensures { result ≡ tile_at (index_of x) (index_of y) }
    {
        TileAt::of_position(plane_index(x), plane_index(y))
    }

    /// Returns the tile that contains the position of a column and a row.
    pub fn of_position(column: u32, row: u32) -> TileAt
        requires column { column ≤ plane_side }
        requires row { row ≤ plane_side }
        ensures { result ≡ tile_at column row }
    {
        TileAt::from_indices(column / TILE_SIDE, row / TILE_SIDE)
    }

    /// Returns the tile of a column and a row of tiles, counted from the plane's corner.
    pub fn from_indices(column: u32, row: u32) -> TileAt
        requires column { column ≤ last_tile }
        requires row { row ≤ last_tile }
        ensures column { result.column ≡ column }
        ensures row { result.row ≡ row }
    {
        TileAt {
            tx: column as i32 - TILE_ORIGIN,
            ty: row as i32 - TILE_ORIGIN,
        }
    }

    /// Returns its column among the tiles, counted from the plane's corner.
    pub fn column(&self) -> u32
        ensures value { result ≡ self.now.column }
        ensures tile { IsTile self.now }
    {
        (self.tx + TILE_ORIGIN) as u32
    }

    /// Returns its row among the tiles, counted from the plane's corner.
    pub fn row(&self) -> u32
        ensures value { result ≡ self.now.row }
        ensures tile { IsTile self.now }
    {
        (self.ty + TILE_ORIGIN) as u32
    }

    /// Returns the positions of the plane that are in it: none where it begins after the plane, and
    /// else all 64 by 64.
    pub fn rect(&self) -> Rect
        ensures value { result ≡ tile_rectangle self.now }
        ensures positions { (u v : ℕ) → Inside u v result ↔ (Inside u v plane × (self.now ≡ tile_at u v)) }
        ensures whole { IsWhole self.now → result ≡ tile_square self.now }
    {
        let (first_column, first_row) = (self.column() * TILE_SIDE, self.row() * TILE_SIDE);
        Rect::spanning(
            first_column,
            first_row,
            PLANE_SIDE.min(first_column + TILE_SIDE),
            PLANE_SIDE.min(first_row + TILE_SIDE),
        )
    }
}

impl PartialEq for TileAt {
    ghost eq = { same_tile };

    ghost laws = { partial_equiv_from_equiv same_tile-laws };

    fn eq(&self, other: &TileAt) -> bool
        ensures eq { result ≡ same_tile self.now other.now }
        ensures same { IsTrue result ↔ (self.now ≡ other.now) }
    {
        self.row() == other.row() && self.column() == other.column()
    }
}

impl Eq for TileAt {
    ghost laws = { same_tile-laws };
}

impl Ord for TileAt {
    ghost cmp = { tile_cmp };

    ghost total = { Prim.search (comparing, rules) };

    ghost matches_partial_cmp = { Prim.search (comparing, rules) };

    ghost matches_eq = { Prim.search (comparing, rules) };

    /// Compares row by row from the top, each row from the left.
    fn cmp(&self, other: &TileAt) -> Ordering {
        self.row()
            .cmp(&other.row())
            .then(self.column().cmp(&other.column()))
    }
}

impl PartialOrd for TileAt {
    ghost partial_cmp = { as_partial_cmp tile_cmp };

    ghost laws = { partial_order_from_own_ties
        (Prim.search (comparing, rules)) (Prim.search (comparing, rules)) };

    fn partial_cmp(&self, other: &TileAt) -> Option<Ordering> {
        Some(self.cmp(other))
    }
}

impl Hash for TileAt {
    ghost hash_input = { λ t. fed.u32 t.row ++ fed.u32 t.column };

    ghost respects_eq = { Prim.search (hashing, rules) };

    fn hash<H: Hasher>(&self, state: &mut H) {
        self.row().hash(state);
        self.column().hash(state);
    }
}

/// The tiles that meet a rectangle, row by row from the top, each row from the left: see
/// [`Rect::tiles`].
///
/// A clause sees it as the list of the tiles that are still to come.
#[derive(Clone, Debug, Drop)]
pub struct Tiles {
    first_tile_column: u32,
    end_tile_column: u32,
    column: u32,
    row: u32,
    end_tile_row: u32,
}

impl Model for Tiles {
    ghost use Rattle.std.specs.Prelude.{List};
    ghost use Rattle.plane_rect.specs.Tile.{AreLeft, Tile, tiles_left};

    ghost Value = { List Tile };

    ghost view = { λ t. tiles_left t.first_tile_column t.end_tile_column t.column t.row t.end_tile_row };

    ghost invariant = { λ t. AreLeft t.first_tile_column t.end_tile_column t.column t.row t.end_tile_row };
}

impl Iterator for Tiles {
    type Item = TileAt;

    ghost next_gives = { YieldsFirst (λ tiles. tiles) };

    ghost remaining = { item_count (λ tiles. tiles) };

    fn next(&mut self) -> Option<TileAt> {
        if self.row >= self.end_tile_row {
            return None;
        }
        let tile = TileAt::from_indices(self.column, self.row);
        self.column += 1;
        if self.column == self.end_tile_column {
            self.column = self.first_tile_column;
            self.row += 1;
        }
        Some(tile)
    }
}

impl Rect {
    /// Returns the tiles that meet it, row by row from the top, each row from the left. Each step
    /// of the iterator takes constant time.
    pub fn tiles(&self) -> Tiles
        ensures value { result ≡ tiles self.now }
        ensures meeting { (t : Tile) → Contains result t ↔ Meets t self.now }
        ensures in_order { AllPairs IsBefore result }
        ensures whole { All IsWhole result }
        ensures count { length result ≡ tile_lines self.now * tile_columns self.now }
        ensures few { length result ≤ 2 ^ 38 }
    {
        let first_tile_column = self.first_column() / TILE_SIDE;
        Tiles {
            first_tile_column,
            end_tile_column: self.end_column().div_ceil(TILE_SIDE),
            column: first_tile_column,
            row: self.first_row() / TILE_SIDE,
            end_tile_row: self.end_row().div_ceil(TILE_SIDE),
        }
    }
}

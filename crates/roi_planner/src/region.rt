//! Regions of a node's image, by the tiles that they meet.

ghost use Rattle.std.specs.Prelude.{◌≡◌, [], ◌∷◌, ◌++◌, IfNone, IfOk, IfSome, OnOk, Contains};
ghost use Rattle.std.specs.Bool.{OnTrue};
ghost use Rattle.std.specs.List.{list_any};
ghost use Rattle.plane_rect.specs.Tile.{Meets, Tile, tiles, meets};
ghost use Rattle.model_states.specs.Regions.{hull_of, tiles_of_any};
ghost use Rattle.roi_planner.specs.Asked.{HullIsUnion, MeetSameTiles};

use alloc_basics::NoMemory;
use plane_rect::{Rect, TileAt, meets};
use std::alloc::Global;
use std::marker::Model;

/// Rectangles of a node's image, of which only the tiles that they meet matter: those that are beside
/// one another are joined. A clause sees them as a list.
#[derive(Drop)]
pub(crate) struct Region {
    rects: Vec<Rect>,
}

impl Model for Region {
    ghost use Rattle.std.specs.Prelude.{List};
    ghost use Rattle.plane_rect.specs.Rectangle.{Rectangle};

    ghost Value = { List Rectangle };

    ghost view = { λ region. region.rects.items };
}

impl Region {
    /// Returns an empty region. Takes no memory.
    pub(crate) fn new(alloc: Global) -> Region
        ensures { result ≡ [] }
    {
        Region {
            rects: Vec::new(alloc),
        }
    }

    /// Adds a rectangle. Each rectangle that is added is joined with others at most once, so this takes
    /// constant time on average.
    ///
    /// # Errors
    ///
    /// `NoMemory` if memory runs out.
    pub(crate) fn add(&mut self, rect: Rect) -> Result<(), NoMemory>
        ensures { OnOk result (MeetSameTiles self.new (self.old ++ rect ∷ [])) }
    {
        let mut joined = rect;
        while let Some(last) = self.pop_joined(&joined) {
            joined = last.hull(&joined);
        }
        self.rects.push(joined)?;
        Ok(())
    }

    /// Takes the last rectangle out, if its hull with another one has no position but theirs.
    fn pop_joined(&mut self, rect: &Rect) -> Option<Rect>
        ensures last { IfSome result (λ last. self.old ≡ self.new ++ last ∷ []) }
        ensures joined { IfSome result (λ last. HullIsUnion last rect.now) }
        ensures unchanged { IfNone result (self.new ≡ self.old) }
    {
        let last = *self.rects.last()?;
        if !are_joined(&last, rect) {
            return None;
        }
        self.rects.pop()
    }

    /// Returns the tiles that meet it, row by row from the top, each row from the left. Takes time in
    /// proportion to the tiles of its hull, times the rectangles if these are several.
    ///
    /// # Errors
    ///
    /// `NoMemory` if memory runs out.
    pub(crate) fn tiles(&self, alloc: Global) -> Result<Vec<TileAt>, NoMemory>
        ensures { IfOk result (λ tiles. tiles.items ≡ tiles_of_any self.now) }
    {
        let hull = hull_of(&self.rects);
        if self.rects.len() == 1 {
            return Ok(tiles_of(alloc, &hull)?);
        }
        Ok(
            hull.tiles()
                .filter(|tile| meets_any(tile, &self.rects))
                .collect(alloc)?,
        )
    }
}

/// Returns whether the hull of two rectangles is seen to be their union: one contains the
/// other, or they are beside or above one another.
fn are_joined(a: &Rect, b: &Rect) -> bool
    ensures { OnTrue result (HullIsUnion a.now b.now) }
{
    one_contains_other(a, b) || have_joined_columns(a, b) || have_joined_rows(a, b)
}

/// Returns whether one of two rectangles contains the other.
fn one_contains_other(a: &Rect, b: &Rect) -> bool
    ensures { OnTrue result (HullIsUnion a.now b.now) }
{
    a.contains(b) || b.contains(a)
}

/// Returns whether two rectangles have the same rows, and columns that touch or overlap.
fn have_joined_columns(a: &Rect, b: &Rect) -> bool
    ensures { OnTrue result (HullIsUnion a.now b.now) }
{
    a.first_row() == b.first_row()
        && a.end_row() == b.end_row()
        && b.first_column() <= a.end_column()
        && a.first_column() <= b.end_column()
}

/// Returns whether two rectangles have the same columns, and rows that touch or overlap.
fn have_joined_rows(a: &Rect, b: &Rect) -> bool
    ensures { OnTrue result (HullIsUnion a.now b.now) }
{
    a.first_column() == b.first_column()
        && a.end_column() == b.end_column()
        && b.first_row() <= a.end_row()
        && a.first_row() <= b.end_row()
}

/// Returns the tiles that meet a rectangle, row by row from the top, each row from the left.
fn tiles_of(alloc: Global, rect: &Rect) -> Result<Vec<TileAt>, NoMemory>
    ensures tiles { IfOk result (λ list. list.items ≡ tiles rect.now) }
    ensures meeting { IfOk result (λ list. (tile : Tile) → Contains (tiles rect.now) tile → Meets tile rect.now) }
{
    Ok(rect.tiles().collect(alloc)?)
}

/// Returns the hull of all of these.
fn hull_of(rects: &[Rect]) -> Rect
    ensures { result ≡ hull_of rects.now }
{
    rects
        .iter()
        .rev()
        .fold(Rect::EMPTY, |hull, rect| rect.hull(&hull))
}

/// Returns whether a tile meets one of these rectangles.
fn meets_any(tile: &TileAt, rects: &[Rect]) -> bool
    ensures { result ≡ list_any (meets tile.now) rects.now }
{
    rects.iter().any(|rect| meets(tile, rect))
}

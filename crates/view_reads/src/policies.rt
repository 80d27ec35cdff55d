//! Levels of the images of views, read under a policy.

ghost use Rattle.std.specs.Prelude.{◌≡◌, ◌+◌, ◌-◌, ◌<◌, ◌≤◌, ◌⊎◌, IfErr, IfOk, IsTrue, false, max, min};
ghost use Rattle.pixel_formats.specs.Limits.{max_level};
ghost use Rattle.model_images.specs.Abyss.{abyss_at, wrapped};
ghost use Rattle.model_images.specs.{Image.image_from_fn, TileCounts.level_tiles};
ghost use Rattle.plane_rect.specs.Rectangle.{InLimits, Within, empty, is_empty, plane_side};
ghost use Rattle.chain_owners.specs.Cause.{HasSwapCause};
ghost use Rattle.root_tiles.specs.Growth.{HoldsMoreTiles, root_state};
ghost use Rattle.root_tiles.specs.Roots.{HasShape, part_shape};
ghost use Rattle.view_reads.specs.Needed.{IsEnough, IsLoopSide, moved};
ghost use Rattle.view_reads.specs.Views.{IsReadOfLevel, IsViewOver, view_image};

use crate::levels::level_part;
use crate::positions::level_box;
use alloc_basics::NoMemory;
use chain_contracts::TileChain;
use chain_owners::SwapRefused;
use patch_abyss::{Abyss, Patch, fetch};
use plane_rect::Rect;
use root_tiles::Root;
use std::alloc::Global;

/// Returns a rectangle of a level of a view's own image, under a policy outside the level. It reads only the
/// part of the level that the policy gives there; under `Loop` that is all of the columns, unless those of the
/// rectangle are in one period, and so of the rows. The images are unchanged, whatever it answers. Takes time in
/// proportion to the rectangle and to that part, and reads four tiles for each tile of a level that it makes.
///
/// # Errors
///
/// `SwapFault` only where the swap's count of I/O errors rose in this call, `SwapFull` only where the names
/// and as many more as the levels of the root have tiles can fill the swap, and `NoMemory` if memory runs out.
pub fn get<C: TileChain>(
    root: &mut Root,
    chain: &mut C,
    extent: Rect,
    level: u32,
    abyss: Abyss,
    rect: Rect,
) -> Result<Patch, SwapRefused>
    requires view { IsViewOver root.old extent (C.held chain.old) }
    requires level { level ≤ max_level }
    requires limits { InLimits rect }
    ensures shape { IfOk result (HasShape (part_shape root.old rect)) }
    ensures image { IfOk result (IsReadOfLevel (view_image root.old extent (C.held chain.old)) level abyss rect) }
    ensures more { HoldsMoreTiles level
        (root_state root.old (C.held chain.old) (C.counts chain.old))
        (root_state root.new (C.held chain.new) (C.counts chain.new)) }
    ensures names { (C.counts chain.new).names ≤ (C.counts chain.old).names + level_tiles root.old.box level }
    ensures cause { IfErr result (HasSwapCause (C.counts chain.old) (C.counts chain.new)
        ((C.counts chain.old).names + level_tiles root.old.box level)) }
    ensures loans { C.loans chain.new ≡ C.loans chain.old }
    ensures valid { C.is_valid chain.old → C.is_valid chain.new }
{
    let source = needed(abyss, level_box(extent, level), rect);
    let part = level_part(root, chain, extent, level, source.part)?;
    let placed = put_at(part, source.placed);
    let read = under_policy(root.allocator(), placed, abyss, rect)?;
    Ok(read)
}

/// Returns a part with its pixels in their order at another rectangle of its size, without a copy.
fn put_at(part: Patch, placed: Rect) -> Patch
    requires width { placed.width ≡ part.box.width }
    requires height { placed.height ≡ part.box.height }
    requires limits { InLimits placed }
    ensures { result ≡ moved part placed }
{
    let format = part.format();
    Patch::from_vec(placed, format, part.into_raw())
}

/// Returns the samples of a rectangle under a policy outside a part.
fn under_policy(alloc: Global, part: Patch, abyss: Abyss, rect: Rect) -> Result<Patch, NoMemory>
    requires { InLimits rect }
    ensures { IfOk result (λ patch. patch ≡ image_from_fn rect part.format (abyss_at part abyss)) }
{
    if part.rect() == rect {
        return Ok(part);
    }
    fetch(alloc, &part, abyss, rect)
}

/// A part of a box, and the rectangle of its size at which its pixels are looked at.
#[derive(Clone, Copy)]
pub(crate) struct Source {
    pub part: Rect,
    pub placed: Rect,
}

impl Source {
    /// Returns a part that stays where it is.
    fn in_place(part: Rect) -> Source
        ensures part { result.part ≡ part }
        ensures placed { result.placed ≡ part }
    {
        Source { part, placed: part }
    }
}

/// Returns a part of a box by which alone a rectangle can be read under a policy.
fn needed(abyss: Abyss, bounds: Rect, rect: Rect) -> Source
    ensures { IsEnough abyss bounds rect result }
{
    match abyss {
        Abyss::None | Abyss::Black | Abyss::White => Source::in_place(rect.meet(&bounds)),
        Abyss::Clamp => clamped(bounds, rect),
        Abyss::Loop => looped(bounds, rect),
    }
}

/// Returns whether a policy reads nothing of a box for a rectangle, since one of them has no position.
fn is_unread(bounds: &Rect, rect: &Rect) -> bool
    ensures none { IsTrue result → (rect.now ≡ empty) ⊎ (bounds.now ≡ empty) }
    ensures some { result ≡ false → (is_empty rect.now ≡ false) × (is_empty bounds.now ≡ false) }
{
    rect.is_empty() || bounds.is_empty()
}

/// Returns the smallest rectangle of the positions of a box that are nearest to those of a rectangle.
fn clamped(bounds: Rect, rect: Rect) -> Source
    ensures { IsEnough Abyss.Clamp bounds rect result }
{
    if is_unread(&bounds, &rect) {
        return Source::in_place(Rect::EMPTY);
    }
    let (first_column, end_column) = (bounds.first_column(), bounds.end_column());
    let (first_row, end_row) = (bounds.first_row(), bounds.end_row());
    Source::in_place(Rect::spanning(
        nearest(first_column, end_column, rect.first_column()),
        nearest(first_row, end_row, rect.first_row()),
        nearest(first_column, end_column, rect.end_column() - 1) + 1,
        nearest(first_row, end_row, rect.end_row() - 1) + 1,
    ))
}

/// Returns the number from a start to before an end that is nearest to another.
fn nearest(start: u32, end: u32, n: u32) -> u32
    requires { start < end }
    ensures value { result ≡ max start (min n (end - 1)) }
    ensures below { result < end }
{
    n.min(end - 1).max(start)
}

/// Returns the columns and the rows of a box of which a rectangle has a period in one piece, put at the rectangle,
/// and else all of them.
fn looped(bounds: Rect, rect: Rect) -> Source
    ensures { IsEnough Abyss.Loop bounds rect result }
{
    if is_unread(&bounds, &rect) {
        return Source::in_place(Rect::EMPTY);
    }
    let columns = loop_side(columns_of(&bounds), columns_of(&rect));
    let rows = loop_side(rows_of(&bounds), rows_of(&rect));
    Source {
        part: Rect::spanning(
            columns.from,
            rows.from,
            columns.from + columns.count,
            rows.from + rows.count,
        ),
        placed: Rect::spanning(
            columns.to,
            rows.to,
            columns.to + columns.count,
            rows.to + rows.count,
        ),
    }
}

/// So many columns or rows from one on, put at others from another on.
#[derive(Clone, Copy)]
pub(crate) struct Side {
    pub from: u32,
    pub to: u32,
    pub count: u32,
}

/// So many columns or rows of the plane from one on.
#[derive(Clone, Copy)]
struct Span {
    start: u32,
    len: u32,
    ghost in_plane: { start + len ≤ plane_side },
}

/// Returns the columns of a rectangle.
fn columns_of(rect: &Rect) -> Span
    ensures start { result.start ≡ rect.now.first_column }
    ensures len { result.len ≡ rect.now.width }
{
    Span {
        start: rect.first_column(),
        len: rect.end_column() - rect.first_column(),
    }
}

/// Returns the rows of a rectangle.
fn rows_of(rect: &Rect) -> Span
    ensures start { result.start ≡ rect.now.first_row }
    ensures len { result.len ≡ rect.now.height }
{
    Span {
        start: rect.first_row(),
        len: rect.end_row() - rect.first_row(),
    }
}

/// Returns the part of columns or rows that others read periodically: all of them, unless the others are in one
/// period.
fn loop_side(bounds: Span, read: Span) -> Side
    requires some { 0 < bounds.len }
    requires few { 0 < read.len }
    ensures { IsLoopSide bounds.start bounds.len read.start read.len result }
{
    let from = wrapped(bounds, read.start);
    if from + read.len <= bounds.start + bounds.len {
        return Side {
            from,
            to: read.start,
            count: read.len,
        };
    }
    Side {
        from: bounds.start,
        to: bounds.start,
        count: bounds.len,
    }
}

/// Returns, of a span, the number that is a whole multiple of its length away from a number.
fn wrapped(span: Span, number: u32) -> u32
    requires { 0 < span.len }
    ensures value { result ≡ wrapped span.start span.len number }
    ensures within { Within span.start span.len result }
{
    let (first, period) = (u64::from(span.start), u64::from(span.len));
    let shifted = u64::from(number) + first * period - first;
    span.start + (shifted % period) as u32
}

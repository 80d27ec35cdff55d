//! The rectangles of commands, of numbers as they are written.

ghost use Rattle.std.specs.Prelude.{◌≡◌};
ghost use Rattle.script_fields.specs.Fields.{rect_in_limits};

use crate::cause::ScriptCause;
use crate::limits::may_watch;
use pixel_formats::limits::{MAX_FRAMES, MAX_LEVEL, MAX_VIEWERS};
use plane_rect::{Rect, RectRefused};

/// Four numbers that may be a rectangle's: its left column, its top row, its width and its height,
/// in pixels.
#[derive(Clone, Copy, Debug, PartialEq, Eq)]
pub struct RectNumbers {
    pub x: i64,
    pub y: i64,
    pub w: i64,
    pub h: i64,
}

impl RectNumbers {
    ghost use Rattle.std.specs.Prelude.{◌≡◌};
    ghost use Rattle.script_fields.specs.Fields.{level_rect_of, rect_of, watched_rect_of};

    /// Returns their rectangle.
    ///
    /// # Errors
    ///
    /// `Rect` exactly where they are none in limits.
    pub fn rect(self) -> Result<Rect, ScriptCause>
        ensures { result ≡ rect_of self }
    {
        rect_in_limits(Rect::new(self.x, self.y, self.w, self.h))
    }

    /// Returns their rectangle of a level.
    ///
    /// # Errors
    ///
    /// `Rect` exactly where they are none, or none whose positions are in limits at level 0.
    #[tactic(auto, unfolding(crate::specs::Fields::level_rect_of))]
    pub fn level_rect(self, level: u32) -> Result<Rect, ScriptCause>
        ensures { result ≡ level_rect_of level self }
    {
        let rect = self.rect()?;
        if level <= MAX_LEVEL && rect.scaled(level).is_some() {
            Ok(rect)
        } else {
            Err(ScriptCause::Rect)
        }
    }

    /// Returns their rectangle, of which so many viewers may render so many frames and one more.
    ///
    /// # Errors
    ///
    /// `Rect` exactly where they are none in limits, or one with too many pixels for that.
    #[tactic(auto, unfolding(crate::specs::Fields::watched_rect_of))]
    pub fn watched_rect(self, viewers: u32, frames: u32) -> Result<Rect, ScriptCause>
        ensures { result ≡ watched_rect_of viewers frames self }
    {
        let rect = self.rect()?;
        if viewers <= MAX_VIEWERS && frames <= MAX_FRAMES && may_watch(viewers, frames, &rect) {
            Ok(rect)
        } else {
            Err(ScriptCause::Rect)
        }
    }
}

/// Returns the rectangle, where it is one in limits.
///
/// # Errors
///
/// `Rect` exactly where it isn't.
#[tactic(auto, unfolding(crate::specs::Fields::rect_in_limits))]
fn rect_in_limits(rect: Result<Rect, RectRefused>) -> Result<Rect, ScriptCause>
    ensures { result ≡ rect_in_limits rect }
{
    match rect {
        Ok(rect) if rect.in_limits() => Ok(rect),
        _ => Err(ScriptCause::Rect),
    }
}

//! The fields of a line, taken by their kinds. Each is named by its index among the fields, from 0 on.
//! The fields of a form are of its kinds, so only a rectangle is refused for what it is.

ghost use Rattle.std.specs.Prelude.{◌≡◌, ◌≤◌, drop};
ghost use Rattle.script_read.specs.Arguments.{file_at, format_at, integer_at, level_rect_at, name_at, natural_at, numbers_at, policy_at, rect_at, sideways_at, watched_rect_at};

use pixel_formats::{Abyss, Format};
use plane_rect::{Name, Rect};
use script_fields::{Field, FileName, RectNumbers, ScriptCause};

/// Returns the value of the field at an index, where it is of a kind.
macro_rules! field_at {
    ($kind:ident, $fields:ident, $index:ident) => {
        match $fields.get($index) {
            Some(Field::$kind(value)) => Ok(*value),
            _ => Err(ScriptCause::Rect),
        }
    };
}

/// Returns the name at an index.
pub(crate) fn name_at(fields: &[Field], index: usize) -> Result<Name, ScriptCause>
    ensures { result ≡ name_at fields.now index }
{
    field_at!(Name, fields, index)
}

/// Returns the name of a file at an index.
pub(crate) fn file_at(fields: &[Field], index: usize) -> Result<FileName, ScriptCause>
    ensures { result ≡ file_at fields.now index }
{
    field_at!(File, fields, index)
}

/// Returns the format at an index.
pub(crate) fn format_at(fields: &[Field], index: usize) -> Result<Format, ScriptCause>
    ensures { result ≡ format_at fields.now index }
{
    field_at!(Format, fields, index)
}

/// Returns the policy at an index.
pub(crate) fn policy_at(fields: &[Field], index: usize) -> Result<Abyss, ScriptCause>
    ensures { result ≡ policy_at fields.now index }
{
    field_at!(Policy, fields, index)
}

/// Returns whether the direction at an index is sideways.
pub(crate) fn sideways_at(fields: &[Field], index: usize) -> Result<bool, ScriptCause>
    ensures { result ≡ sideways_at fields.now index }
{
    field_at!(Sideways, fields, index)
}

/// Returns the natural number at an index.
pub(crate) fn natural_at(fields: &[Field], index: usize) -> Result<u32, ScriptCause>
    ensures { result ≡ natural_at fields.now index }
{
    field_at!(Natural, fields, index)
}

/// Returns the integer at an index.
pub(crate) fn integer_at(fields: &[Field], index: usize) -> Result<i64, ScriptCause>
    ensures { result ≡ integer_at fields.now index }
{
    field_at!(Integer, fields, index)
}

/// Returns the fields from an index on.
pub(crate) fn fields_from(fields: &[Field], index: usize) -> &[Field]
    ensures { result.now ≡ drop index fields.now }
{
    if index < fields.len() {
        &fields[index..]
    } else {
        &[]
    }
}

/// Returns the four numbers of a rectangle, from an index on.
fn numbers_at(fields: &[Field], index: usize) -> Result<RectNumbers, ScriptCause>
    requires { index ≤ 8 }
    ensures { result ≡ numbers_at fields.now index }
{
    let x = integer_at(fields, index)?;
    let y = integer_at(fields, index + 1)?;
    let w = integer_at(fields, index + 2)?;
    let h = integer_at(fields, index + 3)?;
    Ok(RectNumbers { x, y, w, h })
}

/// Returns the rectangle of the four numbers from an index on.
///
/// # Errors
///
/// `Rect` where they are none in limits.
pub(crate) fn rect_at(fields: &[Field], index: usize) -> Result<Rect, ScriptCause>
    requires { index ≤ 8 }
    ensures { result ≡ rect_at fields.now index }
{
    numbers_at(fields, index)?.rect()
}

/// Returns the rectangle of a level, of the four numbers from an index on.
///
/// # Errors
///
/// `Rect` where they are none that may be read at the level.
pub(crate) fn level_rect_at(fields: &[Field], index: usize, level: u32) -> Result<Rect, ScriptCause>
    requires { index ≤ 8 }
    ensures { result ≡ level_rect_at fields.now index level }
{
    numbers_at(fields, index)?.level_rect(level)
}

/// Returns the rectangle of a watch, of the four numbers from an index on.
///
/// # Errors
///
/// `Rect` where they are none that so many viewers may render so many times.
pub(crate) fn watched_rect_at(
    fields: &[Field],
    index: usize,
    viewers: u32,
    frames: u32,
) -> Result<Rect, ScriptCause>
    requires { index ≤ 8 }
    ensures { result ≡ watched_rect_at fields.now index viewers frames }
{
    numbers_at(fields, index)?.watched_rect(viewers, frames)
}

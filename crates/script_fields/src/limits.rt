//! The limits of the fields of commands, by their kinds, and of rectangles.

ghost use Rattle.std.specs.Prelude.{◌≡◌, ◌↔◌, ◌≤◌, IsTrue, drop};
ghost use Rattle.script_fields.specs.Limits.{AreOf, IsFirst, IsOf, may_watch, word_count};

use crate::field::Field;
use crate::kind::Kind;
use pixel_formats::Abyss;
use pixel_formats::limits::{MAX_PREFIX_BYTES, MAX_WATCHED_PIXELS, is_in};
use plane_rect::Rect;

/// Returns whether a field has a variant whose value passes a test.
macro_rules! is_field {
    ($field:ident, $variant:ident) => {
        matches!($field, Field::$variant(_))
    };
    ($field:ident, $variant:ident($value:ident) if $test:expr) => {
        match $field {
            Field::$variant($value) => $test,
            _ => false,
        }
    };
}

/// Returns whether fields are of the first of some kinds, in their order: numbers are in their
/// ranges, and rectangles, which have four words, in limits.
pub fn are_of(kinds: &[Kind], fields: &[Field]) -> bool
    ensures { IsTrue result ↔ AreOf kinds.now fields.now }
{
    let mut kinds = kinds;
    for field in fields {
        if !is_first(kinds, field) {
            return false;
        }
        kinds = kinds_from(kinds, word_count(field));
    }
    true
}

/// Returns whether a field is of the first of some kinds, and a rectangle in limits.
fn is_first(kinds: &[Kind], field: &Field) -> bool
    ensures { IsTrue result ↔ IsFirst kinds.now field.now }
{
    match (field, kinds.first()) {
        (Field::Rect(rect), _) => rect.in_limits(),
        (_, Some(kind)) => is_of(*kind, field),
        (_, None) => false,
    }
}

/// Returns whether a field is of a kind, and in its range.
fn is_of(kind: Kind, field: &Field) -> bool
    ensures { IsTrue result ↔ IsOf kind field.now }
{
    match kind {
        Kind::Name => is_field!(field, Name),
        Kind::File => is_field!(field, File),
        Kind::Prefix => is_field!(field, File(name) if name.as_bytes().len() <= MAX_PREFIX_BYTES),
        Kind::Format => is_field!(field, Format),
        Kind::Policy => is_field!(field, Policy),
        Kind::AreaPolicy => is_field!(field, Policy(policy) if *policy != Abyss::Loop),
        Kind::Direction => is_field!(field, Sideways),
        Kind::Operation => matches!(field, Field::Operation),
        Kind::Natural { low, high } => is_field!(field, Natural(value) if is_in(low, high, *value)),
        Kind::Integer { low, high } => {
            is_field!(field, Integer(value) if low <= *value && *value <= high)
        }
    }
}

/// Returns how many words a field has.
fn word_count(field: &Field) -> usize
    ensures { result ≡ word_count field.now }
{
    match field {
        Field::Rect(_) => 4,
        _ => 1,
    }
}

/// Returns the kinds from an index on.
pub fn kinds_from(kinds: &[Kind], index: usize) -> &[Kind]
    ensures { result.now ≡ drop index kinds.now }
{
    if index < kinds.len() {
        &kinds[index..]
    } else {
        &[]
    }
}

/// Returns whether so many viewers may render a rectangle so many times and once more.
pub fn may_watch(viewers: u32, frames: u32, rect: &Rect) -> bool
    requires viewers { viewers ≤ 16 }
    requires frames { frames ≤ 64 }
    ensures { result ≡ may_watch viewers frames rect.now }
{
    u64::from(viewers) * u64::from(frames + 1) * rect.area() <= MAX_WATCHED_PIXELS
}

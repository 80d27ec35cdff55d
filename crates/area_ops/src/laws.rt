//! A law by which callers show what an area operation asks of its arguments.

ghost use Rattle.std.specs.Prelude.{ℕ, IsSome, List};
ghost use Rattle.pixel_formats.specs.{Limits.IsArea, declared.format.Format.Format};
ghost use Rattle.model_operations.specs.Meanings.{int_meanings};
ghost use Rattle.area_ops.specs.Kinds.{operation_of};

use crate::kind::AreaKind;
use pixel_formats::Abyss;

/// States that an operation on squares that gives a format has a radius and a policy that are in
/// range.
pub fn areas_in_range()
    ensures { (kind : AreaKind) (radius : ℕ) (policy : Abyss) (formats : List Format) →
        IsSome (int_meanings.format (operation_of kind radius policy) formats) → IsArea radius policy }
{}

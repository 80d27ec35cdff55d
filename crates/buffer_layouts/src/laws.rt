//! By which laws a caller knows the roots by their numbers.

ghost use Rattle.std.specs.Prelude.{◌≡◌, ◌<◌, List, ℕ, Some, length, slice_get};
ghost use Rattle.model_buffers.specs.Layout.{IsLayout, TableLayout, View, find, root_shape};
ghost use Rattle.buffer_layouts.specs.Views.{root_number};

/// States that what a buffer shows is a part of the root of its number.
pub fn roots_have_numbers()
    ensures below { (layout : TableLayout) (name : List ℕ) (view : View) →
        IsLayout layout → find layout.buffers name ≡ Some view → root_number layout view.root < length layout.roots }
    ensures entry { (layout : TableLayout) (name : List ℕ) (view : View) →
        IsLayout layout → find layout.buffers name ≡ Some view →
        slice_get layout.roots (root_number layout view.root) ≡ Some (view.root, root_shape layout view.root) }
{}

//! Vectors of which a clause sees the items alone.

ghost use Rattle.std.specs.Prelude.{◌≡◌};
ghost use Rattle.std.specs.Cmp.Lexicographic.{pointwise, lists_equiv, lists_per};

use std::alloc::AllocError;
use std::marker::Model;

/// Items in their order. A clause sees them as their list, and nothing of the vector that holds them.
#[derive(Debug, Drop)]
pub struct ItemList<T> {
    items: Vec<T>,
}

impl<T> Model for ItemList<T> {
    ghost use Rattle.std.specs.Prelude.{List};

    ghost Value = { List T };

    ghost view = { λ list. list.items.items };
}

impl<T> ItemList<T> {
    /// Makes the list of a vector's items. Takes no memory.
    pub fn new(items: Vec<T>) -> ItemList<T>
        ensures { result ≡ items.items }
    {
        ItemList { items }
    }

    /// Returns the items as a slice.
    pub fn as_slice(&self) -> &[T]
        ensures { result.now ≡ self.now }
    {
        &self.items
    }

    /// Returns the vector of the items. Takes no memory.
    pub fn into_vec(self) -> Vec<T>
        ensures { result.items ≡ self }
    {
        self.items
    }
}

impl<T: Copy> Clone for ItemList<T> {
    ghost is_clone = { λ list copied. copied ≡ list };

    fn clone(&self) -> Result<ItemList<T>, AllocError> {
        let mut items = Vec::with_capacity(*self.items.allocator(), self.items.len())?;
        items.extend_from_slice(&self.items)?;
        Ok(ItemList { items })
    }
}

impl<T: PartialEq> PartialEq for ItemList<T> {
    ghost eq = { pointwise T.eq };

    ghost laws = { lists_per T.laws };

    fn eq(&self, other: &ItemList<T>) -> bool {
        self.items == other.items
    }
}

impl<T: Eq> Eq for ItemList<T> {
    ghost laws = { lists_equiv T.Eq.laws };
}

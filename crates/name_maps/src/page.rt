//! Values side by side, of which some may be missing.

ghost use Rattle.std.specs.Prelude.{◌≡◌, ℕ, ◌<◌, OnErr, OnOk, IsSome, IsTrue, None, Some, cond, nat_eq, slice_index_or};

use alloc_basics::NoMemory;

/// Returns the value at an index, where there is one.
pub(crate) fn value_in<V: Copy>(page: &[Option<V>], index: usize) -> Option<V>
    ensures { result ≡ slice_index_or page.now index None }
{
    if index < page.len() {
        page[index]
    } else {
        None
    }
}

/// Puts a value at an index, and makes the page long enough for it.
pub(crate) fn set_in<V: Copy>(
    page: &mut Vec<Option<V>>,
    index: usize,
    value: V,
) -> Result<(), NoMemory>
    requires { index < 32 }
    ensures set { OnOk result ((k : ℕ) → slice_index_or page.new.items k None
        ≡ cond (nat_eq k index) (Some value) (slice_index_or page.old.items k None)) }
    ensures unchanged { OnErr result (page.new.items ≡ page.old.items) }
{
    if page.len() <= index {
        page.resize(index + 1, None)?;
    }
    page[index] = Some(value);
    Ok(())
}

/// Puts a value where one is. Takes no memory.
pub(crate) fn replace_in<V: Copy>(page: &mut Vec<Option<V>>, index: usize, value: V)
    requires { IsSome (slice_index_or page.old.items index None) }
    ensures { (k : ℕ) → slice_index_or page.new.items k None
        ≡ cond (nat_eq k index) (Some value) (slice_index_or page.old.items k None) }
{
    if index < page.len() {
        page[index] = Some(value);
    }
}

/// Leaves no value at an index.
pub(crate) fn clear_in<V: Copy>(page: &mut Vec<Option<V>>, index: usize)
    ensures { (k : ℕ) → slice_index_or page.new.items k None
        ≡ cond (nat_eq k index) None (slice_index_or page.old.items k None) }
{
    if index < page.len() {
        page[index] = None;
    }
}

/// Returns whether there is no value. It looks at each of them until it finds one.
pub(crate) fn is_blank<V: Copy>(page: &[Option<V>]) -> bool
    ensures { IsTrue result → (k : ℕ) → slice_index_or page.now k None ≡ None }
{
    page.iter().all(|value| value.is_none())
}

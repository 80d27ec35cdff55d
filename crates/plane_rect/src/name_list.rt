//! Lists of names.

use crate::name::Name;
use alloc_basics::ItemList;

/// Names, in their order. A clause sees them as the list of the names' bytes.
pub type NameList = ItemList<Name>;

//! Lists of strips.

use alloc_basics::ItemList;
use model_states::Strip;

/// Strips of a request, from the top. A clause sees them as a list.
pub type StripList = ItemList<Strip>;

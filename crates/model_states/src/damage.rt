//! Damages of nodes, as plain data.

use alloc_basics::ItemList;
use plane_rect::{Name, Rect};

/// Nodes by their names, each with the rectangle outside of which its image has not changed. A clause
/// sees them as a list.
pub type DamageList = ItemList<(Name, Rect)>;

/// The damage of a step: for each node of the old state or the new one the rectangle outside of which its
/// image has not changed.
#[derive(Drop)]
pub struct Damage {
    /// The number of the new state.
    pub number: u64,
    /// The new nodes in their order, and then those that are gone.
    pub rects: DamageList,
}

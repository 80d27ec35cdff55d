//! Tiles under names, in runs of blocks of a swap disk.
#![tactic(auto)]

mod block_map;
mod disk_answers;
mod extents;
mod laws;
mod runs;
mod store;

pub use chain_owners::{ChainMeaning, Run, SwapRefused};
pub use laws::{few_names_leave_room, free_runs_are_used};
pub use store::{Store, StoreMemory, SwapStore};

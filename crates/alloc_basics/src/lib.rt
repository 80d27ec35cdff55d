//! What every crate needs that takes memory: the error of running out of it, and vectors as the lists of their items.
#![tactic(auto)]

mod item_list;
mod memory;

pub use item_list::ItemList;
pub use memory::{NoMemory, OutOfMemory};

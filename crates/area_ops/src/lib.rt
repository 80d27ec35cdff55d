//! The operations that read the square around each position, carried out on parts of tiles.
#![tactic(auto)]

mod grown;
mod kind;
pub mod laws;
mod part;

pub use kind::AreaKind;
pub use part::area_part;

//! Maps from names to small values, for names that mostly follow one another.
#![tactic(auto)]

mod name_map;
mod name_pages;
mod page;

pub use name_map::NameMap;
#[doc(hidden)]
pub use name_pages::NamePages;

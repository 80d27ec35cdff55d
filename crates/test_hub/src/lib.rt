//! Worked examples of hubs, and hubs whose editor and viewers run side by side.
#![tactic(auto)]

mod pages;
mod publications;
#[cfg(test)]
mod tests;
#[cfg(test)]
mod watches;

pub use pages::Page;
pub use publications::publish_next;

//! Batches of work. Pieces are handed out one by one to whichever thread has none, so that none waits while another has
//! several left, and what was made of them comes back in their order.
#![tactic(auto)]

mod batches;
mod pieces;
mod placing;
mod pool;
mod sharing;
mod takers;

pub use batches::work_batch;
pub use pieces::{Answer, Hand, Piece};
pub use pool::{EachOnce, Owner, Thief, ThiefPass};

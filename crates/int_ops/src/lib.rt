//! The kit that carries out the fifteen operations.
#![tactic(auto)]

mod area_op;
mod kit;
mod purse;

pub use kit::IntKit;
pub use model_operations::IntOp;
pub use purse::{IntPermit, IntPurse};

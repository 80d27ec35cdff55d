//! Plans of renders: the tiles that a request needs, strip by strip.
#![tactic(auto)]

mod asks;
mod inputs;
mod need;
mod planning;
mod refused;
mod region;
mod strips;

pub use inputs::{NodeInputs, all_inputs};
pub use model_states::{NeedList, Strip};
pub use need::strip_need;
pub use planning::plan;
pub use refused::PlanRefused;
pub use strips::StripList;

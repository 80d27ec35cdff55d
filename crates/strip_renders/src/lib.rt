//! One strip of a render: its needed tiles, looked up in a cache or evaluated, for whatever kit, source of
//! tiles and store of pairs.
#![tactic(auto)]

mod ahead;
mod batch;
mod evaluator;
mod fresh;
mod jobs;
mod needed;
mod strip;
mod turns;

pub use ahead::AheadTiles;
pub use evaluator::Evaluator;
pub use strip::{StripDone, render_strip};

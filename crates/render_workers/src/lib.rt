//! Renders of requests, strip by strip, for whatever kit, source of tiles and store of pairs.
#![tactic(auto)]

pub mod laws;
mod part;
mod plan;
mod refused;
mod rendering;
mod scene;
mod strips;

pub use frozen_images::{FrozenBuffer, SceneTiles};
pub use refused::RenderRefused;
pub use rendering::{Rendered, render};
pub use scene::Scene;
pub use work_batches::work_batch;

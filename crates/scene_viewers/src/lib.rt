//! Viewers of scenes, which keep the tiles of nodes that they evaluated: what the damages between two
//! scenes leave of them is right for the later one.
#![tactic(auto)]

mod frames;
mod hub;
mod hub_scene;
mod leaving;
mod refused;
mod viewer;
mod viewer_calls;

pub use hub::Hub;
pub use hub_scene::HubScene;
pub use refused::ViewRefused;
pub use scene_hub::{Editor, HubRefused, Receipt};
pub use viewer::{Frame, Viewer};

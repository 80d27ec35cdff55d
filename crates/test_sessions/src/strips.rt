//! Patches of levels, pictures that keep tiles, frozen images and scenes. The expected samples were worked out by hand.

mod frozen_tiles;
mod levels;
mod lone_scene;
mod patches;
mod pictures;

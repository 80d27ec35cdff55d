//! Gates: what is reported of a watch while it runs.

/// Learns of each frame that a viewer rendered, and of each scene that was published.
pub trait Gate {
    /// Reports that viewer `viewer` has rendered its frame `frame`; both count from 0.
    fn looked(&self, viewer: u32, frame: u32);

    /// Reports that the scene of commit `number` was published.
    fn published(&self, number: u64);
}

/// Does nothing.
#[derive(Clone, Copy, Debug)]
pub struct OpenGate;

impl Gate for OpenGate {
    fn looked(&self, _viewer: u32, _frame: u32) {}

    fn published(&self, _number: u64) {}
}

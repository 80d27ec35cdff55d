//! The samples of one pixel.

use alloc_basics::ItemList;

/// The samples of a pixel, one for each channel in the order of its format. A clause sees them as
/// their list.
pub type PixelSamples = ItemList<u32>;

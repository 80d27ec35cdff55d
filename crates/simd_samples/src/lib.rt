//! Vectors of sixteen samples, of one byte, two or four each, as kernels compute with them.
#![tactic(auto)]

mod byte_lanes;
mod depths;
mod four_lanes;
mod four_long_lanes;
mod lanes;
mod long_lanes;
mod positions;
mod quotients;
mod short_lanes;
mod shuffles;
mod vectors;
mod wide_lanes;
mod wide_long_lanes;
mod widen;
mod word_lanes;

pub use byte_lanes::ByteLanes;
pub use depths::Rescale;
pub use four_lanes::FourLanes;
pub use four_long_lanes::FourLongLanes;
pub use lanes::Lanes;
pub use long_lanes::LongLanes;
pub use short_lanes::ShortLanes;
pub use shuffles::{ShuffleOfThree, ShuffleOfTwo};
pub use vectors::{
    load_at, load_four, load_three, load_two, store_at, store_four, store_three, store_two,
};
pub use wide_lanes::WideLanes;
pub use wide_long_lanes::WideLongLanes;
pub use widen::Widen;
pub use word_lanes::WordLanes;

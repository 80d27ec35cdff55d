//! What is outside of the engine: shelves of files, swap disks, sinks and gates.
#![tactic(auto)]

mod bands;
mod failing_calls;
mod file_name;
mod file_parts;
mod file_swap;
mod folder_shelf;
mod gate;
mod lent;
mod meet_gate;
mod mem_shelf;
mod mem_sink;
mod mem_swap;
mod new_files;
mod open_files;
mod shelf;
mod sink;
mod std_sink;
mod stored_blocks;
mod stored_files;
mod sure_shelf;
mod sure_sink;
mod sure_swap;
mod swap;

pub use alloc_basics::NoMemory;
pub use bands::{Bands, BandsAnswer};
pub use file_name::is_file_name;
pub use file_swap::FileSwap;
pub use folder_shelf::FolderShelf;
pub use gate::{Gate, OpenGate};
pub use lent::Lent;
pub use meet_gate::MeetGate;
pub use mem_shelf::MemShelf;
pub use mem_sink::MemSink;
pub use mem_swap::MemSwap;
pub use shelf::{Shelf, ShelfAnswer};
pub use sink::{Sink, SinkAnswer};
pub use std_sink::StdSink;
pub use sure_shelf::SureShelf;
pub use sure_sink::SureSink;
pub use sure_swap::SureSwap;
pub use swap::{SwapAnswer, SwapDisk};

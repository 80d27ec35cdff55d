//! What the devices in memory return and leave, also where each of their calls in turn fails, those of the system: a
//! folder, a file and standard output, stores of tiles over swap disks, and batches of work among threads. All expected
//! values were worked out by hand, but for those of a naive store.
#![tactic(auto)]

#[cfg(test)]
mod batches;
#[cfg(test)]
mod check;
#[cfg(test)]
mod disk_steps;
#[cfg(test)]
mod disks;
#[cfg(test)]
mod failing_calls;
#[cfg(test)]
mod gates;
#[cfg(test)]
mod long_files;
#[cfg(test)]
mod pieces;
#[cfg(test)]
mod plain_shelf;
#[cfg(test)]
mod shelf_steps;
#[cfg(test)]
mod shelves;
#[cfg(test)]
mod sinks;
mod stores;

pub use stores::keep;

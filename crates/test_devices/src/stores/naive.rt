//! A store that keeps its names in a list, and an owner for each block.

use chain_owners::SwapRefused;
use std::alloc::Global;
use std::process::Abort;
use swap_store::Run;

/// The bytes of a block.
const BLOCK_BYTES: usize = 4096;

/// Names with their bytes, and the name of each block.
#[derive(Drop)]
pub struct NaiveStore {
    pub entries: Vec<(u64, Vec<u8>)>,
    owners: Vec<Option<u64>>,
}

impl NaiveStore {
    /// Returns a store of no names, over this many blocks.
    pub fn new(rt: &impl Abort, alloc: Global, blocks: usize) -> NaiveStore {
        NaiveStore {
            entries: Vec::new(alloc),
            owners: vec![in alloc; None; blocks].expect(rt, "memory"),
        }
    }

    /// Returns the free runs, each looked for block by block.
    pub fn free_runs(&self, rt: &impl Abort, alloc: Global) -> Vec<Run> {
        let mut runs = Vec::new(alloc);
        let mut open: Option<Run> = None;
        for (block, owner) in (0..u32::MAX).zip(self.owners.iter()) {
            open = match (owner, open) {
                (None, Some(run)) => Some(Run {
                    first: run.first,
                    count: run.count.saturating_add(1),
                }),
                (None, None) => Some(Run {
                    first: block,
                    count: 1,
                }),
                (Some(_), Some(run)) => {
                    runs.push(run).expect(rt, "memory");
                    None
                }
                (Some(_), None) => None,
            };
        }
        if let Some(run) = open {
            runs.push(run).expect(rt, "memory");
        }
        runs
    }

    /// Returns what a put of so many bytes is to answer.
    pub fn wanted_answer(
        &self,
        rt: &impl Abort,
        alloc: Global,
        len: usize,
    ) -> Result<(), SwapRefused> {
        let needed = u32::try_from(len.div_ceil(BLOCK_BYTES)).unwrap_or(u32::MAX);
        let mut longest = 0;
        for run in &self.free_runs(rt, alloc) {
            longest = longest.max(run.count);
        }
        if needed <= longest {
            Ok(())
        } else {
            Err(SwapRefused::SwapFull { needed, longest })
        }
    }

    /// Puts a name into the lowest run that is long enough.
    pub fn put(&mut self, rt: &impl Abort, alloc: Global, name: u64, bytes: &[u8]) {
        let needed = bytes.len().div_ceil(BLOCK_BYTES);
        for run in &self.free_runs(rt, alloc) {
            if run.count as usize >= needed {
                for owner in self.owners.iter_mut().skip(run.first as usize).take(needed) {
                    *owner = Some(name);
                }
                break;
            }
        }
        let bytes = bytes.to_vec(alloc).expect(rt, "memory");
        self.entries.push((name, bytes)).expect(rt, "memory");
    }

    /// Takes a name out.
    pub fn forget(&mut self, name: u64) {
        self.entries.retain(|entry| entry.0 != name);
        for owner in self.owners.iter_mut() {
            if *owner == Some(name) {
                *owner = None;
            }
        }
    }

    /// Returns the bytes of a name.
    pub fn bytes(&self, name: u64) -> Option<&[u8]> {
        for entry in &self.entries {
            if entry.0 == name {
                return Some(&entry.1);
            }
        }
        None
    }
}

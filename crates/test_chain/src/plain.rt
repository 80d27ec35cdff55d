//! A plain list of names with their pages and their owners.

use std::alloc::Global;
use std::process::Abort;

/// A name, the byte that its page has everywhere, and its number of owners.
#[derive(Clone, Copy, Debug, PartialEq, Eq)]
pub struct PlainName {
    pub name: u64,
    pub byte: u8,
    pub owners: u32,
}

/// Names in the order in which they were added.
#[derive(Drop)]
pub struct PlainNames {
    entries: Vec<PlainName>,
}

impl PlainNames {
    /// Returns a list without names.
    pub fn new(alloc: Global) -> PlainNames {
        PlainNames {
            entries: Vec::new(alloc),
        }
    }

    /// Returns the names as a slice.
    pub fn as_slice(&self) -> &[PlainName] {
        &self.entries
    }

    /// Returns some name, by a number, where there is one.
    pub fn some(&self, number: u64) -> Option<PlainName> {
        let index = number.checked_rem(self.entries.len() as u64)?;
        self.entries.get(index as usize).copied()
    }

    /// Adds a name.
    pub fn add(&mut self, rt: &impl Abort, entry: PlainName) {
        self.entries.push(entry).expect(rt, "memory");
    }

    /// Gives a name the page and the owners of this entry. Without owners it goes.
    pub fn change(&mut self, after: PlainName) {
        for entry in self.entries.iter_mut() {
            if entry.name == after.name {
                *entry = after;
            }
        }
        self.entries.retain(|entry| entry.owners > 0);
    }
}

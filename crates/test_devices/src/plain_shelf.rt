//! A shelf that has only what each shelf must have.

ghost use Rattle.std.specs.Prelude.{Some};

use outside_io::{MemShelf, Shelf, ShelfAnswer};

/// Reads files and writes them whole, and leaves all else to what every shelf is given.
#[derive(Drop)]
pub struct PlainShelf {
    pub shelf: MemShelf,
}

impl Shelf for PlainShelf {
    ghost files = { λ plain. Some plain.shelf.files };

    ghost read_faults = { λ plain. plain.shelf.reads.faults };

    ghost write_faults = { λ plain. plain.shelf.writes.faults };

    fn read(&mut self, name: &str, limit: u64) -> Result<Vec<u8>, ShelfAnswer> {
        self.shelf.read(name, limit)
    }

    fn write(&mut self, name: &str, bytes: &[u8]) -> Result<(), ShelfAnswer> {
        self.shelf.write(name, bytes)
    }
}

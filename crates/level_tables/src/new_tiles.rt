//! Tiles that are made beside a table, all of which become its own at once.

ghost use Rattle.std.specs.Prelude.{◌≡◌, ℕ, ◌+◌, ◌≤◌, ◌++◌, ◌∷◌, [], IfErr, IsSome, OnErr, OnOk, Some, length};
ghost use Rattle.std.specs.Map.{values_of};
ghost use Rattle.chain_owners.specs.{Counts.Grows, Owners.Respects};
ghost use Rattle.plane_rect.specs.Tile.{IsWhole};
ghost use Rattle.chain_owners.specs.Cause.{HasSwapCause};
ghost use Rattle.level_tables.specs.NewTiles.{Adds, AreNewTiles, tiles_in};
ghost use Rattle.level_tables.specs.Over.{tile_length};

use crate::tile_bytes::bytes_of;
use alloc_basics::NoMemory;
use chain_contracts::TileChain;
use chain_owners::SwapRefused;
use pixel_formats::Format;
use plane_rect::TileAt;
use std::alloc::Global;
use std::marker::Model;
use tile_cow::Tile;

/// Tiles that were made beside a table, under names of their own, of which they are the owner. A table
/// makes all of them its own at once by `switch`, and nothing is changed before.
///
/// A clause sees them as a record of their format and of their positions with their names, in the order
/// in which they were added, beside the room that the list has for more.
#[derive(Drop)]
pub struct NewTiles {
    format: Format,
    entries: Vec<(TileAt, u64)>,
}

impl Model for NewTiles {
    ghost use Rattle.std.specs.Prelude.{◌-◌};
    ghost use Rattle.std.specs.Vec.{vec_capacity, vec_len};
    ghost use Rattle.level_tables.specs.NewTiles.{MadeTiles};

    ghost Value = { MadeTiles };

    ghost view = { λ t. record {
      format = t.format;
      entries = t.entries.items;
      room = vec_capacity t.entries - vec_len t.entries;
    } };
}

impl NewTiles {
    /// Returns a list of no tile, whose later calls take memory from `alloc`.
    pub fn new(alloc: Global, format: Format) -> NewTiles
        ensures format { result.format ≡ format }
        ensures entries { result.entries ≡ [] }
    {
        NewTiles {
            format,
            entries: Vec::new(alloc),
        }
    }

    /// Makes room in the list for so many more tiles.
    ///
    /// # Errors
    ///
    /// `NoMemory` if memory runs out.
    pub fn reserve(&mut self, count: usize) -> Result<(), NoMemory>
        ensures format { self.new.format ≡ self.old.format }
        ensures entries { self.new.entries ≡ self.old.entries }
        ensures room { OnOk result (count ≤ self.new.room) }
    {
        self.entries.reserve(count)?;
        Ok(())
    }

    /// Returns the positions with their names.
    pub(crate) fn entries(&self) -> &[(TileAt, u64)]
        ensures { result.now ≡ self.now.entries }
    {
        &self.entries
    }

    /// Adds a name for a position. Takes no memory.
    fn push(&mut self, at: TileAt, name: u64)
        requires { 1 ≤ self.old.room }
        ensures format { self.new.format ≡ self.old.format }
        ensures entries { self.new.entries ≡ self.old.entries ++ (at, name) ∷ [] }
    {
        self.entries.push_reserved((at, name));
    }

    /// Adds a tile for a position, under a name of its own. After an error the tiles, the names and their
    /// bytes are as before.
    ///
    /// # Errors
    ///
    /// `SwapFault` only where the swap's count of I/O errors rose in this call, `SwapFull` only where
    /// one name more can fill the swap, and `NoMemory` if memory runs out.
    pub fn add<C: TileChain>(
        &mut self,
        chain: &mut C,
        at: TileAt,
        tile: Tile,
    ) -> Result<(), SwapRefused>
        requires over { AreNewTiles self.old.format self.old.entries (C.held chain.old) }
        requires length { length tile ≡ tile_length self.old.format }
        requires whole { IsWhole at }
        ensures added { OnOk result (Adds at tile self.old.entries self.new.entries (C.held chain.old) (C.held chain.new)) }
        ensures tiles { OnOk result (IsSome (C.held chain.old).content → tiles_in (C.held chain.new) self.new.entries
            ≡ tiles_in (C.held chain.old) self.old.entries ++ (at, Some tile) ∷ []) }
        ensures format { self.new.format ≡ self.old.format }
        ensures unchanged { OnErr result (self.new.entries ≡ self.old.entries) }
        ensures held { OnErr result (C.held chain.new ≡ C.held chain.old) }
        ensures over { AreNewTiles self.new.format self.new.entries (C.held chain.new) }
        ensures others { Respects (C.held chain.old) (C.held chain.new)
            (values_of self.old.entries) (values_of self.new.entries) }
        ensures counts { Grows 1 (C.counts chain.old) (C.counts chain.new) }
        ensures cause { IfErr result (HasSwapCause (C.counts chain.old) (C.counts chain.new)
            ((C.counts chain.old).names + 1)) }
        ensures loans { C.loans chain.new ≡ C.loans chain.old }
        ensures valid { C.is_valid chain.old → C.is_valid chain.new }
    {
        self.reserve(1)?;
        bytes_of(&tile);
        let name = chain.new_name(tile)?;
        self.push(at, name);
        Ok(())
    }

    /// Gives the tiles up, and with them all their names. Takes no memory.
    pub fn discard<C: TileChain>(self, chain: &mut C)
        requires { AreNewTiles self.format self.entries (C.held chain.old) }
        ensures others { Respects (C.held chain.old) (C.held chain.new) (values_of self.entries) [] }
        ensures counts { Grows 0 (C.counts chain.old) (C.counts chain.new) }
        ensures loans { C.loans chain.new ≡ C.loans chain.old }
        ensures valid { C.is_valid chain.old → C.is_valid chain.new }
    {
        for entry in self.entries() {
            chain.disown(entry.1);
        }
    }
}

//! Buffers that are duplicated.

ghost use Rattle.std.specs.Prelude.{◌≡◌, IfErr, IfOk, MatchResult, Err, None, Some};
ghost use Rattle.std.specs.Option.{option_map};
ghost use Rattle.chain_owners.specs.Owners.{Respects};
ghost use Rattle.model_buffers.specs.BufferEdit.{edit_refused, layout_with};
ghost use Rattle.model_buffers.specs.{Edits.table_with, declared.edit.BufferEdit.TheVariants.Duplicate};
ghost use Rattle.model_buffers.specs.declared.refused.EditRefused.{EditRefused as Cause};
ghost use Rattle.buffer_view.specs.BufferTables.{AreBuffersOver, buffers_names, table_of};
ghost use Rattle.buffer_view.specs.{Causes.HasAddCause, declared.refused.BufferRefused.TheVariants.Edit};

use crate::buffers::Buffers;
use crate::refused::BufferRefused;
use chain_contracts::TileChain;
use plane_rect::Name;

impl Buffers {
    /// Adds a buffer with the extent of another, on a root of its own that shares the tiles of the other's
    /// root: neither shows what is written to the other. The chain's names and bytes are unchanged. Takes one
    /// look into the chain for each tile of the root, and copies none.
    ///
    /// # Errors
    ///
    /// `UnknownBuffer` where no buffer has the second name, else `NameTaken` where a buffer has the first, else
    /// `TooManyBuffers` where 64 buffers are there, and `NoMemory` if memory runs out: the buffers and the chain
    /// are unchanged.
    pub fn dup<C: TileChain>(
        &mut self,
        chain: &mut C,
        name: Name,
        from: Name,
    ) -> Result<(), BufferRefused>
        requires { AreBuffersOver self.old (C.held chain.old) }
        ensures layout { MatchResult result
            (λ _. self.new.layout ≡ layout_with self.old.layout (Duplicate name from))
            (λ _. self.new.layout ≡ self.old.layout) }
        ensures table { MatchResult result
            (λ _. table_of self.new (C.held chain.new)
            ≡ option_map (λ table. table_with table (Duplicate name from)) (table_of self.old (C.held chain.old)))
            (λ _. table_of self.new (C.held chain.new) ≡ table_of self.old (C.held chain.old)) }
        ensures exact { (cause : Cause) → edit_refused self.old.layout (Duplicate name from) ≡ Some cause →
            result ≡ Err (Edit cause) }
        ensures cause { IfErr result (HasAddCause self.old.layout (Duplicate name from)) }
        ensures carried_out { IfOk result (λ _. edit_refused self.old.layout (Duplicate name from) ≡ None) }
        ensures over { AreBuffersOver self.new (C.held chain.new) }
        ensures others { Respects (C.held chain.old) (C.held chain.new) (buffers_names self.old) (buffers_names self.new) }
        ensures lengths { (C.held chain.new).lengths ≡ (C.held chain.old).lengths }
        ensures content { (C.held chain.new).content ≡ (C.held chain.old).content }
        ensures counts { C.counts chain.new ≡ C.counts chain.old }
        ensures loans { C.loans chain.new ≡ C.loans chain.old }
        ensures valid { C.is_valid chain.old → C.is_valid chain.new }
    {
        let view = self.layout.duplicate_source(name, from)?;
        self.layout.reserve()?;
        self.roots.reserve(1)?;
        let shared = self.roots[view.root].share(chain)?;
        self.layout.duplicate(name, from);
        self.roots.push_reserved(shared);
        Ok(())
    }
}

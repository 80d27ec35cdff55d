//! Renders of the last state.

ghost use Rattle.std.specs.Prelude.{◌≤◌, ◌+◌, ◌^◌};
ghost use Rattle.root_tiles.specs.Chains.{chain_state};
ghost use Rattle.render_workers.specs.Requests.{request};
ghost use Rattle.commit_session.specs.Renders.{RendersIn};
ghost use Rattle.commit_session.specs.Seen.{IsOver};

use crate::refused::SessionRefused;
use crate::state::SessionState;
use buffer_view::BufferTiles;
use chain_contracts::TileChain;
use model_graphs::OpMeaning;
use node_cache::PairStore;
use op_contracts::OpKit;
use plane_rect::{Name, Rect};
use render_workers::laws::requests_need_what_renders_need;
use std::thread::Threads;
use strip_patches::{Picture, PictureForm};
use worker_pieces::Workers;

impl<Op: OpMeaning + Drop> SessionState<Op> {
    /// Returns a rectangle of a level of the image of a node of the last state, in the form that is asked for. Each tile
    /// that it needs is looked up in the cache, or else evaluated, kept there, and paid for by one permit. Takes time in
    /// proportion to the needed tiles and to the rectangle at level 0.
    ///
    /// # Errors
    ///
    /// `Render` with `UnknownNode` exactly where the last state has no node of the name; with `Rect` exactly where
    /// it has, and the rectangle at level 0 is not in limits; with `Strip` exactly where, past these, a strip needs
    /// more tiles than the cache holds. Then nothing has changed. Else `Render` with the swap's causes, and
    /// `NoMemory` if memory runs out: then the cached pairs are those of a part of the request, and are right, and
    /// permits may be spent. No refused render is counted.
    pub fn render<K: OpKit<Op = Op> + Sync, C: TileChain, R: Threads + Sync>(
        &mut self,
        kit: &K,
        chain: &mut C,
        purse: &mut K::Purse,
        node: Name,
        level: u32,
        rect: Rect,
        form: PictureForm,
        workers: Workers<'_, R>,
    ) -> Result<Picture, SessionRefused>
    where
        Op: Sync,
        K::Permit: Send,
        requires over { IsOver Op.same Op.meanings self.old (C.held chain.old) }
        requires level { level ≤ 8 }
        requires permits { 2 ^ 32 ≤ K.permits purse.old }
        ensures { RendersIn Op.same Op.meanings form (λ picture. picture) (request node level rect) result self.old self.new
            (chain_state C.ChainMeaning chain.old) (chain_state C.ChainMeaning chain.new) (K.permits purse.old) (K.permits purse.new) }
    {
        requests_need_what_renders_need::<Op>();
        let capacity = PairStore::<C>::bound(&self.cache).unwrap();
        let mut sources = BufferTiles::new(self.versions.latest());
        let done = render_workers::render(
            kit,
            self.alloc,
            self.graph.nodes(),
            &mut sources,
            &mut self.cache,
            chain,
            purse,
            node,
            level,
            rect,
            capacity,
            form,
            workers,
        )?;
        self.counts.applied = self.counts.applied.saturating_add(done.applied);
        self.counts.reused = self.counts.reused.saturating_add(done.reused);
        Ok(done.picture)
    }
}

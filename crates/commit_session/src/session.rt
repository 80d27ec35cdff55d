//! Sessions that own their chain.

ghost use Rattle.std.specs.Prelude.{◌≡◌, ◌∷◌, ◌≤◌, ◌^◌, IfOk, min};
ghost use Rattle.tile_chain.specs.OwnedTiles.{counts_over, nothing_over};
ghost use Rattle.model_graphs.specs.Facts.{fact_of, specs_of};
ghost use Rattle.model_states.specs.Edits.{has_node};
ghost use Rattle.model_sessions.specs.Sessions.{new_session};
ghost use Rattle.commit_session.specs.Parts.{new_parts, working_facts};
ghost use Rattle.commit_session.specs.Seen.{IsOver, IsSessionOf};

use crate::state::{Counts, SessionState};
use alloc_basics::NoMemory;
use chain_contracts::TileChain;
use chain_owners::ChainMeaning;
use model_graphs::BufferFact;
use op_contracts::OpKit;
use outside_io::{Lent, SwapDisk};
use plane_rect::Name;
use std::alloc::Global;
use tile_chain::{Chain, OwnedTiles};

/// Buffers that are edited, graphs of nodes over them, and cached tiles, with the kit that carries out the
/// operations and the chain that holds all tiles. A clause sees a session as its `state`, and its `chain` by what
/// that holds, its counts and its loans. A new session is over its chain, and each call leaves it so.
#[derive(Drop)]
pub struct OwnedSession<K: OpKit, C: TileChain> {
    pub(crate) kit: K,
    pub(crate) chain: C,
    pub(crate) state: SessionState<K::Op>,
    pub(crate) workers: u32,
}

/// A session over a disk that was lent to it.
pub type Session<'s, K, D> = OwnedSession<K, Chain<'s, D>>;

impl<'s, K: OpKit + Drop, D: SwapDisk> OwnedSession<K, OwnedTiles<Lent<'s, D>>> {
    /// Returns a session without buffers and nodes, whose tiles take at most `blocks` blocks of a disk, or all where
    /// it has fewer, of which at most `resident` are in memory, which caches at most `cache` tiles of nodes,
    /// and whose work is split into at most `workers` pieces.
    /// It takes all its memory first, and lends the disk then. A caller that must still know the disk where memory runs
    /// out makes the state and a `ChainMemory` first, and then the session by [`OwnedSession::over`].
    ///
    /// # Errors
    ///
    /// `NoMemory` if memory runs out.
    pub fn new(
        alloc: Global,
        kit: K,
        swap: &'s mut D,
        blocks: u32,
        resident: u32,
        cache: u32,
        workers: u32,
    ) -> Result<Session<'s, K, D>, NoMemory>
        requires resident { 1 ≤ resident }
        requires cache { 1 ≤ cache }
        ensures parts { IfOk result (λ session. session.state ≡ new_parts cache) }
        ensures held { IfOk result (λ session.
            ⟦<Chain<'s, D> as ChainMeaning>⟧.held session.chain ≡ nothing_over (D.blocks swap.old)) }
        ensures counts { IfOk result (λ session. ⟦<Chain<'s, D> as ChainMeaning>⟧.counts session.chain
            ≡ counts_over (D.faults swap.old) (min blocks (D.block_count swap.old)) resident) }
        ensures loans { IfOk result (λ session.
            ⟦<Chain<'s, D> as ChainMeaning>⟧.loans session.chain ≡ swap.entry.ghost_name ∷ D.loans swap.old) }
        ensures valid { IfOk result (λ session. ⟦<Chain<'s, D> as ChainMeaning>⟧.is_valid session.chain) }
        ensures over { IfOk result (λ session. IsOver K.Op.same K.Op.meanings session.state
            (⟦<Chain<'s, D> as ChainMeaning>⟧.held session.chain)) }
        ensures session { IfOk result (λ session. IsSessionOf K.Op.same K.Op.meanings session.state
            (⟦<Chain<'s, D> as ChainMeaning>⟧.held session.chain) new_session) }
    {
        let state = SessionState::new(alloc, cache)?;
        let chain = OwnedTiles::new(alloc, swap, blocks, resident)?;
        Ok(OwnedSession::over(kit, chain, state, workers))
    }
}

impl<K: OpKit + Drop, D: SwapDisk + Drop> OwnedSession<K, OwnedTiles<D>> {
    /// Gives the disk back, as the last call left it: with its content and its count of I/O errors. All else is
    /// lost. Takes no memory.
    pub fn end(self) -> D
        ensures disk { result ≡ self.chain.tiles.below.below.store.disk }
        ensures faults { D.faults result ≡ (⟦<OwnedTiles<D> as ChainMeaning>⟧.counts self.chain).faults }
        ensures loans { D.loans result ≡ ⟦<OwnedTiles<D> as ChainMeaning>⟧.loans self.chain }
    {
        let OwnedSession {
            kit: _,
            chain,
            state: _,
            workers: _,
        } = self;
        chain.end()
    }
}

impl<K: OpKit, C: TileChain> OwnedSession<K, C> {
    /// Returns a session that holds what a state holds of a chain, which the session owns from then on, and whose work
    /// is split into at most `workers` pieces. A new state is over each chain. Takes no memory: whoever makes the
    /// state, and then the chain's memory, lends or gives a disk only once all memory is there.
    pub fn over(kit: K, chain: C, state: SessionState<K::Op>, workers: u32) -> OwnedSession<K, C>
        requires { IsOver K.Op.same K.Op.meanings state (C.held chain) }
        ensures kit { result.kit ≡ kit }
        ensures state { result.state ≡ state }
        ensures chain { result.chain ≡ chain }
        ensures workers { result.workers ≡ workers }
    {
        OwnedSession {
            kit,
            chain,
            state,
            workers,
        }
    }

    /// Returns what is known of a buffer that is edited; None exactly where none has the name. Its cost is
    /// proportional to the number of buffers.
    pub fn extent(&self, name: Name) -> Option<BufferFact>
        ensures { result ≡ fact_of (working_facts self.now.state) name }
    {
        self.state.extent(name)
    }

    /// Returns the number of the last state.
    pub fn number(&self) -> u64
        ensures { result ≡ self.now.state.graph.number }
    {
        self.state.number()
    }

    /// Returns whether the last state has a node of a name. Its cost is proportional to the number of nodes.
    pub fn has_node(&self, name: Name) -> bool
        ensures { result ≡ has_node (specs_of self.now.state.graph.latest.nodes) name }
    {
        self.state.has_node(name)
    }

    /// Returns how many tiles the renders that were not refused evaluated and found.
    pub fn counts(&self) -> Counts
        ensures applied { result.applied ≡ self.now.state.applied }
        ensures reused { result.reused ≡ self.now.state.reused }
    {
        self.state.counts()
    }
}

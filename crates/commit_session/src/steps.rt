//! Commits, undos and redos.

ghost use Rattle.std.specs.Prelude.{◌≡◌, []};
ghost use Rattle.std.specs.Map.{values_of};
ghost use Rattle.std.specs.Option.{option_map};
ghost use Rattle.model_states.specs.Cache.{all_voided, by_pair};
ghost use Rattle.model_states.specs.Directions.{ahead, stepped};
ghost use Rattle.node_cache.specs.NodeNames.{IsNodeCache, cached_in, sizes_in};
ghost use Rattle.node_cache.specs.Stores.{AddsNoOther, HaveOneOwner, by_sized};
ghost use Rattle.graph_edits.specs.Refusals.{IsRefusalOf};
ghost use Rattle.root_tiles.specs.Chains.{Leaves, chain_state};
ghost use Rattle.commit_session.specs.Commits.{Commits, commit_step, step_in};
ghost use Rattle.commit_session.specs.Refusals.{IsRefusedAs, by_graph};
ghost use Rattle.commit_session.specs.Seen.{IsOver};
ghost use Rattle.commit_session.specs.Steps.{IsSettled};

use crate::refused::SessionRefused;
use crate::state::SessionState;
use crate::voids::void_all;
use chain_contracts::TileChain;
use graph_commits::Graph;
use model_graphs::OpMeaning;
use model_states::{Damage, Direction};
use op_contracts::OpKit;

impl<Op: OpMeaning + Drop> SessionState<Op> {
    /// Commits the pending edits of nodes over the buffers that are edited: they are the next state, and its
    /// number is returned. Nothing can be redone after it. Exactly the cached pairs whose tile meets the damage of
    /// their node are voided. It takes all its memory first. Takes time in proportion to the damage and to the
    /// nodes with their inputs, and one look at each tile that the buffers hold.
    ///
    /// # Errors
    ///
    /// `Graph` with `TooManyCommits`, or else with the cause of the first edit that is refused, or else of the
    /// first node that is not valid; and `NoMemory` if memory runs out. The session is unchanged: the pending
    /// edits are still pending.
    pub fn commit<K: OpKit<Op = Op>, C: TileChain>(
        &mut self,
        kit: &K,
        chain: &mut C,
    ) -> Result<u64, SessionRefused>
        requires { IsOver Op.same Op.meanings self.old (C.held chain.old) }
        ensures { Commits Op.same Op.meanings (commit_step Op.same Op.meanings) result self.old self.new
            (chain_state C.ChainMeaning chain.old) (chain_state C.ChainMeaning chain.new) }
    {
        let shared = self.versions.share_working(chain)?;
        let facts = self.versions.working().facts();
        match self.graph.commit(kit, &self.pending, facts, &self.written) {
            Ok(damage) => {
                self.versions.commit(chain, shared);
                self.settle(chain, &damage);
                Ok(damage.number)
            }
            Err(refused) => {
                shared.release(chain);
                Err(SessionRefused::from(refused))
            }
        }
    }

    /// Goes back to the state before the last commit that is not yet undone, or on to the one that the last undo that is
    /// not yet redone left, under the next number, which is returned. What is edited goes: the buffers become those of
    /// the state, and no edit is pending. The cached pairs are voided whose tile meets the damage of their node. It takes
    /// all its memory first. Takes time in proportion to the damage, and one look at each tile that the state's buffers
    /// hold.
    ///
    /// # Errors
    ///
    /// `Graph` with `TooManyCommits`, or else with `NothingToUndo` or `NothingToRedo`; and `NoMemory` if memory runs
    /// out. The session is unchanged.
    pub fn step<C: TileChain>(
        &mut self,
        chain: &mut C,
        direction: Direction,
    ) -> Result<u64, SessionRefused>
        requires { IsOver Op.same Op.meanings self.old (C.held chain.old) }
        ensures { Commits Op.same Op.meanings (step_in direction) result self.old self.new
            (chain_state C.ChainMeaning chain.old) (chain_state C.ChainMeaning chain.new) }
    {
        if self.versions.count_ahead(direction) == 0 {
            return Err(refused_step(&mut self.graph, direction));
        }
        let shared = self.versions.share_ahead(chain, direction)?;
        match self.graph.step(direction) {
            Ok(damage) => {
                self.versions.step(chain, direction, shared);
                self.settle(chain, &damage);
                Ok(damage.number)
            }
            Err(refused) => {
                shared.release(chain);
                Err(SessionRefused::from(refused))
            }
        }
    }

    /// Voids the cached pairs whose tile meets the damage of their node, and drops what is edited. Takes no memory.
    fn settle<C: TileChain>(&mut self, chain: &mut C, damage: &Damage)
        requires cache { IsNodeCache self.old.entries self.old.most self.old.capacity (C.held chain.old) }
        requires alone { HaveOneOwner (C.held chain.old) (values_of self.old.entries) }
        ensures settled { IsSettled damage.now.rects self.old self.new }
        ensures versions { self.new.versions ≡ self.old.versions }
        ensures graph { self.new.graph ≡ self.old.graph }
        ensures sizes { sizes_in self.new.entries (C.held chain.new)
            ≡ all_voided by_sized (sizes_in self.old.entries (C.held chain.old)) damage.now.rects }
        ensures cached { cached_in self.new.entries (C.held chain.new)
            ≡ option_map (λ list. all_voided by_pair list damage.now.rects) (cached_in self.old.entries (C.held chain.old)) }
        ensures cache { IsNodeCache self.new.entries self.new.most self.new.capacity (C.held chain.new) }
        ensures alone { HaveOneOwner (C.held chain.new) (values_of self.new.entries) }
        ensures other_names { AddsNoOther (C.counts chain.old) (C.counts chain.new) (values_of self.old.entries) (values_of self.new.entries) }
        ensures left { Leaves 0 (values_of self.old.entries) (values_of self.new.entries)
            (chain_state C.ChainMeaning chain.old) (chain_state C.ChainMeaning chain.new) }
    {
        void_all(&mut self.cache, chain, damage.rects.as_slice());
        self.pending.clear();
        self.written.clear();
    }
}

/// Returns why a step is refused that has no state to lead to.
fn refused_step<Op: OpMeaning + Drop>(graph: &mut Graph<Op>, direction: Direction) -> SessionRefused
    requires { ahead direction graph.old ≡ [] }
    ensures unchanged { graph.new ≡ graph.old }
    ensures refused { IsRefusedAs by_graph (IsRefusalOf (stepped direction graph.old)) result }
{
    match graph.step(direction) {
        Ok(_) => unreachable!(),
        Err(refused) => SessionRefused::from(refused),
    }
}

//! What a session holds over the chain that its calls are lent.

ghost use Rattle.std.specs.Prelude.{◌≡◌, ◌≤◌, IfOk, option_map};
ghost use Rattle.chain_owners.specs.Held.{Held};
ghost use Rattle.model_graphs.specs.Facts.{fact_of, specs_of};
ghost use Rattle.model_states.specs.Edits.{has_node};
ghost use Rattle.model_sessions.specs.Sessions.{new_session};
ghost use Rattle.commit_session.specs.Parts.{new_parts, working_facts};
ghost use Rattle.commit_session.specs.Seen.{IsOver, IsSessionOf};

use alloc_basics::NoMemory;
use graph_commits::Graph;
use model_graphs::{BufferFact, Edited, NodeEdit, NodeFact, OpMeaning};
use node_cache::NodeCache;
use plane_rect::Name;
use session_states::BufferVersions;
use std::alloc::Global;
use std::marker::Model;

/// How many tiles of nodes the renders of a session evaluated, and how many they found in the cache.
#[derive(Clone, Copy, Debug, PartialEq, Eq)]
pub struct Counts {
    /// The tiles that were evaluated, up to 2^64 - 1.
    pub applied: u64,
    /// Those that were found, up to 2^64 - 1.
    pub reused: u64,
}

/// The buffers of a session as they are edited, the edits of nodes that are pending, the states that are
/// retained, and the cached tiles of the last one. A clause sees all of it that is no sample; over a chain it
/// is a session of the definitions.
#[derive(Drop)]
pub struct SessionState<Op: OpMeaning> {
    pub(crate) versions: BufferVersions,
    pub(crate) pending: Vec<NodeEdit<Op>>,
    pub(crate) written: Vec<Edited>,
    pub(crate) graph: Graph<Op>,
    pub(crate) cache: NodeCache,
    pub(crate) counts: Counts,
    pub(crate) alloc: Global,
}

impl<Op: OpMeaning> Model for SessionState<Op> {
    ghost use Rattle.model_graphs.specs.Facts.{rectangles_of};
    ghost use Rattle.commit_session.specs.Parts.{Parts};

    ghost Value = { Parts Op };

    ghost view = { λ s. record {
      versions = s.versions;
      pending = s.pending.items;
      written = rectangles_of s.written.items;
      graph = s.graph;
      entries = s.cache.names.entries;
      most = s.cache.names.cap;
      capacity = s.cache.capacity;
      applied = s.counts.applied;
      reused = s.counts.reused;
    } };
}

impl<Op: OpMeaning + Drop> SessionState<Op> {
    /// Returns the session without buffers and nodes, whose cache holds at most `capacity` pairs.
    ///
    /// # Errors
    ///
    /// `NoMemory` if memory runs out.
    pub fn new(alloc: Global, capacity: u32) -> Result<SessionState<Op>, NoMemory>
        requires { 1 ≤ capacity }
        ensures parts { IfOk result (λ state. state ≡ new_parts capacity) }
        ensures over { IfOk result (λ state. (held : Held) → IsOver Op.same Op.meanings state held) }
        ensures session { IfOk result (λ state. (held : Held) →
            IsSessionOf Op.same Op.meanings state held new_session) }
    {
        let versions = BufferVersions::new(alloc)?;
        let cache = NodeCache::new(alloc, capacity)?;
        Ok(SessionState {
            versions,
            pending: Vec::new(alloc),
            written: Vec::new(alloc),
            graph: Graph::new(alloc),
            cache,
            counts: Counts {
                applied: 0,
                reused: 0,
            },
            alloc,
        })
    }

    /// Returns what is known of a buffer that is edited; None exactly where none has the name. Its cost is
    /// proportional to the number of buffers.
    pub fn extent(&self, name: Name) -> Option<BufferFact>
        ensures { result ≡ fact_of (working_facts self.now) name }
    {
        self.versions.working().fact(name)
    }

    /// Returns the number of the last state.
    pub fn number(&self) -> u64
        ensures { result ≡ self.now.graph.number }
    {
        self.graph.number()
    }

    /// Returns whether the last state has a node of a name. Its cost is proportional to the number of nodes.
    pub fn has_node(&self, name: Name) -> bool
        ensures { result ≡ has_node (specs_of self.now.graph.latest.nodes) name }
    {
        is_named(self.graph.nodes(), name)
    }

    /// Returns how many tiles the renders that were not refused evaluated and found.
    pub fn counts(&self) -> Counts
        ensures applied { result.applied ≡ self.now.applied }
        ensures reused { result.reused ≡ self.now.reused }
    {
        self.counts
    }
}

/// Returns whether a node of these has a name.
fn is_named<Op>(nodes: &[NodeFact<Op>], name: Name) -> bool
    ensures { result ≡ has_node (specs_of nodes.now) name }
{
    nodes
        .iter()
        .position(|node| node.spec.name == name)
        .is_some()
}

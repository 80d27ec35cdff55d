//! What tiles of nodes are evaluated by.

use model_graphs::NodeFact;
use op_contracts::OpKit;
use roi_planner::NodeInputs;
use std::alloc::Global;

/// What tiles of nodes are evaluated by: the kit of their operations, the nodes as stated, the inputs of each,
/// and where memory comes from.
#[derive(Drop)]
pub struct Evaluator<'n, K: OpKit> {
    pub kit: &'n K,
    pub alloc: Global,
    pub nodes: &'n [NodeFact<K::Op>],
    pub inputs: &'n [NodeInputs],
}

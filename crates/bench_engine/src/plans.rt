//! Plans of requests of a graph.

use crate::bench::{Bench, Host, Times, Work};
use crate::lines::{lines_of, node_edit, numbers_of};
use graph_commits::Graph;
use int_ops::{IntKit, IntOp};
use op_contracts::OpKit;
use plane_rect::Rect;
use roi_planner::{PlanRefused, plan};
use std::alloc::Global;
use test_nodes::rect;

/// A graph, and a request of its last node.
#[derive(Drop)]
struct PlanWork {
    alloc: Global,
    graph: Graph<IntOp>,
    request: Rect,
}

impl Work for PlanWork {
    fn call(&mut self) -> Option<u64> {
        needed(&IntKit, self.alloc, &self.graph, self.request).ok()
    }
}

/// Plans a request of a graph's last node, and returns how many tiles it needs.
fn needed<K: OpKit>(
    kit: &K,
    alloc: Global,
    graph: &Graph<K::Op>,
    request: Rect,
) -> Result<u64, PlanRefused> {
    let nodes = graph.nodes();
    let Some(last) = nodes.len().checked_sub(1) else {
        return Ok(0);
    };
    let strips = plan(kit, alloc, nodes, last as u32, request, u32::MAX)?;
    let mut pairs = 0u64;
    for strip in strips.as_slice() {
        pairs = pairs.wrapping_add(strip.need.as_slice().len() as u64);
    }
    Ok(pairs)
}

/// The nodes: a checkerboard, its mean, what that is eroded to, its inverse, and the sum of this and the checkerboard.
const NODES: &str = "node a checker Y8 0 0 %3 %3 8 0 255
node b box 3 CLAMP a
node c erode 1 CLAMP b
node d invert c
node e add d a";

/// Returns the graph of the nodes. None if memory runs out.
fn graph_of(alloc: Global, columns: u32) -> Option<Graph<IntOp>> {
    let mut edits = Vec::new(alloc);
    for line in lines_of(alloc, NODES, numbers_of(0, columns))? {
        edits.push(node_edit(line.command)?).ok()?;
    }
    let mut graph = Graph::new(alloc);
    if !graph.has_all_buffers_in(&[]) {
        return None;
    }
    graph.commit(&IntKit, &edits, &[], &[]).ok()?;
    Some(graph)
}

/// Times the plan of a request of so many columns and rows of tiles, by the needed tile.
pub fn time_all<R: Host>(bench: &Bench<'_, R>) -> Option<()> {
    let side = bench.size.min(80) * 64;
    let request = rect([0, 0, i64::from(side), i64::from(side)]);
    let mut work = PlanWork {
        alloc: bench.rt.alloc(),
        graph: graph_of(bench.rt.alloc(), side)?,
        request,
    };
    let times = Times {
        rounds: bench.rounds,
        calls: 1,
        units: work.call()?,
        bytes: 0,
    };
    bench.time("plans: needed tile", times, &mut work)
}

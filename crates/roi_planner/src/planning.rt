//! Plans of requests, strip by strip.

ghost use Rattle.std.specs.Prelude.{◌≡◌, ℕ, ◌<◌, ◌≤◌, ◌^◌, IfErr, IfOk, None, OnOk, length};
ghost use Rattle.model_states.specs.Need.{need, wide};
ghost use Rattle.roi_planner.specs.{Inputs.AreStatedOverSome, Refusals.AreRefused};

use crate::inputs::all_inputs;
use crate::need::strip_of;
use crate::refused::PlanRefused;
use crate::strips::StripList;
use alloc_basics::NoMemory;
use model_graphs::NodeFact;
use model_states::Strip;
use op_contracts::OpKit;
use plane_rect::{Rect, strip_rects};
use std::alloc::Global;

/// Returns what is needed for a request of the node at a position: a strip for each row of tiles that
/// it meets, from the top. Takes time in proportion to the needed tiles, and to the inputs times the
/// nodes.
///
/// # Errors
///
/// `Strip` exactly where a strip needs more tiles than the capacity, with how many the first such strip
/// needs, and `NoMemory` if memory runs out.
pub fn plan<K: OpKit>(
    kit: &K,
    alloc: Global,
    nodes: &[NodeFact<K::Op>],
    node: u32,
    rect: Rect,
    capacity: u32,
) -> Result<StripList, PlanRefused>
    requires known { node < length nodes.now }
    requires stated { AreStatedOverSome K.Op.meanings nodes.now }
    ensures strips { IfOk result (λ strips. strips ≡ need K.Op.meanings nodes.now node rect) }
    ensures narrow { OnOk result (wide capacity (need K.Op.meanings nodes.now node rect) ≡ None) }
    ensures refused { IfErr result (AreRefused capacity (need K.Op.meanings nodes.now node rect)) }
{
    let inputs = all_inputs(alloc, nodes)?;
    let rects = strip_rects(alloc, &rect)?;
    let mut strips = Vec::with_capacity(alloc, rects.len())?;
    for rect in &rects {
        let strip = strip_of(kit, alloc, nodes, &inputs, node, *rect)?;
        check_strip(&strip, capacity)?;
        strips.push(strip)?;
    }
    Ok(StripList::new(strips))
}

/// Tests whether a strip needs at most as many tiles as the capacity.
fn check_strip(strip: &Strip, capacity: u32) -> Result<(), PlanRefused>
    requires { length strip.now.need < 2 ^ 32 }
    ensures narrow { OnOk result (length strip.now.need ≤ capacity) }
    ensures wide { IfErr result (λ refused. capacity < length strip.now.need) }
    ensures refused { IfErr result (λ refused. refused ≡ PlanRefused.Strip (length strip.now.need) capacity) }
{
    let needed = strip.need.as_slice().len() as u32;
    if needed > capacity {
        return Err(PlanRefused::Strip { needed, capacity });
    }
    Ok(())
}

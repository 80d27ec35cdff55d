//! Plans of requests that can be rendered.

ghost use Rattle.std.specs.Prelude.{◌≡◌, ◌<◌, ◌≤◌, Bool, false, true, IfErr, IfOk, IfSome, IsErrOf, IsSome, None, OnOk, is_some, length};
ghost use Rattle.pixel_formats.specs.Limits.{max_nodes};
ghost use Rattle.plane_rect.specs.Rectangle.{scaled};
ghost use Rattle.model_graphs.specs.{Facts.specs_of, Node.index_of};
ghost use Rattle.model_states.specs.{Edits.has_node, Need.wide};
ghost use Rattle.roi_planner.specs.Inputs.{AreStatedOverSome};
ghost use Rattle.render_workers.specs.Requests.{request, strips_needed};
ghost use Rattle.render_workers.specs.Refusals.{IsRefusedBy};

use crate::refused::RenderRefused;
use model_graphs::NodeFact;
use op_contracts::OpKit;
use plane_rect::{Name, Rect};
use roi_planner::{StripList, plan};
use std::alloc::Global;

/// Returns the position of the first node of a name, and None where there is none. Takes time in
/// proportion to the number of nodes.
fn position_of<Op>(nodes: &[NodeFact<Op>], name: Name) -> Option<u32>
    requires { length nodes.now ≤ max_nodes }
    ensures there { is_some result ≡ has_node (specs_of nodes.now) name }
    ensures position { IfSome result (λ position. position ≡ index_of (specs_of nodes.now) name) }
{
    let position = nodes.iter().position(|node| node.spec.name == name)?;
    Some(position as u32)
}

/// The position of the node of a request, and the strips that the request needs, from the top.
#[derive(Drop)]
pub(crate) struct RequestPlan {
    pub(crate) node: u32,
    pub(crate) strips: StripList,
}

/// Returns the plan of a request, if it can be rendered. Takes time and memory in proportion to the needed tiles.
///
/// # Errors
///
/// `UnknownNode` exactly where no node has the name; `Rect` exactly where one has, and the rectangle at
/// level 0 is not in limits; `Strip` exactly where, past these, a strip needs more tiles than the
/// capacity; and `NoMemory` if memory runs out.
pub(crate) fn plan_of<K: OpKit>(
    kit: &K,
    alloc: Global,
    nodes: &[NodeFact<K::Op>],
    node: Name,
    level: u32,
    rect: Rect,
    capacity: u32,
) -> Result<RequestPlan, RenderRefused>
    requires level { level ≤ 8 }
    requires stated { AreStatedOverSome K.Op.meanings nodes.now }
    ensures position { IfOk result (λ plan. plan.node ≡ index_of (specs_of nodes.now) node) }
    ensures strips { IfOk result (λ plan. plan.strips ≡ strips_needed K.Op.meanings nodes.now (request node level rect)) }
    ensures there { OnOk result (has_node (specs_of nodes.now) node ≡ true) }
    ensures source { OnOk result (IsSome (scaled level rect)) }
    ensures narrow { OnOk result (wide capacity (strips_needed K.Op.meanings nodes.now (request node level rect)) ≡ None) }
    ensures unknown { has_node (specs_of nodes.now) node ≡ false → IsErrOf result RenderRefused.UnknownNode }
    ensures outside { has_node (specs_of nodes.now) node ≡ true → scaled level rect ≡ None →
        IsErrOf result RenderRefused.Rect }
    ensures refused { IfErr result (IsRefusedBy K.Op.meanings nodes.now (request node level rect) capacity (λ _. ⊥)) }
{
    let Some(position) = position_of(nodes, node) else {
        return Err(RenderRefused::UnknownNode);
    };
    let Some(source) = rect.scaled(level) else {
        return Err(RenderRefused::Rect);
    };
    let strips = plan(kit, alloc, nodes, position, source, capacity)?;
    Ok(RequestPlan {
        node: position,
        strips,
    })
}

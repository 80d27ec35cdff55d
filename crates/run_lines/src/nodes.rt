//! Lines that edit nodes.

ghost use Rattle.std.specs.Prelude.{◌≡◌, IfOk};
ghost use Rattle.model_graphs.specs.declared.node.NodeEdit.TheVariants.{Remove, Set};
ghost use Rattle.model_runs.specs.Commands.{body_of, node_of};
ghost use Rattle.run_lines.specs.{Commands.leaves_pending, Stops.CarriesInSession};

use crate::stop::Stop;
use alloc_basics::NoMemory;
use commit_session::SessionState;
use model_graphs::{Body, NodeEdit, NodeSpec};
use model_operations::IntOp;
use plane_rect::{Name, NameList};
use script_read::OpWords;

/// Adds a node, or one that is made anew, to the pending edits.
pub(crate) fn set_node(
    name: Name,
    op: &OpWords,
    inputs: &NameList,
    session: &mut SessionState<IntOp>,
) -> Result<(), Stop>
    ensures { CarriesInSession (λ line state. leaves_pending line state (Set (node_of name op.now inputs.now))) result session.old session.new }
{
    let body = body(op, inputs)?;
    add_pending(NodeEdit::Set(NodeSpec { name, body }), session)
}

/// Adds the removal of a node to the pending edits.
pub(crate) fn remove_node(name: Name, session: &mut SessionState<IntOp>) -> Result<(), Stop>
    ensures { CarriesInSession (λ line state. leaves_pending line state (Remove name)) result session.old session.new }
{
    add_pending(NodeEdit::Remove(name), session)
}

/// Adds an edit of nodes to the pending ones.
fn add_pending(edit: NodeEdit<IntOp>, session: &mut SessionState<IntOp>) -> Result<(), Stop>
    ensures { CarriesInSession (λ line state. leaves_pending line state edit) result session.old session.new }
{
    session.add_pending(edit)?;
    Ok(())
}

/// Returns what a node does, by its words and its inputs.
///
/// # Errors
///
/// `NoMemory` if memory runs out.
fn body(words: &OpWords, inputs: &NameList) -> Result<Body<IntOp>, NoMemory>
    ensures { IfOk result (λ body. body ≡ body_of words.now inputs.now) }
{
    match words {
        OpWords::Source { buffer } => Ok(Body::Source { buffer: *buffer }),
        OpWords::Compute { op } => {
            let op = op.clone()?;
            let inputs = inputs.clone()?;
            Ok(Body::Compute { op, inputs })
        }
    }
}

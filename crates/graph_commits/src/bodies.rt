//! Bodies of nodes beside one another.

ghost use Rattle.std.specs.Prelude.{◌≡◌};
ghost use Rattle.model_states.specs.Damage.{inputs_of, same_body, same_names};

use model_graphs::Body;
use op_contracts::OpKit;
use plane_rect::Name;

/// Returns the inputs of a body.
pub(crate) fn inputs_of<Op>(body: &Body<Op>) -> &[Name]
    ensures { result.now ≡ inputs_of body.now }
{
    match body {
        Body::Source { .. } => &[],
        Body::Compute { inputs, .. } => inputs.as_slice(),
    }
}

/// Returns whether two bodies are one.
pub(crate) fn same_body<K: OpKit>(kit: &K, a: &Body<K::Op>, b: &Body<K::Op>) -> bool
    ensures { result ≡ same_body K.Op.same a.now b.now }
{
    match (a, b) {
        (Body::Source { buffer: a }, Body::Source { buffer: b }) => a == b,
        (Body::Compute { op: f, inputs: a }, Body::Compute { op: g, inputs: b }) => {
            kit.same(f, g) && same_names(a.as_slice(), b.as_slice())
        }
        _ => false,
    }
}

/// Returns whether two lists have the same names.
fn same_names(a: &[Name], b: &[Name]) -> bool
    ensures { result ≡ same_names a.now b.now }
{
    a == b
}

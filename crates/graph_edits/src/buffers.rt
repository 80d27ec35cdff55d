//! Buffers by their names.

ghost use Rattle.std.specs.Prelude.{◌≡◌, option_map};
ghost use Rattle.model_graphs.specs.Facts.{fact_of};

use model_graphs::BufferFact;
use plane_rect::Name;

/// Returns the buffer of a name, where there is one. Its cost is proportional to the number of buffers,
/// of which there are at most 64.
pub fn buffer_of(buffers: &[BufferFact], name: Name) -> Option<&BufferFact>
    ensures { option_map (λ buffer. buffer.now) result ≡ fact_of buffers.now name }
{
    buffers.iter().find(|buffer| name == buffer.name)
}

//! Why a line isn't carried out.

ghost use Rattle.std.specs.Prelude.{◌≡◌};
ghost use Rattle.model_runs.specs.Effects.{cause_of_edit as edit_cause, cause_of_state as state_cause};
ghost use Rattle.model_runs.specs.declared.ending.End.TheVariants as ends;
ghost use Rattle.run_lines.specs.Stops.{end_of_swap as swap_end, stop_of, stop_of_buffers as buffers_stop, stop_of_graph as graph_stop, stop_of_render as render_stop};
ghost use Rattle.run_lines.specs.declared.stop.Stop.TheVariants as stops;

use alloc_basics::NoMemory;
use buffer_view::BufferRefused;
use chain_owners::SwapRefused;
use commit_session::SessionRefused;
use graph_edits::GraphRefused;
use model_buffers::EditRefused;
use model_runs::{Cause, End};
use model_states::StateRefused;
use render_workers::RenderRefused;
use script_read::ScriptCause;

/// Why a line isn't carried out: it is refused, and its text is still to be put, or the run ends.
#[derive(Clone, Copy, Debug, PartialEq, Eq)]
pub(crate) enum Stop {
    Refused(Cause),
    Ended(End),
}

impl From<SessionRefused> for Stop {
    ghost from_gives = { λ refused stop. stop ≡ stop_of refused };

    fn from(refused: SessionRefused) -> Stop {
        match refused {
            SessionRefused::Buffer(refused) => stop_of_buffers(refused),
            SessionRefused::Graph(refused) => stop_of_graph(refused),
            SessionRefused::Render(refused) => stop_of_render(refused),
            SessionRefused::NoMemory => Stop::Ended(End::NoMemory),
        }
    }
}

impl From<End> for Stop {
    ghost from_gives = { λ end stop. stop ≡ stops.Ended end };

    fn from(end: End) -> Stop {
        Stop::Ended(end)
    }
}

impl From<NoMemory> for Stop {
    ghost from_gives = { λ _ stop. stop ≡ stops.Ended ends.NoMemory };

    fn from(_error: NoMemory) -> Stop {
        Stop::Ended(End::NoMemory)
    }
}

/// Returns why a line stops whose edit or read of buffers is refused.
fn stop_of_buffers(refused: BufferRefused) -> Stop
    ensures { result ≡ buffers_stop refused }
{
    match refused {
        BufferRefused::Edit(refused) => Stop::Refused(cause_of_edit(refused)),
        BufferRefused::Swap(refused) => Stop::Ended(end_of_swap(refused)),
        BufferRefused::NoMemory => Stop::Ended(End::NoMemory),
    }
}

/// Returns why a line stops whose step is refused.
fn stop_of_graph(refused: GraphRefused) -> Stop
    ensures { result ≡ graph_stop refused }
{
    match refused {
        GraphRefused::State(refused) => Stop::Refused(cause_of_state(refused)),
        GraphRefused::NoMemory => Stop::Ended(End::NoMemory),
    }
}

/// Returns why a line stops whose render is refused.
fn stop_of_render(refused: RenderRefused) -> Stop
    ensures { result ≡ render_stop refused }
{
    match refused {
        RenderRefused::UnknownNode => Stop::Refused(Cause::UnknownNode),
        RenderRefused::Rect => Stop::Refused(Cause::Grammar(ScriptCause::Rect)),
        RenderRefused::Strip { .. } => Stop::Refused(Cause::Strip),
        RenderRefused::SwapFault => Stop::Ended(End::SwapFault),
        RenderRefused::SwapFull { .. } => Stop::Ended(End::SwapFull),
        RenderRefused::NoMemory => Stop::Ended(End::NoMemory),
    }
}

/// Returns why a line is refused whose edit of buffers is.
fn cause_of_edit(refused: EditRefused) -> Cause
    ensures { result ≡ edit_cause refused }
{
    match refused {
        EditRefused::UnknownBuffer => Cause::UnknownBuffer,
        EditRefused::NameTaken => Cause::NameTaken,
        EditRefused::OutOfBounds => Cause::OutOfBounds,
        EditRefused::WrongSize { .. } => Cause::WrongSize,
        EditRefused::Formats => Cause::Formats,
        EditRefused::TooManyBuffers => Cause::TooManyBuffers,
    }
}

/// Returns why a line is refused whose commit, undo or redo is.
fn cause_of_state(refused: StateRefused) -> Cause
    ensures { result ≡ state_cause refused }
{
    match refused {
        StateRefused::UnknownInput => Cause::UnknownInput,
        StateRefused::Arity => Cause::Arity,
        StateRefused::Formats => Cause::Formats,
        StateRefused::Bounds => Cause::Bounds,
        StateRefused::InUse => Cause::InUse,
        StateRefused::TooManyNodes => Cause::TooManyNodes,
        StateRefused::NothingToUndo => Cause::NothingToUndo,
        StateRefused::NothingToRedo => Cause::NothingToRedo,
        StateRefused::TooManyCommits => Cause::TooManyCommits,
    }
}

/// Returns how a run ends whose swap refuses.
fn end_of_swap(refused: SwapRefused) -> End
    ensures { result ≡ swap_end refused }
{
    match refused {
        SwapRefused::SwapFault => End::SwapFault,
        SwapRefused::SwapFull { .. } => End::SwapFull,
        SwapRefused::NoMemory => End::NoMemory,
    }
}

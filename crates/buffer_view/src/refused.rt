//! Why calls on buffers are refused.

ghost use Rattle.std.specs.Prelude.{◌≡◌};
ghost use Rattle.buffer_view.specs.Causes.{refusal_of};
ghost use Rattle.buffer_view.specs.declared.refused.BufferRefused.TheVariants as refusals;

use alloc_basics::NoMemory;
use chain_owners::SwapRefused;
use model_buffers::EditRefused;
use std::alloc::AllocError;
use thiserror::Error;

/// Why a call on buffers did not do what it was asked to.
#[derive(Clone, Copy, Debug, PartialEq, Eq, Error)]
pub enum BufferRefused {
    /// The edit is refused.
    #[error("{text}", text = text_of(*.0))]
    Edit(EditRefused),
    /// The swap disk failed, or has no room.
    #[error("{0}")]
    Swap(SwapRefused),
    /// No memory was left.
    #[error("no memory was left")]
    NoMemory,
}

/// Returns why an edit is refused, as a sentence.
fn text_of(refused: EditRefused) -> &'static str {
    match refused {
        EditRefused::UnknownBuffer => "no buffer has the name",
        EditRefused::NameTaken => "a buffer has the name already",
        EditRefused::OutOfBounds => "the rectangle has positions outside the buffer",
        EditRefused::WrongSize {
            found: _,
            wanted: _,
        } => { "the bytes are more or fewer than the rectangle has" }
        EditRefused::Formats => "the samples are no pixel of the format, or the formats differ",
        EditRefused::TooManyBuffers => "there are as many buffers as there may be",
    }
}

impl From<SwapRefused> for BufferRefused {
    ghost from_gives = { λ swap refused. refused ≡ refusal_of swap };

    fn from(refused: SwapRefused) -> BufferRefused {
        match refused {
            SwapRefused::NoMemory => BufferRefused::NoMemory,
            other => BufferRefused::Swap(other),
        }
    }
}

impl From<EditRefused> for BufferRefused {
    ghost from_gives = { λ edit refused. refused ≡ refusals.Edit edit };

    fn from(refused: EditRefused) -> BufferRefused {
        BufferRefused::Edit(refused)
    }
}

impl From<NoMemory> for BufferRefused {
    ghost from_gives = { λ _ refused. refused ≡ refusals.NoMemory };

    fn from(_error: NoMemory) -> BufferRefused {
        BufferRefused::NoMemory
    }
}

impl From<AllocError> for BufferRefused {
    ghost from_gives = { λ _ refused. refused ≡ refusals.NoMemory };

    fn from(_error: AllocError) -> BufferRefused {
        BufferRefused::NoMemory
    }
}

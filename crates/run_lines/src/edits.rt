//! Lines that edit buffers, and touch no file.

ghost use Rattle.std.specs.Prelude.{◌≡◌, IfOk, IsTrue};
ghost use Rattle.commit_session.specs.Seen.{IsOver};
ghost use Rattle.model_buffers.specs.BufferEdit.{IsProperEdit};
ghost use Rattle.model_buffers.specs.declared.edit.BufferEdit.TheVariants.{Copy, Create, Duplicate, Fill, Sub};
ghost use Rattle.model_operations.specs.Meanings.{int_meanings, same_operation};
ghost use Rattle.model_runs.specs.Effects.{edits};
ghost use Rattle.plane_rect.specs.Rectangle.{in_limits};
ghost use Rattle.root_tiles.specs.Chains.{chain_state};
ghost use Rattle.run_lines.specs.Stops.{CarriesOverChain};

use crate::stop::Stop;
use alloc_basics::NoMemory;
use chain_contracts::TileChain;
use commit_session::SessionState;
use model_buffers::BufferEdit;
use model_operations::IntOp;
use pixel_formats::{Format, PixelSamples};
use plane_rect::{Name, Rect};
use std::thread::Threads;
use worker_pieces::Workers;

/// Makes a buffer on a root of its own.
pub(crate) fn create<C: TileChain, R: Threads + Sync>(
    name: Name,
    format: Format,
    extent: Rect,
    session: &mut SessionState<IntOp>,
    chain: &mut C,
    workers: Workers<'_, R>,
) -> Result<(), Stop>
    requires over { IsOver same_operation int_meanings session.old (C.held chain.old) }
    requires limits { IsTrue (in_limits extent) }
    ensures { CarriesOverChain (λ line state. edits line state (Create name format extent)) result session.old session.new
        (chain_state C.ChainMeaning chain.old) (chain_state C.ChainMeaning chain.new) }
{
    // `first_column` is called for its clause that the extent is a rectangle of the plane.
    let _ = extent.first_column();
    let edit = BufferEdit::Create {
        name,
        format,
        extent,
    };
    make(edit, session, chain, workers)
}

/// Makes a buffer on the root of another.
pub(crate) fn sub<C: TileChain, R: Threads + Sync>(
    name: Name,
    parent: Name,
    rect: Rect,
    session: &mut SessionState<IntOp>,
    chain: &mut C,
    workers: Workers<'_, R>,
) -> Result<(), Stop>
    requires { IsOver same_operation int_meanings session.old (C.held chain.old) }
    ensures { CarriesOverChain (λ line state. edits line state (Sub name parent rect)) result session.old session.new
        (chain_state C.ChainMeaning chain.old) (chain_state C.ChainMeaning chain.new) }
{
    // `first_column` is called as for a root of its own.
    let _ = rect.first_column();
    make(
        BufferEdit::Sub { name, parent, rect },
        session,
        chain,
        workers,
    )
}

/// Makes a buffer with the samples of another.
pub(crate) fn duplicate<C: TileChain, R: Threads + Sync>(
    name: Name,
    from: Name,
    session: &mut SessionState<IntOp>,
    chain: &mut C,
    workers: Workers<'_, R>,
) -> Result<(), Stop>
    requires { IsOver same_operation int_meanings session.old (C.held chain.old) }
    ensures { CarriesOverChain (λ line state. edits line state (Duplicate name from)) result session.old session.new
        (chain_state C.ChainMeaning chain.old) (chain_state C.ChainMeaning chain.new) }
{
    make(
        BufferEdit::Duplicate { name, from },
        session,
        chain,
        workers,
    )
}

/// Gives each position of a rectangle of a buffer one pixel.
pub(crate) fn fill<C: TileChain, R: Threads + Sync>(
    name: Name,
    rect: Rect,
    samples: &PixelSamples,
    session: &mut SessionState<IntOp>,
    chain: &mut C,
    workers: Workers<'_, R>,
) -> Result<(), Stop>
    requires { IsOver same_operation int_meanings session.old (C.held chain.old) }
    ensures { CarriesOverChain (λ line state. edits line state (Fill name rect samples.now)) result session.old session.new
        (chain_state C.ChainMeaning chain.old) (chain_state C.ChainMeaning chain.new) }
{
    let edit = BufferEdit::Fill {
        name,
        rect,
        samples: copied(samples)?,
    };
    make(edit, session, chain, workers)
}

/// Returns a copy of samples.
///
/// # Errors
///
/// `NoMemory` if memory runs out.
fn copied(samples: &PixelSamples) -> Result<PixelSamples, NoMemory>
    ensures { IfOk result (λ copied. copied ≡ samples.now) }
{
    Ok(samples.clone()?)
}

/// Copies a rectangle of a buffer to other positions of it or of another buffer.
pub(crate) fn copy<C: TileChain, R: Threads + Sync>(
    from: Name,
    to: Name,
    rect: Rect,
    dx: i64,
    dy: i64,
    session: &mut SessionState<IntOp>,
    chain: &mut C,
    workers: Workers<'_, R>,
) -> Result<(), Stop>
    requires { IsOver same_operation int_meanings session.old (C.held chain.old) }
    ensures { CarriesOverChain (λ line state. edits line state (Copy from to rect dx dy)) result session.old session.new
        (chain_state C.ChainMeaning chain.old) (chain_state C.ChainMeaning chain.new) }
{
    let edit = BufferEdit::Copy {
        from,
        to,
        rect,
        dx,
        dy,
    };
    make(edit, session, chain, workers)
}

/// Makes an edit of buffers.
fn make<C: TileChain, R: Threads + Sync>(
    edit: BufferEdit,
    session: &mut SessionState<IntOp>,
    chain: &mut C,
    workers: Workers<'_, R>,
) -> Result<(), Stop>
    requires over { IsOver same_operation int_meanings session.old (C.held chain.old) }
    requires proper { IsProperEdit edit }
    ensures { CarriesOverChain (λ line state. edits line state edit) result session.old session.new
        (chain_state C.ChainMeaning chain.old) (chain_state C.ChainMeaning chain.new) }
{
    session.edit(chain, &edit, workers)?;
    Ok(())
}

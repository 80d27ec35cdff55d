//! Calls on sessions of gray pixels, by words and rectangles of four numbers.

ghost use Rattle.std.specs.Prelude.{◌≡◌};
ghost use Rattle.model_operations.specs.Meanings.{int_meanings, same_operation};
ghost use Rattle.model_sessions.specs.Steps.{IsProper};
ghost use Rattle.commit_session.specs.{Edits.step_of, Seen.IsOver};

use crate::values::{Fields, name};
use buffer_view::BufferRefused;
use chain_contracts::TileChain;
use chain_owners::SwapRefused;
use commit_session::{Edit, OwnedSession, SessionRefused};
use int_ops::{IntKit, IntOp, IntPurse};
use model_buffers::RawBytes;
use model_graphs::NodeEdit;
use patch_abyss::{Abyss, Patch};
use pixel_formats::{Format, PixelSamples};
use render_workers::RenderRefused;
use std::alloc::Global;
use std::process::Abort;
use std::thread::Threads;
use test_nodes::rect;

/// A node, a level of it, and a rectangle of the level, which are rendered.
pub type Asked = (&'static str, u32, Fields);

/// How many permits there are for each render.
const PERMITS: u64 = 1 << 32;

/// The refusal of an edit or a read of buffers by a disk of which a call fails.
const SWAP_FAULT: SessionRefused = SessionRefused::Buffer(BufferRefused::Swap(
    SwapRefused::SwapFault,
));

/// An operation on one input.
#[derive(Clone, Copy)]
pub enum Work {
    /// The mean of nine pixels.
    Mean,

    /// So many times the input.
    Gain(u32),

    /// The input subtracted from the largest gray.
    Invert,
}

impl Work {
    /// Returns the operation.
    fn op(self) -> IntOp {
        match self {
            Work::Mean => IntOp::BoxMean {
                radius: 1,
                abyss: Abyss::None,
            },
            Work::Gain(num) => IntOp::Gain { num, den: 1 },
            Work::Invert => IntOp::Invert,
        }
    }
}

/// An edit of buffers of gray pixels or of nodes.
#[derive(Clone, Copy)]
pub enum Made<'a> {
    /// A new buffer of zeros.
    Buffer(&'static str, Fields),

    /// One gray everywhere in a rectangle of a buffer.
    Paint(&'static str, Fields, u32),

    /// Raw bytes over a rectangle of a buffer.
    Load(&'static str, Fields, &'a [u8]),

    /// A node of the image of a buffer.
    Source(&'static str, &'static str),

    /// A node of an operation on one input.
    Node(&'static str, Work, &'static str),
}

/// Returns the edit.
fn edit_of(rt: &impl Abort, alloc: Global, made: Made<'_>) -> Edit<IntOp>
    ensures { IsProper (step_of result) }
{
    match made {
        Made::Buffer(word, fields) => Edit::Create {
            name: name(rt, word),
            format: Format::Y8,
            extent: rect(fields),
        },
        Made::Paint(word, fields, gray) => Edit::Fill {
            name: name(rt, word),
            rect: rect(fields),
            samples: PixelSamples::new(vec![in alloc; gray].expect(rt, "memory")),
        },
        Made::Load(word, fields, bytes) => Edit::Load {
            name: name(rt, word),
            rect: rect(fields),
            bytes: RawBytes::new(bytes.to_vec(alloc).expect(rt, "memory")),
        },
        Made::Source(word, buffer) => {
            let source = test_nodes::source(word, buffer).expect(rt, "a node");
            Edit::Node(NodeEdit::Set(source))
        }
        Made::Node(word, work, input) => {
            let node = test_nodes::node(alloc, word, work.op(), &[input]).expect(rt, "a node");
            Edit::Node(NodeEdit::Set(node))
        }
    }
}

/// Makes an edit, and again where the disk refuses it. Returns whether it did.
pub fn edit<C: TileChain>(
    rt: &(impl Abort + Threads + Sync),
    session: &mut OwnedSession<IntKit, C>,
    alloc: Global,
    made: Made<'_>,
) -> bool
    requires { IsOver same_operation int_meanings session.old.state (C.held session.old.chain) }
    ensures { IsOver same_operation int_meanings session.new.state (C.held session.new.chain) }
{
    let edited = session.edit(rt, edit_of(rt, alloc, made));
    let Err(refused) = edited else {
        return false;
    };
    assert!(rt; refused == SWAP_FAULT);
    let again = session.edit(rt, edit_of(rt, alloc, made));
    again.expect(rt, "one call that fails");
    true
}

/// Commits. Returns the number of the new state.
pub fn commit<C: TileChain>(rt: &impl Abort, session: &mut OwnedSession<IntKit, C>) -> u64
    requires { IsOver same_operation int_meanings session.old.state (C.held session.old.chain) }
    ensures { IsOver same_operation int_meanings session.new.state (C.held session.new.chain) }
{
    let number = session.commit().expect(rt, "a commit that is not refused");
    assert!(rt; session.number() == number);
    number
}

/// Undoes. Returns the number of the new state.
pub fn undo<C: TileChain>(rt: &impl Abort, session: &mut OwnedSession<IntKit, C>) -> u64
    requires { IsOver same_operation int_meanings session.old.state (C.held session.old.chain) }
    ensures { IsOver same_operation int_meanings session.new.state (C.held session.new.chain) }
{
    session.undo().expect(rt, "a state to undo to")
}

/// Redoes. Returns the number of the new state.
pub fn redo<C: TileChain>(rt: &impl Abort, session: &mut OwnedSession<IntKit, C>) -> u64
    requires { IsOver same_operation int_meanings session.old.state (C.held session.old.chain) }
    ensures { IsOver same_operation int_meanings session.new.state (C.held session.new.chain) }
{
    session.redo().expect(rt, "a state to redo to")
}

/// Renders a rectangle of a level of a node, with permits of its own.
///
/// # Errors
///
/// As [`OwnedSession::render`].
pub fn render<C: TileChain>(
    rt: &(impl Abort + Threads + Sync),
    session: &mut OwnedSession<IntKit, C>,
    asked: Asked,
) -> Result<Patch, SessionRefused>
    requires { IsOver same_operation int_meanings session.old.state (C.held session.old.chain) }
    ensures { IsOver same_operation int_meanings session.new.state (C.held session.new.chain) }
{
    let (word, level, fields) = asked;
    assert!(rt; level <= 8);
    let mut purse = IntPurse::new(PERMITS);
    session.render(rt, &mut purse, name(rt, word), level, rect(fields))
}

/// Renders a rectangle of a level of a node, and again where the disk refuses it. Returns the patch, and whether it did.
pub fn shown<C: TileChain>(
    rt: &(impl Abort + Threads + Sync),
    session: &mut OwnedSession<IntKit, C>,
    asked: Asked,
) -> (Patch, bool)
    requires { IsOver same_operation int_meanings session.old.state (C.held session.old.chain) }
    ensures { IsOver same_operation int_meanings session.new.state (C.held session.new.chain) }
{
    match render(rt, session, asked) {
        Ok(patch) => (patch, false),
        Err(refused) => {
            assert!(rt; refused == SessionRefused::Render(RenderRefused::SwapFault));
            let patch = render(rt, session, asked);
            (patch.expect(rt, "one call that fails"), true)
        }
    }
}

/// Reads a rectangle of a buffer that is edited.
///
/// # Errors
///
/// As [`OwnedSession::grab`].
fn grab<C: TileChain>(
    rt: &impl Abort,
    session: &mut OwnedSession<IntKit, C>,
    word: &str,
    fields: Fields,
) -> Result<Patch, SessionRefused>
    requires { IsOver same_operation int_meanings session.old.state (C.held session.old.chain) }
    ensures { IsOver same_operation int_meanings session.new.state (C.held session.new.chain) }
{
    session.grab(name(rt, word), 0, Abyss::None, rect(fields))
}

/// Reads a rectangle of a buffer that is edited, and again where the disk refuses it. Returns the patch, and whether it did.
pub fn grabbed<C: TileChain>(
    rt: &impl Abort,
    session: &mut OwnedSession<IntKit, C>,
    word: &str,
    fields: Fields,
) -> (Patch, bool)
    requires { IsOver same_operation int_meanings session.old.state (C.held session.old.chain) }
    ensures { IsOver same_operation int_meanings session.new.state (C.held session.new.chain) }
{
    match grab(rt, session, word, fields) {
        Ok(patch) => (patch, false),
        Err(refused) => {
            assert!(rt; refused == SWAP_FAULT);
            let patch = grab(rt, session, word, fields);
            (patch.expect(rt, "one call that fails"), true)
        }
    }
}

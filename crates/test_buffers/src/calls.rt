//! Calls on buffers of gray pixels, by words and rectangles of four numbers.

ghost use Rattle.std.specs.Prelude.{◌≡◌, ◌≤◌};
ghost use Rattle.chain_owners.specs.Held.{Held};
ghost use Rattle.buffer_view.specs.BufferTables.{AreBuffersOver};

use crate::check::check as check_value;
use buffer_view::{BufferRefused, Buffers, no_buffers_ask_nothing};
use op_contracts::SourceTiles;
use pixel_formats::{Abyss, Format};
use plane_rect::{Name, TileAt};
use std::alloc::Global;
use std::process::Abort;
use test_nodes::rect;
use tile_chain::TileChain;

/// A buffer, a level of it, a policy, and a rectangle of the level, which are read.
pub type Read = (&'static str, u32, Abyss, [i64; 4]);

/// Returns the name that a word is.
pub fn name(rt: &impl Abort, word: &str) -> Name {
    Name::parse(word.as_bytes()).expect(rt, "a name")
}

/// Adds a buffer of zeros.
pub fn create(rt: &impl Abort, buffers: &mut Buffers, word: &str, fields: [i64; 4])
    ensures { (held : Held) → AreBuffersOver buffers.old held → AreBuffersOver buffers.new held }
{
    let created = buffers.create(name(rt, word), Format::Y8, rect(fields));
    created.expect(rt, "a buffer");
}

/// Returns a table of one buffer of zeros.
pub fn one_buffer<C: TileChain>(
    rt: &impl Abort,
    chain: &C,
    alloc: Global,
    word: &str,
    fields: [i64; 4],
) -> Buffers
    ensures { AreBuffersOver result (C.held chain.now) }
{
    no_buffers_ask_nothing();
    let mut buffers = Buffers::new(alloc);
    create(rt, &mut buffers, word, fields);
    buffers
}

/// Adds a part of a buffer.
pub fn part(rt: &impl Abort, buffers: &mut Buffers, word: &str, parent: &str, fields: [i64; 4])
    ensures { (held : Held) → AreBuffersOver buffers.old held → AreBuffersOver buffers.new held }
{
    let added = buffers.sub(name(rt, word), name(rt, parent), rect(fields));
    added.expect(rt, "a part");
}

/// Writes one byte everywhere in a rectangle of a buffer.
pub fn fill<C: TileChain>(
    rt: &impl Abort,
    buffers: &mut Buffers,
    chain: &mut C,
    word: &str,
    fields: [i64; 4],
    byte: u8,
)
    requires { AreBuffersOver buffers.old (C.held chain.old) }
    ensures { AreBuffersOver buffers.new (C.held chain.new) }
{
    let filled = buffers.fill(chain, name(rt, word), rect(fields), &[u32::from(byte)]);
    filled.expect(rt, "a rectangle of the buffer");
}

/// Fills a rectangle of a buffer and checks why that is refused.
pub fn fill_refused<C: TileChain>(
    rt: &impl Abort,
    buffers: &mut Buffers,
    chain: &mut C,
    word: &str,
    fields: [i64; 4],
    samples: &[u32],
    wanted: BufferRefused,
)
    requires { AreBuffersOver buffers.old (C.held chain.old) }
    ensures { AreBuffersOver buffers.new (C.held chain.new) }
{
    let answer = buffers.fill(chain, name(rt, word), rect(fields), samples);
    check_value(rt, word, answer, Err(wanted));
}

/// Checks a byte of the tile at the plane's origin of a buffer, by the buffer's name and the byte's index.
pub fn check<C: TileChain>(
    rt: &impl Abort,
    buffers: &mut Buffers,
    chain: &mut C,
    byte: (&str, usize),
    wanted: u8,
)
    requires { AreBuffersOver buffers.old (C.held chain.old) }
    ensures { AreBuffersOver buffers.new (C.held chain.new) }
{
    let (word, index) = byte;
    let name = name(rt, word);
    assert!(rt; buffers.fact(name).is_some());
    let tile = buffers.tile(chain, name, TileAt::of(0, 0));
    let tile = tile.expect(rt, "a tile");
    check_value(rt, (word, index), tile.bytes().get(index), Some(&wanted));
}

/// Checks the bytes of a rectangle of a level of a buffer, read under a policy.
pub fn check_level<C: TileChain>(
    rt: &impl Abort,
    buffers: &mut Buffers,
    chain: &mut C,
    read: Read,
    wanted: &[u8],
)
    requires { AreBuffersOver buffers.old (C.held chain.old) }
    ensures { AreBuffersOver buffers.new (C.held chain.new) }
{
    let (word, level, abyss, fields) = read;
    assert!(rt; level <= 8);
    let patch = buffers.get(chain, name(rt, word), level, abyss, rect(fields));
    let patch = patch.expect(rt, "a part");
    check_value(rt, read, patch.raw_bytes(), wanted);
}

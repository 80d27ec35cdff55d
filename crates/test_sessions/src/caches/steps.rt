//! Lists of calls on a cache, each with its answer.

ghost use Rattle.test_sessions.specs.Lengths.{HaveLength};

use crate::caches::calls::{Spot, check_order, keep, look, void};
use crate::values::{Fields, check_row};
use chain_owners::ChainMeaning;
use node_cache::PairStore;
use std::alloc::Global;
use std::process::Abort;
use tile_chain::SwapRefused;

/// A call on a cache, or a look at its order.
#[derive(Clone, Copy)]
pub enum Step {
    /// Keeps a tile of four times a byte for the pair of a spot: whether it wasn't there, or why not.
    Keep(Spot, u8, Result<bool, SwapRefused>),

    /// Looks for the pair of a spot: the first byte of its tile, where it is there.
    Look(Spot, Result<Option<u8>, SwapRefused>),

    /// Takes the pairs of a node out whose tiles meet a rectangle.
    Void(&'static str, Fields),

    /// Checks the pairs and their order, the most recent first.
    Order(&'static [Spot]),
}

/// Makes the step of a row.
fn make_step<H: ChainMeaning, C: PairStore<H>>(
    rt: &impl Abort,
    cache: &mut C,
    chain: &mut H,
    alloc: Global,
    row: usize,
    step: &Step,
)
    requires over { C.is_over cache.old (H.held chain.old) }
    requires lengths { HaveLength 4 (C.sizes cache.old (H.held chain.old)) }
    ensures over { C.is_over cache.new (H.held chain.new) }
    ensures lengths { HaveLength 4 (C.sizes cache.new (H.held chain.new)) }
{
    match step {
        Step::Keep(spot, byte, answer) => {
            let kept = keep(rt, cache, chain, alloc, *spot, *byte);
            check_row(rt, row, &kept, answer);
        }
        Step::Look(spot, answer) => {
            let found = look(rt, cache, chain, *spot);
            check_row(rt, row, &found, answer);
        }
        Step::Void(node, fields) => void(rt, cache, chain, node, *fields),
        Step::Order(wanted) => check_order(rt, row, cache, chain, alloc, wanted),
    }
}

/// Makes steps in their order.
pub fn make<H: ChainMeaning, C: PairStore<H>>(
    rt: &impl Abort,
    cache: &mut C,
    chain: &mut H,
    alloc: Global,
    steps: &[Step],
)
    requires over { C.is_over cache.old (H.held chain.old) }
    requires lengths { HaveLength 4 (C.sizes cache.old (H.held chain.old)) }
    ensures over { C.is_over cache.new (H.held chain.new) }
    ensures lengths { HaveLength 4 (C.sizes cache.new (H.held chain.new)) }
{
    let mut row: usize = 0;
    for step in steps {
        make_step(rt, cache, chain, alloc, row, step);
        row = row.wrapping_add(1);
    }
}

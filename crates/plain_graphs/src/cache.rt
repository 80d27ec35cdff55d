//! Cached pairs without their bytes: which there are, and how many were found.

ghost use Rattle.std.specs.Prelude.{◌≡◌, ◌+◌, ◌++◌, ◌^◌, ◌<◌, ◌∷◌, IfOk, OnOk, Some as Present, length, map, take};
ghost use Rattle.model_graphs.specs.Facts.{specs_of};
ghost use Rattle.model_states.specs.Cache.{all_looked_up, find_pair, itself, looked_up, needed_pairs, pair_of, recent_of, same_pair, without_pair};
ghost use Rattle.plain_graphs.specs.Needs.{AreBelow, AreStripsBelow};

use alloc_basics::NoMemory;
use model_graphs::NodeFact;
use model_operations::IntOp;
use model_states::Strip;
use plane_rect::{Name, TileAt};
use std::alloc::Global;
use std::marker::Model;

/// A tile of the node of a name.
#[derive(Clone, Copy)]
pub struct Pair {
    pub node: Name,
    pub tile: TileAt,
}

impl Model for Pair {
    ghost use Rattle.model_states.specs.Cache.{Pair};

    ghost Value = { Pair };

    ghost view = { λ pair. record { node = pair.node; tile = pair.tile } };

    ghost inverse = { λ pair. record { node = pair.node; tile = pair.tile } };
}

/// The pairs that are cached, most recent first, how many of those that were looked up were not
/// there, and so were evaluated, and how many were there.
#[derive(Drop)]
pub struct Lookups {
    pub pairs: Vec<Pair>,
    pub applied: u64,
    pub reused: u64,
}

impl Model for Lookups {
    ghost use Rattle.model_states.specs.Cache.{Counted, Pair};

    ghost Value = { Counted Pair };

    ghost view = { λ lookups. record {
      list = lookups.pairs.items;
      applied = lookups.applied;
      reused = lookups.reused;
    } };
}

impl Lookups {
    /// Looks pairs up in their order: each is first then, and what is past the capacity when
    /// one is new is gone. The list and the counts are those of the list with bytes.
    ///
    /// # Errors
    ///
    /// No memory was left.
    pub fn look_up_all(
        &mut self,
        alloc: Global,
        capacity: usize,
        pairs: &[Pair],
    ) -> Result<(), NoMemory>
        requires { self.old.applied + self.old.reused + length pairs.now < 2 ^ 64 }
        ensures { OnOk result
            (self.new ≡ all_looked_up itself itself (Present capacity) self.old pairs.now) }
    {
        for pair in pairs {
            self.look_up(alloc, capacity, *pair)?;
        }
        Ok(())
    }

    /// Looks one pair up.
    fn look_up(&mut self, alloc: Global, capacity: usize, pair: Pair) -> Result<(), NoMemory>
        requires { self.old.applied + self.old.reused + 1 < 2 ^ 64 }
        ensures looked_up { OnOk result
            (self.new ≡ looked_up itself itself (Present capacity) self.old pair) }
        ensures counts { OnOk result (self.new.applied + self.new.reused
            ≡ self.old.applied + self.old.reused + 1) }
    {
        let found = find_pair(&self.pairs, pair);
        self.pairs = recent(alloc, capacity, &self.pairs, pair, found)?;
        match &found {
            Some(_) => self.reused += 1,
            None => self.applied += 1,
        }
        Ok(())
    }
}

/// Tests whether two pairs are equal.
fn same_pair(a: &Pair, b: &Pair) -> bool
    ensures { result ≡ same_pair a.now b.now }
{
    a.node == b.node && a.tile == b.tile
}

/// Returns what a list has of a pair.
fn find_pair(pairs: &[Pair], pair: Pair) -> Option<Pair>
    ensures { result ≡ find_pair itself pairs.now pair }
{
    pairs.iter().find(|other| same_pair(&pair, other)).copied()
}

/// Returns the list after a pair is looked up, of which it has this.
fn recent(
    alloc: Global,
    capacity: usize,
    pairs: &[Pair],
    pair: Pair,
    found: Option<Pair>,
) -> Result<Vec<Pair>, NoMemory>
    ensures { IfOk result (λ recent. recent.items
        ≡ recent_of itself itself (Present capacity) pairs.now pair found) }
{
    match found {
        Some(first) => with_first(alloc, pairs, pair, first),
        None => with_new(alloc, capacity, pairs, pair),
    }
}

/// Returns the list without a pair, after what it has of the pair.
fn with_first(alloc: Global, pairs: &[Pair], pair: Pair, first: Pair) -> Result<Vec<Pair>, NoMemory>
    ensures { IfOk result (λ recent. recent.items ≡ first ∷ without_pair itself pairs.now pair) }
{
    let mut recent = vec![in alloc; first]?;
    for other in pairs {
        if !same_pair(&pair, other) {
            recent.push(*other)?;
        }
    }
    Ok(recent)
}

/// Returns the list after a new pair, up to the capacity.
fn with_new(
    alloc: Global,
    capacity: usize,
    pairs: &[Pair],
    pair: Pair,
) -> Result<Vec<Pair>, NoMemory>
    ensures { IfOk result (λ recent. recent.items ≡ take capacity (pair ∷ pairs.now)) }
{
    let mut recent = vec![in alloc; pair]?;
    recent.extend_from_slice(pairs)?;
    recent.truncate(capacity);
    Ok(recent)
}

/// Returns all pairs of all strips, in their order.
///
/// # Errors
///
/// No memory was left.
pub fn needed_pairs(
    alloc: Global,
    facts: &[NodeFact<IntOp>],
    strips: &[Strip],
) -> Result<Vec<Pair>, NoMemory>
    requires { AreStripsBelow (length facts.now) strips.now }
    ensures { IfOk result (λ pairs. pairs.items ≡ needed_pairs (specs_of facts.now) strips.now) }
{
    let mut pairs = Vec::new(alloc);
    for strip in strips {
        add_pairs(&mut pairs, facts, strip.need.as_slice())?;
    }
    Ok(pairs)
}

/// Adds the pairs of tiles of nodes, each with the position of its node.
fn add_pairs(
    pairs: &mut Vec<Pair>,
    facts: &[NodeFact<IntOp>],
    needed: &[(u32, TileAt)],
) -> Result<(), NoMemory>
    requires { AreBelow (length facts.now) needed.now }
    ensures { OnOk result (pairs.new.items
        ≡ pairs.old.items ++ map (pair_of (specs_of facts.now)) needed.now) }
{
    for (node, tile) in needed {
        let owner = &facts[*node as usize];
        pairs.push(Pair {
            node: owner.spec.name,
            tile: *tile,
        })?;
    }
    Ok(())
}

//! Names of buffers and nodes.

ghost use Rattle.std.specs.Prelude.{◌≡◌, ◌≤◌, ◌↔◌, IsTrue, SomeIff, length, nat_eq, Some};
ghost use Rattle.std.specs.Ordering.{nat_cmp};
ghost use Rattle.std.specs.Cmp.Lexicographic.{pointwise, slice_cmp, nat_list_cmp_total, nat_list_eq_equiv, texts_ties, texts_po};
ghost use Rattle.std.specs.Cmp.{partial_equiv_from_equiv};
ghost use Rattle.std.specs.Cmp.Rules.{hashing};
ghost use Rattle.std.specs.Hash as fed;
ghost use Rattle.std.proofs.Common.{rules, refl};
ghost use Rattle.std.specs.List.{list_all};
ghost use Rattle.plane_rect.specs.Name.{is_name, is_name_byte, longest_name};

use std::cmp::Ordering;
use std::hash::{Hash, Hasher};
use std::marker::Model;

/// The largest number of bytes in a name.
const MAX_BYTES: usize = 16;

/// A name: 1 to 16 ASCII bytes, the first `a` to `z`, the others `a` to `z`, `0` to `9` or `_`.
///
/// A clause sees it as the list of its bytes.
#[derive(Clone, Copy, Debug)]
pub struct Name {
    /// The name, and zeros after it.
    padded: [u8; MAX_BYTES],
    len: u8,
}

impl Model for Name {
    ghost use Rattle.std.specs.Prelude.{ℕ, List, length, take};
    ghost use Rattle.plane_rect.specs.Name.{HoldsName, padded_name};

    ghost Value = { List ℕ };

    ghost view = { λ n. take n.len n.padded };

    ghost invariant = { λ n. HoldsName n.padded n.len };

    ghost inverse = { λ name. record { padded = padded_name name; len = length name } };
}

impl Name {
    /// Returns the name that a word is, and None exactly where it is none.
    pub fn parse(word: &[u8]) -> Option<Name>
        ensures { SomeIff result (IsTrue (is_name word.now)) word.now }
    {
        if !is_name(word) {
            return None;
        }
        let mut padded = [0; MAX_BYTES];
        padded[..word.len()].copy_from_slice(word);
        Some(Name {
            padded,
            len: word.len() as u8,
        })
    }

    /// Returns the bytes of the name, 1 to 16.
    pub fn as_bytes(&self) -> &[u8]
        ensures value { result.now ≡ self.now }
        ensures name { IsTrue (is_name result.now) }
        ensures short { length result.now ≤ longest_name }
    {
        &self.padded[..usize::from(self.len)]
    }
}

/// Returns whether a word is a name.
fn is_name(word: &[u8]) -> bool
    ensures { result ≡ is_name word.now }
{
    match word.split_first() {
        Some((first, rest)) => {
            first.is_ascii_lowercase() && rest.len() < MAX_BYTES && may_follow(rest)
        }
        None => false,
    }
}

/// Returns whether each of these bytes may follow the first of a name.
fn may_follow(rest: &[u8]) -> bool
    ensures { result ≡ list_all is_name_byte rest.now }
{
    rest.iter().all(|byte| is_name_byte(*byte))
}

/// Returns whether a byte may follow the first of a name.
fn is_name_byte(byte: u8) -> bool
    ensures { result ≡ is_name_byte byte }
{
    byte.is_ascii_lowercase() || byte.is_ascii_digit() || byte == b'_'
}

impl PartialEq for Name {
    ghost eq = { pointwise nat_eq };

    ghost laws = { partial_equiv_from_equiv nat_list_eq_equiv };

    fn eq(&self, other: &Name) -> bool
        ensures eq { result ≡ pointwise nat_eq self.now other.now }
        ensures same { IsTrue result ↔ (self.now ≡ other.now) }
    {
        self.as_bytes() == other.as_bytes()
    }
}

impl Eq for Name {
    ghost laws = { nat_list_eq_equiv };
}

impl PartialOrd for Name {
    ghost partial_cmp = { λ a b. Some (slice_cmp nat_cmp a b) };

    ghost laws = { texts_po };

    fn partial_cmp(&self, other: &Name) -> Option<Ordering> {
        Some(self.cmp(other))
    }
}

impl Ord for Name {
    ghost cmp = { slice_cmp nat_cmp };

    ghost total = { nat_list_cmp_total };

    ghost matches_partial_cmp = { λ a b. refl };

    ghost matches_eq = { texts_ties };

    fn cmp(&self, other: &Name) -> Ordering {
        self.as_bytes().cmp(other.as_bytes())
    }
}

impl Hash for Name {
    ghost hash_input = { fed.slice fed.u8 };

    ghost respects_eq = { Prim.search (hashing, rules) };

    fn hash<H: Hasher>(&self, state: &mut H) {
        self.as_bytes().hash(state);
    }
}

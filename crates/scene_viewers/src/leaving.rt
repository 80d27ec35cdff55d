//! Which cached tiles leave where a viewer shows a later scene.

ghost use Rattle.std.specs.Prelude.{◌≡◌, fold, map};
ghost use Rattle.model_states.specs.Cache.{all_voided, by_pair, itself};
ghost use Rattle.model_scenes.specs.Follows.{left_at};
ghost use Rattle.node_cache.specs.HandTiles.{IsHandCache, hand_bytes, hand_size};
ghost use Rattle.node_cache.specs.{NodeNames.pairs_in, Stores.by_sized};
ghost use Rattle.scene_viewers.specs.Leaving.{voided_later};

use model_states::Damage;
use node_cache::{HandCache, PairStore};
use plane_rect::{Name, Rect};

/// How many damages a scene has at most.
const MOST_DAMAGES: u64 = 64;

/// Takes the pairs out whose tile meets the rectangle that is given for their node. Takes no memory, and
/// time in proportion to the tiles of the rectangles or to the pairs for each, whichever are fewer.
fn void_all(cache: &mut HandCache, rects: &[(Name, Rect)])
    requires { IsHandCache cache.old.tiles.entries cache.old.tiles.cap }
    ensures pairs { pairs_in cache.new.tiles.entries ≡ all_voided itself (pairs_in cache.old.tiles.entries) rects.now }
    ensures sizes { map hand_size cache.new.tiles.entries ≡ all_voided by_sized (map hand_size cache.old.tiles.entries) rects.now }
    ensures cached { map hand_bytes cache.new.tiles.entries ≡ all_voided by_pair (map hand_bytes cache.old.tiles.entries) rects.now }
    ensures over { IsHandCache cache.new.tiles.entries cache.new.tiles.cap }
{
    for (node, rect) in rects {
        cache.void(&mut (), *node, *rect);
    }
}

/// Takes the pairs out that a damage voids, where its number is later.
fn void_where_later(cache: &mut HandCache, before: u64, damage: &Damage)
    requires { IsHandCache cache.old.tiles.entries cache.old.tiles.cap }
    ensures pairs { pairs_in cache.new.tiles.entries ≡ voided_later itself before (pairs_in cache.old.tiles.entries) damage.now }
    ensures sizes { map hand_size cache.new.tiles.entries ≡ voided_later by_sized before (map hand_size cache.old.tiles.entries) damage.now }
    ensures cached { map hand_bytes cache.new.tiles.entries ≡ voided_later by_pair before (map hand_bytes cache.old.tiles.entries) damage.now }
    ensures over { IsHandCache cache.new.tiles.entries cache.new.tiles.cap }
{
    if before < damage.number {
        void_all(cache, damage.rects.as_slice());
    }
}

/// Takes the pairs out that damages of later numbers void.
fn void_later(cache: &mut HandCache, before: u64, damages: &[Damage])
    requires { IsHandCache cache.old.tiles.entries cache.old.tiles.cap }
    ensures pairs { pairs_in cache.new.tiles.entries ≡ fold (voided_later itself before) (pairs_in cache.old.tiles.entries) damages.now }
    ensures sizes { map hand_size cache.new.tiles.entries ≡ fold (voided_later by_sized before) (map hand_size cache.old.tiles.entries) damages.now }
    ensures cached { map hand_bytes cache.new.tiles.entries ≡ fold (voided_later by_pair before) (map hand_bytes cache.old.tiles.entries) damages.now }
    ensures over { IsHandCache cache.new.tiles.entries cache.new.tiles.cap }
{
    for damage in damages {
        void_where_later(cache, before, damage);
    }
}

/// Takes the pairs out that are not known to be right at a scene of this number with these damages: where
/// the scene before is not known by them all, and else those that a later damage voids. Takes no memory.
pub(crate) fn leave(cache: &mut HandCache, before: u64, number: u64, damages: &[Damage])
    requires { IsHandCache cache.old.tiles.entries cache.old.tiles.cap }
    ensures pairs { pairs_in cache.new.tiles.entries ≡ left_at itself before number damages.now (pairs_in cache.old.tiles.entries) }
    ensures sizes { map hand_size cache.new.tiles.entries ≡ left_at by_sized before number damages.now (map hand_size cache.old.tiles.entries) }
    ensures cached { map hand_bytes cache.new.tiles.entries ≡ left_at by_pair before number damages.now (map hand_bytes cache.old.tiles.entries) }
    ensures over { IsHandCache cache.new.tiles.entries cache.new.tiles.cap }
{
    if number.saturating_sub(before) > MOST_DAMAGES {
        cache.clear();
        return;
    }
    void_later(cache, before, damages);
}

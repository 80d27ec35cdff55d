//! The list of a hub's scenes, as its editor has it.

ghost use Rattle.std.specs.Prelude.{◌≡◌, [], ◌∷◌, ◌++◌};
ghost use Rattle.logbook.specs.Pages.{may_write};
ghost use Rattle.scene_hub.specs.HubBook.{IsAppended, base_of};
ghost use Rattle.scene_hub.specs.HubList.{scenes, next_key, IsReached, IsSameHub, ComesBefore};
ghost use Rattle.scene_hub.specs.SceneLog.{Begins};

use crate::book::{AppendEntry, BeginList, HubBook, Nothing, TakePen};
use crate::entry::{Entry, NewEntry};
use crate::prefix::{ListPrefix, Log};
use logbook::{Offer, Pen, Seen, Start, Word};
use std::mem::replace;
use std::snapshot::Snapshot;

type Base<S> = Word<Entry<S>, (), HubBook<S>>;

type Nought<S> = Offer<Entry<S>, (), HubBook<S>, Nothing>;

/// The whole list of a hub's scenes, and the right to append to it.
#[derive(Drop)]
pub struct SceneList<S> {
    base: Base<S>,
    pen: Pen,
    pub whole: ListPrefix<S>,
    ghost base_is: { base ≡ base_of whole.origin.book },
    ghost pen_is: { (pen.book ≡ whole.origin.book) × (pen.nib.right ≡ may_write) × (pen.nib.key ≡ next_key whole) },
    ghost reached: { IsReached whole },
}

/// Takes a pen that has not been used.
fn new_pen<S>(base: &Base<S>, log: &mut Log<S>, scene: &Snapshot<S>) -> Pen
    requires { base.now ≡ base_of log.old.book }
    ensures log { (log.new.book ≡ log.old.book) × Begins log.old.log log.new.log }
    ensures pen { (result.book ≡ log.old.book) × (result.nib.right ≡ may_write) }
{
    let mut offer: Nought<S> = log.plain::<Nothing, Snapshot<S>, TakePen>(scene);
    let mut pen = log.no_pen();
    base.compare_exchange::<TakePen, Nothing>(0, 0, log, &mut offer, &mut pen);
    let _word: Base<S> = Word::tracked(0, &mut pen);
    pen
}

/// Appends a scene to the log, which uses up the pen. The scene after it is appended by the next pen.
fn append_entry<S>(base: &Base<S>, log: &mut Log<S>, pen: Pen, next: &Pen, scene: Snapshot<S>)
    requires base { base.now ≡ base_of log.old.book }
    requires pen { (pen.book ≡ log.old.book) × (pen.nib.right ≡ may_write) }
    ensures book { log.new.book ≡ log.old.book }
    ensures entry { IsAppended log.old.log log.new.log (record { key = pen.nib.key; next = next.now.nib.key; scene = scene.value }) }
{
    let mut pen = pen;
    let entry = NewEntry {
        pen: Snapshot::of(&pen),
        next: Snapshot::of(next),
        scene,
    };
    let mut offer: Nought<S> = log.plain::<Nothing, NewEntry<S>, AppendEntry>(&entry);
    base.compare_exchange::<AppendEntry, Nothing>(0, 0, log, &mut offer, &mut pen);
}

impl<S> SceneList<S> {
    /// Begins a list with its first scene.
    pub fn begin(first: &S) -> SceneList<S>
        ensures { scenes result.whole ≡ first.now ∷ [] }
    {
        let (mut log, mut pen, _second): (Log<S>, Pen, Pen) = Seen::open(Start::alone(), 0, 0);
        let base: Base<S> = Word::tracked(0, &mut pen);
        let scene = Snapshot::of(first);
        let mut offer: Nought<S> = log.plain::<Nothing, Snapshot<S>, BeginList>(&scene);
        let mut pen = log.no_pen();
        base.compare_exchange::<BeginList, Nothing>(0, 0, &mut log, &mut offer, &mut pen);
        let _word: Base<S> = Word::tracked(0, &mut pen);
        SceneList {
            base,
            pen,
            whole: ListPrefix {
                origin: log.again(),
                reached: log,
            },
        }
    }

    /// Appends a scene.
    pub fn append(&mut self, scene: &S)
        ensures appended { scenes self.new.whole ≡ scenes self.old.whole ++ scene.now ∷ [] }
        ensures later { ComesBefore self.old.whole self.new.whole }
    {
        let scene = Snapshot::of(scene);
        let next = new_pen(&self.base, &mut self.whole.reached, &scene);
        let pen = replace(&mut self.pen, next);
        append_entry(&self.base, &mut self.whole.reached, pen, &self.pen, scene);
    }
}

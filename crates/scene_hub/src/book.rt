//! The rule of the book that has the log, and the steps on it.

use crate::entry::{Entry, NewEntry};
use logbook::{Gain, Plain, Play, Rule};
use std::marker::PhantomData;
use std::snapshot::Snapshot;

/// The rule: an entry's key is used up.
pub struct HubBook<S> {
    scenes: PhantomData<S>,
}

impl<S> Rule<Entry<S>, ()> for HubBook<S> {
    ghost use Rattle.std.specs.Prelude.{[]};
    ghost use base.Fml.{ftrue};
    ghost use Rattle.scene_hub.specs.HubBook.{IsKept};

    ghost holds = { λ cells log. IsKept cells log };

    ghost first = { [] };

    ghost hinted = { λ n log. Unit {0} };

    ghost shows = { λ log. [] };

    ghost keeps = { λ names log. ftrue };

    ghost moves = { λ ask before after answer. Unit {0} };
}

/// Steps trade nothing.
pub struct Nothing;

impl<S> Gain<Entry<S>, ()> for Nothing {
    ghost use base.Fml.{ftrue};

    ghost after = { λ names about answer. ftrue };
}

/// A step that begins a list with its first scene, and gives the pen that appends the second.
pub struct BeginList;

impl<S> Play<Entry<S>, ()> for BeginList {
    ghost use Rattle.scene_hub.specs.HubBook.{ListBegins};

    ghost then = { ListBegins };
}

impl<S> Plain<Snapshot<S>, Entry<S>, ()> for BeginList {
    ghost use Rattle.std.specs.Prelude.{None};

    ghost ask = { λ scene. record { key = 0; next = 0; scene = scene.value } };

    ghost state = { λ scene. None };
}

/// A step that gives a pen.
pub struct TakePen;

impl<S> Play<Entry<S>, ()> for TakePen {
    ghost use Rattle.scene_hub.specs.HubBook.{PenTaken};

    ghost then = { PenTaken };
}

impl<S> Plain<Snapshot<S>, Entry<S>, ()> for TakePen {
    ghost use Rattle.std.specs.Prelude.{None};

    ghost ask = { λ scene. record { key = 0; next = 0; scene = scene.value } };

    ghost state = { λ scene. None };
}

/// A step that appends an entry, and uses up its pen.
pub struct AppendEntry;

impl<S> Play<Entry<S>, ()> for AppendEntry {
    ghost use Rattle.scene_hub.specs.HubBook.{EntryAppended};

    ghost then = { EntryAppended };
}

impl<S> Plain<NewEntry<S>, Entry<S>, ()> for AppendEntry {
    ghost use Rattle.std.specs.Prelude.{None};

    ghost ask = { λ new. record { key = new.pen.value.nib.key; next = new.next.value.nib.key; scene = new.scene.value } };

    ghost state = { λ new. None };
}

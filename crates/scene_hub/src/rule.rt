//! The hub's rule, and its steps.

ghost use Rattle.std.specs.Prelude.{◌≡◌, IfOk};
ghost use Rattle.scene_hub.specs.HubRule.{shown_of};

use crate::numbered::Numbered;
use crate::prefix::ListPrefix;
use crate::showing::{Showing, Shown};
use atomic_table::{Join, Split};
use crossbeam_utils::rule::{Outcome, Protocol};
use left_right::Absorb;
use left_right::reader::Reader;
use left_right::writer::Writer;
use std::alloc::AllocError;
use std::sync::Arc;

/// What a pass has seen.
pub type View<S> = Option<ListPrefix<S>>;

/// The rule.
pub struct HubRule;

pub type SceneReader<S> = Reader<Showing<S>, View<S>, HubRule>;

pub type SceneWriter<S> = Writer<Showing<S>, Showing<S>, View<S>, HubRule>;

impl<S: Numbered> Protocol<Showing<S>, View<S>> for HubRule {
    ghost use Rattle.std.specs.Prelude.{None};
    ghost use Rattle.scene_hub.specs.HubRule.{AllSeen, IsShown};

    ghost holds = { λ shown views. IsShown S.number_of S.follows shown × AllSeen shown.list views };

    ghost first = { None };
}

/// A step that publishes, or that enters: what is shown after it was seen.
pub struct Look;

impl<S: Numbered> Outcome<Showing<S>, View<S>> for Look {
    ghost use Rattle.scene_hub.specs.HubRule.{Sees};

    ghost then = { λ before shown next after. Sees S.number_of S.follows before next after };
}

/// The editor tells what it has seen, and a new viewer learns it.
pub struct Notes;

impl<S> Split<Option<ListPrefix<S>>> for Notes {
    ghost left = { λ v. v };

    ghost right = { λ v. v };
}

impl<S> Join<Option<ListPrefix<S>>> for Notes {
    ghost use Rattle.std.specs.Prelude.{None};

    ghost both = { λ v w. w };

    ghost spent = { None };
}

impl<S> Showing<S> {
    /// Returns another share of the scene.
    pub(crate) fn share(&self) -> Result<Showing<S>, AllocError>
        ensures { IfOk result (λ other. shown_of other ≡ shown_of self.now) }
    {
        Ok(Showing {
            scene: Arc::try_clone(&self.scene)?,
            number: self.number,
            list: self.list.again(),
        })
    }
}

impl<S: Drop> Absorb<Showing<S>> for Showing<S> {
    type State = Shown<S>;

    ghost use Rattle.scene_hub.specs.HubRule.{shown_of};

    ghost state = { λ showing. shown_of showing };

    ghost applied = { λ before next. shown_of next };

    fn absorb_first(
        &mut self,
        operation: &Showing<S>,
        _other: &Showing<S>,
    ) -> Result<(), AllocError> {
        *self = operation.share()?;
        Ok(())
    }

    fn absorb_second(
        &mut self,
        operation: Showing<S>,
        _other: &Showing<S>,
    ) -> Result<(), Showing<S>> {
        *self = operation;
        Ok(())
    }
}

//! What an editor does.

ghost use Rattle.std.specs.Prelude.{◌≡◌, [], ◌∷◌, ◌++◌, Some, IfOk, OnErr, option_map};
ghost use Rattle.scene_hub.specs.Hub.{published, receipted, IsOfEditor, IsSameEditorHub};
ghost use Rattle.scene_hub.specs.SceneLog.{AllFollow, IsNext, last_of};

use crate::editor::Editor;
use crate::numbered::Numbered;
use crate::publisher::Publisher;
use crate::receipt::Receipt;
use crate::showing::Showing;
use alloc_basics::NoMemory;
use std::sync::{Arc, Wait};

impl<S: Numbered> Editor<S> {
    /// Appends a scene that follows the last one to the hub's list and shows it to all viewers, and
    /// returns its receipt. It waits for viewers that are just entering. Where memory runs out nothing is
    /// published.
    pub fn publish<R: Wait>(&mut self, rt: &R, scene: S) -> Result<Receipt<S>, NoMemory>
        requires follows { IsNext S.follows (published self.old) scene }
        ensures published { IfOk result (λ receipt. published self.new ≡ published self.old ++ scene ∷ []) }
        ensures follow { AllFollow S.follows (published self.new) }
        ensures receipt { IfOk result (λ receipt. IsOfEditor receipt self.new × (receipted receipt ≡ published self.new)) }
        ensures refused { OnErr result (published self.new ≡ published self.old) }
        ensures hub { IsSameEditorHub self.old self.new }
    {
        let number = scene.number();
        let scene = Arc::new(self.alloc, scene)?;
        self.list.append(&*scene);
        let list = self.list.whole.again();
        let next = Showing {
            scene,
            number,
            list,
        };
        self.publisher.show(rt, next);
        self.last = Receipt {
            number,
            list: self.list.whole.again(),
        };
        Ok(self.receipt())
    }

    /// Returns one more receipt of the last scene.
    pub fn receipt(&self) -> Receipt<S>
        ensures receipt { IsOfEditor result self.now × (receipted result ≡ published self.now) }
    {
        Receipt {
            number: self.last.number,
            list: self.list.whole.again(),
        }
    }

    /// Returns the number of the last scene.
    pub fn number(&self) -> u64
        ensures { option_map S.number_of (last_of (published self.now)) ≡ Some result }
    {
        self.last.number
    }

    /// Ends the hub, which is the last call on its editor. It waits for viewers that are just entering.
    pub fn end<R: Wait>(self, rt: &R) {
        let Editor {
            alloc: _,
            list: _list,
            last: _last,
            publisher,
        } = self;
        let Publisher { writer } = publisher;
        drop(writer.take(rt));
    }
}

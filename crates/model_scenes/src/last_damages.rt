//! The damages of the last commits.

ghost use Rattle.std.specs.Prelude.{◌≡◌, [], IfOk, OnErr, OnOk};
ghost use Rattle.model_scenes.specs.Commits.{with_damage};

use alloc_basics::NoMemory;
use model_states::Damage;
use std::alloc::Global;
use std::marker::Model;

/// How many commits a scene tells of.
const MOST_DAMAGES: usize = 64;

/// The damages of the last commits, 64 at most, the oldest first. A clause sees them as their list.
#[derive(Drop)]
pub struct LastDamages {
    damages: Vec<Damage>,
}

impl Model for LastDamages {
    ghost use Rattle.std.specs.Prelude.{◌≤◌, List, length};
    ghost use Rattle.model_scenes.specs.Follows.{most_damages};
    ghost use Rattle.model_states.specs.declared.damage.Damage.{Damage};

    ghost Value = { List Damage };

    ghost view = { λ last. last.damages.items };

    ghost invariant = { λ last. length last.damages.items ≤ most_damages };
}

impl LastDamages {
    /// Returns the list before the first commit, which takes no memory.
    pub fn new(alloc: Global) -> LastDamages
        ensures { result ≡ [] }
    {
        let damages = Vec::new(alloc);
        LastDamages { damages }
    }

    /// Adds the damage of the next commit. Of 65 the oldest goes.
    ///
    /// # Errors
    ///
    /// `NoMemory` if memory runs out. The list is then unchanged.
    pub fn add(&mut self, damage: Damage) -> Result<(), NoMemory>
        ensures added { OnOk result (self.new ≡ with_damage self.old damage) }
        ensures refused { OnErr result (self.new ≡ self.old) }
    {
        self.damages.push(damage)?;
        if self.damages.len() > MOST_DAMAGES {
            self.damages.remove(0);
        }
        Ok(())
    }

    /// Returns the damages in a vector of their own. Its cost is proportional to their rectangles.
    ///
    /// # Errors
    ///
    /// `NoMemory` if memory runs out.
    pub fn copy(&self) -> Result<Vec<Damage>, NoMemory>
        ensures { IfOk result (λ copied. copied.items ≡ self.now) }
    {
        let alloc = *self.damages.allocator();
        let mut copied = Vec::with_capacity(alloc, self.damages.len())?;
        for damage in &self.damages {
            let rects = damage.rects.clone()?;
            let number = damage.number;
            copied.push(Damage { number, rects })?;
        }
        Ok(copied)
    }
}

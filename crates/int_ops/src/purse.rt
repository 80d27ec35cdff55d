//! Permits to apply operations.

ghost use Rattle.std.specs.Prelude.{◌≡◌};
ghost use Rattle.model_graphs.specs.Permits.{Takes};

/// Permits to apply operations, each to one part of a tile.
#[derive(Debug, Drop)]
pub struct IntPurse {
    left: u64,
}

/// A permit to apply an operation once. It is taken from a purse, and from nowhere else.
#[derive(Debug, Drop)]
pub struct IntPermit {
    _spent: (),
}

impl IntPurse {
    /// Returns a purse of so many permits.
    pub fn new(permits: u64) -> IntPurse
        ensures { result.left ≡ permits }
    {
        IntPurse { left: permits }
    }

    /// Returns how many permits are left.
    pub(crate) fn left(&self) -> u64
        ensures { result ≡ self.now.left }
    {
        self.left
    }

    /// Takes a permit, where one is left.
    pub(crate) fn take(&mut self) -> Option<IntPermit>
        ensures { Takes self.old.left self.new.left result }
    {
        self.left = self.left.checked_sub(1)?;
        Some(IntPermit { _spent: () })
    }
}

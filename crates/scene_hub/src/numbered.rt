//! What a hub shows.

ghost use Rattle.std.specs.Prelude.{◌≡◌, ◌<◌, ℕ};

/// A scene with a number, of a type that says which scenes may come after which. Contracts see the
/// number as `number_of`.
pub trait Numbered: Drop {
    ghost number_of: { Self → ℕ };

    /// The second scene may come after the first in the list of a hub.
    ghost follows: { Self → Self → Type 0 };

    /// A scene that follows another has a greater number.
    ghost rises: { (a b : Self) → follows a b → number_of a < number_of b };

    /// A scene that follows another follows all that the other follows.
    ghost transitive: { (a b c : Self) → follows a b → follows b c → follows a c };

    /// Returns the scene's number.
    fn number(&self) -> u64
        ensures { result ≡ number_of self.now };
}

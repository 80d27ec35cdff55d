//! A scene that is a number.

ghost use Rattle.std.specs.Prelude.{◌≡◌, ◌<◌};
ghost use Rattle.std.proofs.Math.Nat.{lt_trans};

use scene_hub::Numbered;

/// A scene with nothing but its number. It follows those of lesser numbers.
#[derive(Drop)]
pub struct Page {
    pub number: u64,
}

impl Numbered for Page {
    ghost number_of = { λ page. page.number };

    ghost follows = { λ a b. a.number < b.number };

    ghost rises = { λ a b less. less };

    ghost transitive = { λ a b c first second. lt_trans first second };

    fn number(&self) -> u64 {
        self.number
    }
}

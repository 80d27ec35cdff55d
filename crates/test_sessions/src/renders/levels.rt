//! Levels of a node and of a buffer.

ghost use Rattle.std.specs.Prelude.{◌≤◌};

use crate::renders::steps::Bytes::Plain;
use crate::renders::steps::Step::{self, Asks};
use crate::renders::steps::Wanted::Shown;

/// Returns the steps that render a rectangle of a level around the box of the dilated image: of the buffer and of that image.
pub fn steps_at(z: u32) -> [Step; 2]
    requires { z ≤ 8 }
{
    let side: i64 = 1 << z;
    let (x, y) = ((-77i64).div_euclid(side), (-5i64).div_euclid(side));
    let around = [x - 1, y - 1, 146 / side + 4, 75 / side + 4];
    [
        Asks(("s", z, around), Shown((0, 0), &[Plain])),
        Asks(("d", z, around), Shown((12, 0), &[Plain])),
    ]
}

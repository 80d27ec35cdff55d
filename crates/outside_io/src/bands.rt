//! Bytes of files that are made band by band.

ghost use Rattle.std.specs.Prelude.{◌≡◌, ◌≢◌, ◌<◌, ℕ, Err, IfErr, IfOk, IsTrue, List};
ghost use Rattle.outside_io.specs.Bands.{GivesBand};
ghost use Rattle.outside_io.specs.declared.bands.BandsAnswer.TheVariants.{Failed, NoMemory, Refused};

use alloc_basics::OutOfMemory;
use std::alloc::Global;
use thiserror::Error;

/// Why a shelf did not write a file that came in bands.
#[derive(Clone, Copy, Debug, PartialEq, Eq, Error)]
pub enum BandsAnswer<E> {
    /// The device failed.
    #[error("the shelf failed")]
    Failed,
    /// No memory was left.
    #[error("no memory was left")]
    NoMemory,
    /// A band could not be made, for a reason of its maker's.
    #[error("a band could not be made")]
    Refused(E),
}

impl<A: OutOfMemory, E> From<A> for BandsAnswer<E> {
    ghost from_gives = { λ _ answer. answer ≡ NoMemory };

    fn from(_error: A) -> BandsAnswer<E> {
        BandsAnswer::NoMemory
    }
}

/// Makes the bytes of a file band by band, so that no more than one band is in memory at a time.
pub trait Bands {
    /// Why a band could not be made.
    type Refused;

    /// The bytes of the band that was made last.
    ghost made: { Self → List ℕ };

    /// The bands that are left may have these bytes, one after another.
    ghost may_give: { Self → List ℕ → Type 0 };

    /// How many bands are left at most.
    ghost left: { Self → ℕ };

    /// What is known where a band could not be made for a reason.
    ghost refuses: { Self → Self.Refused → Type 0 };

    /// Makes the next band, in the memory of the last one where that suits it. Returns whether there was one more.
    fn next(&mut self) -> Result<bool, Self::Refused>
        ensures gives { IfOk result (λ more. GivesBand more (may_give self.old) (made self.new) (may_give self.new)) }
        ensures fewer { IfOk result (λ more. IsTrue more → left self.new < left self.old) }
        ensures refused { IfErr result (refuses self.new) };

    /// Returns the bytes of the band that was made last, which may be none.
    fn band(&self) -> &[u8]
        ensures { result.now ≡ made self.now };
}

/// Returns the bytes of the bands that are left, one after another.
///
/// # Errors
///
/// `Refused` if a band can't be made, and `NoMemory` if memory runs out.
pub(crate) fn joined<B: Bands>(
    alloc: Global,
    bands: &mut B,
) -> Result<Vec<u8>, BandsAnswer<B::Refused>>
    ensures joined { IfOk result (λ bytes. B.may_give bands.old bytes.items) }
    ensures refused { (why : B.Refused) → result ≡ Err (Refused why) → B.refuses bands.new why }
    ensures no_device { result ≢ Err Failed }
{
    let mut bytes = Vec::new(alloc);
    while bands.next().map_err(BandsAnswer::Refused)? {
        bytes.extend_from_slice(bands.band())?;
    }
    Ok(bytes)
}

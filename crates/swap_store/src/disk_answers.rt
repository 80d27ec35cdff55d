//! Why a store refuses where its disk did.

ghost use Rattle.std.specs.Prelude.{◌≡◌};
ghost use Rattle.swap_store.specs.Refusal.{refusal_of};

use chain_owners::SwapRefused;
use outside_io::SwapAnswer;

/// Returns why a store refuses where its disk did.
pub(crate) fn refused_by_disk(answer: SwapAnswer) -> SwapRefused
    ensures { result ≡ refusal_of answer }
{
    match answer {
        SwapAnswer::Failed => SwapRefused::SwapFault,
        SwapAnswer::NoMemory => SwapRefused::NoMemory,
    }
}

//! What chains of tiles mean, the owners of their names, and why a call on one is refused.
#![tactic(auto)]

mod chain_meaning;
mod counts_laws;
mod held_laws;
mod owners_laws;
mod refusal_laws;
mod run;
mod swap_refused;

pub use chain_meaning::{ChainMeaning, chains_keep_laws};
pub use counts_laws::{growths_add_up, more_names_fill};
pub use held_laws::{
    lengths_stay_exact, names_are_counted, other_names_are_unchanged, owners_count_down,
    owners_count_up,
};
pub use owners_laws::{
    calls_respect_beside, calls_respect_in_any_order, calls_respect_in_turn, disowning_respects,
    new_names_respect, no_change_respects, only_owners_stay_alone, others_are_unchanged,
    others_keep_bytes, others_still_own, owners_own_fewer, owning_respects, rewriting_respects,
    times_add_up,
};
pub use refusal_laws::causes_add_up;
pub use run::Run;
pub use swap_refused::SwapRefused;

//! Lines that commit, undo or redo.

ghost use Rattle.commit_session.specs.{Seen.IsOver, Steps.history_step};
ghost use Rattle.model_operations.specs.Meanings.{int_meanings, same_operation};
ghost use Rattle.model_runs.specs.Effects.{step_gives};
ghost use Rattle.model_sessions.specs.Tables.{table_shapes};
ghost use Rattle.model_states.specs.History.{committed};
ghost use Rattle.root_tiles.specs.Chains.{chain_state};
ghost use Rattle.run_lines.specs.Stops.{CarriesOverChain};

use crate::stop::Stop;
use chain_contracts::TileChain;
use commit_session::{Direction, SessionState};
use int_ops::IntKit;
use model_operations::IntOp;

/// Commits the pending edits.
pub(crate) fn commit<C: TileChain>(
    session: &mut SessionState<IntOp>,
    chain: &mut C,
) -> Result<(), Stop>
    requires { IsOver same_operation int_meanings session.old (C.held chain.old) }
    ensures { CarriesOverChain (λ line state. step_gives line state (committed int_meanings table_shapes state.session.history)) result session.old session.new
        (chain_state C.ChainMeaning chain.old) (chain_state C.ChainMeaning chain.new) }
{
    session.commit(&IntKit, chain)?;
    Ok(())
}

/// Undoes a commit, or redoes one.
pub(crate) fn step<C: TileChain>(
    direction: Direction,
    session: &mut SessionState<IntOp>,
    chain: &mut C,
) -> Result<(), Stop>
    requires { IsOver same_operation int_meanings session.old (C.held chain.old) }
    ensures { CarriesOverChain (λ line state. step_gives line state (history_step direction state.session.history)) result session.old session.new
        (chain_state C.ChainMeaning chain.old) (chain_state C.ChainMeaning chain.new) }
{
    session.step(chain, direction)?;
    Ok(())
}

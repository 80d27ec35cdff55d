//! Commits, undos and redos of a session.

ghost use Rattle.root_tiles.specs.Chains.{chain_state};
ghost use Rattle.commit_session.specs.Commits.{Commits, commit_step, step_in};
ghost use Rattle.commit_session.specs.Seen.{IsOver};
ghost use Rattle.model_states.specs.declared.direction.Direction.TheVariants.{Redo, Undo};

use crate::refused::SessionRefused;
use crate::session::OwnedSession;
use chain_contracts::TileChain;
use model_states::Direction;
use op_contracts::OpKit;

impl<K: OpKit, C: TileChain> OwnedSession<K, C> {
    /// Commits the pending edits of nodes, over the buffers that are edited: they are the next state, and its
    /// number is returned. Nothing can be redone after it. Exactly the cached tiles that meet the damage of their
    /// node are voided. Takes time in proportion to the damage and to the nodes with their inputs, and one look at
    /// each tile that the buffers hold.
    ///
    /// # Errors
    ///
    /// `Graph` with `TooManyCommits`, or else with the cause of the first edit that is refused, or else of the
    /// first node that is not valid; and `NoMemory` if memory runs out. The session is unchanged: the pending edits
    /// are still pending.
    pub fn commit(&mut self) -> Result<u64, SessionRefused>
        requires { IsOver K.Op.same K.Op.meanings self.old.state (C.held self.old.chain) }
        ensures { Commits K.Op.same K.Op.meanings (commit_step K.Op.same K.Op.meanings) result self.old.state self.new.state
            (chain_state C.ChainMeaning self.old.chain) (chain_state C.ChainMeaning self.new.chain) }
    {
        self.state.commit(&self.kit, &mut self.chain)
    }

    /// Goes back to the state before the last commit that is not yet undone, under the next number, which is
    /// returned. What was edited goes: the buffers become those of the state, and no edit is pending. The cached
    /// tiles are voided that meet the damage of their node. Takes time in proportion to the damage, and one look at
    /// each tile that the state's buffers hold.
    ///
    /// # Errors
    ///
    /// `Graph` with `TooManyCommits`, or else with `NothingToUndo`; and `NoMemory` if memory runs out. The session
    /// is unchanged.
    pub fn undo(&mut self) -> Result<u64, SessionRefused>
        requires { IsOver K.Op.same K.Op.meanings self.old.state (C.held self.old.chain) }
        ensures { Commits K.Op.same K.Op.meanings (step_in Undo) result self.old.state self.new.state
            (chain_state C.ChainMeaning self.old.chain) (chain_state C.ChainMeaning self.new.chain) }
    {
        self.step(Direction::Undo)
    }

    /// Goes on to the state that the last undo that is not yet redone left, as [`OwnedSession::undo`] goes back.
    ///
    /// # Errors
    ///
    /// `Graph` with `TooManyCommits`, or else with `NothingToRedo`; and `NoMemory` if memory runs out. The session
    /// is unchanged.
    pub fn redo(&mut self) -> Result<u64, SessionRefused>
        requires { IsOver K.Op.same K.Op.meanings self.old.state (C.held self.old.chain) }
        ensures { Commits K.Op.same K.Op.meanings (step_in Redo) result self.old.state self.new.state
            (chain_state C.ChainMeaning self.old.chain) (chain_state C.ChainMeaning self.new.chain) }
    {
        self.step(Direction::Redo)
    }

    /// Goes back or on, by an undo or a redo.
    ///
    /// # Errors
    ///
    /// `Graph` with `TooManyCommits`, or else with `NothingToUndo` or `NothingToRedo`; and `NoMemory` if memory runs
    /// out. The session is unchanged.
    fn step(&mut self, direction: Direction) -> Result<u64, SessionRefused>
        requires { IsOver K.Op.same K.Op.meanings self.old.state (C.held self.old.chain) }
        ensures { Commits K.Op.same K.Op.meanings (step_in direction) result self.old.state self.new.state
            (chain_state C.ChainMeaning self.old.chain) (chain_state C.ChainMeaning self.new.chain) }
    {
        self.state.step(&mut self.chain, direction)
    }
}

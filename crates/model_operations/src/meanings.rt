//! What the fifteen operations mean.

ghost use Rattle.std.specs.Prelude.{refl};
ghost use Rattle.model_graphs.specs.Filters.{filtered};
ghost use Rattle.model_operations.specs.Meanings.{int_meanings, is_steady, same_operation};
ghost use Rattle.model_operations.specs.Lawful.InPlace.{is_in_place};
ghost use Rattle.model_operations.specs.Lawful.MeaningLaws.{is_boxed, is_dual, is_local};
ghost use Rattle.model_operations.specs.Lawful.SameLaws.{is_equality};

use crate::operation::IntOp;
use model_graphs::OpMeaning;

impl OpMeaning for IntOp {
    ghost meanings = { int_meanings };

    ghost steady = { is_steady };

    ghost nodes = { filtered is_steady int_meanings };

    ghost derived = { refl };

    ghost same = { same_operation };

    ghost local = { is_local };

    ghost dual = { is_dual };

    ghost boxed = { is_boxed };

    ghost in_place = { is_in_place };

    ghost distinguished = { is_equality };
}

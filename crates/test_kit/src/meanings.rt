//! What the operation means.

ghost use Rattle.std.specs.Prelude.{refl};
ghost use Rattle.model_graphs.specs.Filters.{filtered};
ghost use Rattle.test_kit.specs.Cutting.{cut_is_steady, cutting, same_cut};
ghost use Rattle.test_kit.specs.CuttingLaws.{is_boxed, is_dual, is_equality, is_in_place, is_local};

use crate::cutting::CutTo;
use model_graphs::OpMeaning;

impl OpMeaning for CutTo {
    ghost meanings = { cutting };

    ghost steady = { cut_is_steady };

    ghost nodes = { filtered cut_is_steady cutting };

    ghost derived = { refl };

    ghost same = { same_cut };

    ghost local = { is_local };

    ghost dual = { is_dual };

    ghost boxed = { is_boxed };

    ghost in_place = { is_in_place };

    ghost distinguished = { is_equality };
}

//! What a type of operations means, and the laws that its meanings keep.

ghost use Rattle.std.specs.Prelude.{◌≡◌, ℕ, Bool, true, List, [], ◌∷◌, slice_index_or};
ghost use Rattle.plane_rect.specs.Rectangle.{empty, Inside, Rectangle};
ghost use Rattle.model_images.specs.Image.{at, Image};
ghost use Rattle.model_images.specs.Agreement.{AgreeOutside};
ghost use Rattle.model_graphs.specs.Laws.{IsBoxed, IsDual, IsEquality, IsLocal, KeepsLaws};
ghost use Rattle.model_graphs.specs.Meanings.{boxes_of, Meanings, result_box, result_of};
ghost use Rattle.model_graphs.specs.Changes.{ChangedWithin};
ghost use Rattle.model_graphs.specs.Filter.{Filter};
ghost use Rattle.model_graphs.specs.Filters.{filtered, IsInPlace, same_filter};

/// The meanings of a type of operations: what each takes and gives, and what of its inputs and of its result belongs
/// together. They belong to the type, so that all that carry out its operations mean the same.
pub trait OpMeaning {
    /// The number of inputs, the format, the box, the samples, and both regions.
    ghost meanings: { Meanings Self };

    /// Whether an operation may stand through a mask, which mixes its result with its first input.
    ghost steady: { Self → Bool };

    /// What operations mean by themselves and through a mask.
    ghost nodes: { Meanings (Filter Self) };

    /// What an operation means through a mask follows from what it means by itself.
    ghost derived: { nodes ≡ filtered steady meanings };

    /// The test that two operations are one, with the same arguments.
    ghost same: { Self → Self → Bool };

    /// The samples of a part of the box depend only on what the part requires.
    ghost local: { IsLocal meanings };

    /// A position of the box that a change does not invalidate requires no position that changed.
    ghost dual: { IsDual meanings };

    /// What is required is in the input's box, what is invalidated in the result's.
    ghost boxed: { IsBoxed meanings };

    /// A steady operation has a first input, of which it requires each position of a part that both boxes have.
    ghost in_place: { IsInPlace steady meanings };

    /// The test tells exactly whether two operations are one.
    ghost distinguished: { IsEquality same };
}

/// States that the laws by which damage is found hold of the meanings of each type of operations.
pub fn meanings_keep_laws<Op: OpMeaning>()
    ensures { KeepsLaws Op.meanings }
{}

/// States that all laws of operations hold of them through a mask too: locality, duality, boxes and equality.
pub fn nodes_keep_laws<Op: OpMeaning>()
    ensures laws { KeepsLaws Op.nodes }
    ensures boxed { IsBoxed Op.nodes }
    ensures equality { IsEquality (same_filter Op.same) }
{}

/// States that a steady operation invalidates each changed position of its first input that its own box has.
pub fn changes_stay_in_place<Op: OpMeaning>()
    ensures { (operation : Op) (boxes : List Rectangle) (changed : Rectangle) (u v : ℕ) →
        Op.steady operation ≡ true → Inside u v changed →
        Inside u v (result_box Op.meanings operation boxes) → Inside u v (slice_index_or boxes 0 empty) →
        Inside u v (Op.meanings.invalidated operation boxes 0 changed) }
{}

/// States that outside the box of a result each sample is 0.
pub fn outside_is_zero<Op: OpMeaning>()
    ensures { (operation : Op) (images : List Image) (u v c : ℕ) →
        (Inside u v (result_box Op.meanings operation (boxes_of images)) → ⊥) →
        at (result_of Op.meanings operation images) u v c ≡ 0 }
{}

/// States that where an input changes in a region alone, the result changes only in what the region invalidates.
pub fn changes_stay_inside<Op: OpMeaning>()
    ensures { (operation : Op) (i : ℕ) (region : Rectangle) (before after : List Image) →
        ChangedWithin i region before after →
        AgreeOutside (result_of Op.meanings operation before) (result_of Op.meanings operation after)
        (Op.meanings.invalidated operation (boxes_of before) i region) }
{}

/// States that two images that agree outside a region are inputs of which one changed in the region alone.
pub fn input_changed()
    ensures only { (a b : Image) (region : Rectangle) →
        AgreeOutside a b region → ChangedWithin 0 region (a ∷ []) (b ∷ []) }
    ensures first { (a b second : Image) (region : Rectangle) →
        AgreeOutside a b region →
        ChangedWithin 0 region (a ∷ second ∷ []) (b ∷ second ∷ []) }
    ensures second { (first a b : Image) (region : Rectangle) →
        AgreeOutside a b region →
        ChangedWithin 1 region (first ∷ a ∷ []) (first ∷ b ∷ []) }
{}

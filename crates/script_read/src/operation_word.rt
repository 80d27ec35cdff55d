//! The words of operations, the third of a node.

ghost use Rattle.std.specs.Prelude.{◌≡◌};
ghost use Rattle.script_read.specs.OperationWords.{operation_of, operation_word};
ghost use Rattle.script_read.specs.Spelling.{word_of_operation};

use crate::variants::{all_variants, find_by_word, same_variant};
use model_operations::IntOp;

/// The third word of a node.
#[derive(Clone, Copy, Debug, PartialEq, Eq)]
pub(crate) enum OperationWord {
    Source,
    Color,
    Checker,
    Convert,
    Invert,
    Threshold,
    Gain,
    Translate,
    Crop,
    Flip,
    BoxMean,
    Dilate,
    Erode,
    Add,
    Over,
    Mask,
}

/// All words of operations.
const OPERATION_WORDS: [OperationWord; 16] = all_variants!(OperationWord:
    Source, Color, Checker, Convert, Invert, Threshold, Gain, Translate, Crop, Flip, BoxMean, Dilate,
    Erode, Add, Over, Mask);

/// The word of each operation, in the order of the variants.
const WORDS: [&str; 16] = [
    "source",
    "color",
    "checker",
    "convert",
    "invert",
    "threshold",
    "gain",
    "translate",
    "crop",
    "flip",
    "box",
    "dilate",
    "erode",
    "add",
    "over",
    "mask",
];

impl OperationWord {
    /// Returns the operation of a word, and None exactly where it is that of none.
    #[tactic(auto, unfolding(crate::specs::OperationWords::operation_of))]
    pub fn parse(word: &[u8]) -> Option<OperationWord>
        ensures { result ≡ operation_of word.now }
    {
        find_by_word!(OPERATION_WORDS, word)
    }

    /// Returns the word of an operation.
    pub fn of(op: &IntOp) -> OperationWord
        ensures { result ≡ word_of_operation op.now }
    {
        same_variant!(op, IntOp => OperationWord:
            Color, Checker, Convert, Invert, Threshold, Gain, Translate, Crop, Flip, BoxMean, Dilate,
            Erode, Add, Over, Mask)
    }

    /// Returns the word.
    pub fn word(self) -> &'static str
        ensures { result.now ≡ operation_word self }
    {
        WORDS[self as usize]
    }
}

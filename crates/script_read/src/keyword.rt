//! The first words of commands.

ghost use Rattle.std.specs.Prelude.{◌≡◌};
ghost use Rattle.script_read.specs.Keywords.{keyword_of, keyword_word};

use crate::variants::{all_variants, find_by_word};

/// The first word of a command.
#[derive(Clone, Copy, Debug, PartialEq, Eq)]
pub(crate) enum Keyword {
    Buffer,
    Sub,
    Dup,
    Load,
    Fill,
    Copy,
    Node,
    Drop,
    Commit,
    Undo,
    Redo,
    Render,
    Grab,
    Watch,
    EndWatch,
}

/// All first words of commands.
const KEYWORDS: [Keyword; 15] = all_variants!(Keyword:
    Buffer, Sub, Dup, Load, Fill, Copy, Node, Drop, Commit, Undo, Redo, Render, Grab, Watch,
    EndWatch);

/// The word of each command, in the order of the variants.
const WORDS: [&str; 15] = [
    "buffer", "sub", "dup", "load", "fill", "copy", "node", "drop", "commit", "undo", "redo",
    "render", "grab", "watch", "endwatch",
];

impl Keyword {
    /// Returns the command of a word, and None exactly where it is that of none.
    #[tactic(auto, unfolding(crate::specs::Keywords::keyword_of))]
    pub fn parse(word: &[u8]) -> Option<Keyword>
        ensures { result ≡ keyword_of word.now }
    {
        find_by_word!(KEYWORDS, word)
    }

    /// Returns the word.
    pub fn word(self) -> &'static str
        ensures { result.now ≡ keyword_word self }
    {
        WORDS[self as usize]
    }
}

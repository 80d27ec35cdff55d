//! The policies for positions outside an image.

ghost use Rattle.std.specs.Prelude.{◌≡◌};
ghost use Rattle.std.specs.Str.{bytes_eq};
ghost use Rattle.pixel_formats.specs.Policies.{policy_named, policy_word};

/// What is read at a position outside an image's box. The names are those of GEGL's
/// `GeglAbyssPolicy`; the samples are this project's.
#[derive(Clone, Copy, Debug, PartialEq, Eq)]
pub enum Abyss {
    /// Every sample is 0.
    None,
    /// The samples at the nearest position of the box, and 0 where the box is empty.
    Clamp,
    /// The image repeated periodically: the samples at the position of the box that is a whole
    /// number of its widths and heights away, and 0 where the box is empty.
    Loop,
    /// Each color is 0, and alpha is the format's maximum sample.
    Black,
    /// Every sample is the format's maximum.
    White,
}

/// All policies.
const POLICIES: [Abyss; 5] = [
    Abyss::None,
    Abyss::Clamp,
    Abyss::Loop,
    Abyss::Black,
    Abyss::White,
];

/// The word of each policy in a script, in the order of the variants.
const WORDS: [&str; 5] = ["NONE", "CLAMP", "LOOP", "BLACK", "WHITE"];

impl Abyss {
    /// Returns the word of the policy in a script.
    pub fn word(self) -> &'static str
        ensures { result.now ≡ policy_word self }
    {
        WORDS[self as usize]
    }

    /// Returns the policy of a word, and None exactly where it names none.
    #[tactic(auto, unfolding(crate::specs::Policies::policy_named))]
    pub fn parse(word: &[u8]) -> Option<Abyss>
        ensures { result ≡ policy_named word.now }
    {
        POLICIES
            .iter()
            .copied()
            .find(|policy| is_named(*policy, word))
    }
}

/// Returns whether a word is that of a policy.
fn is_named(policy: Abyss, word: &[u8]) -> bool
    ensures { result ≡ bytes_eq (policy_word policy) word.now }
{
    policy.word().as_bytes() == word
}

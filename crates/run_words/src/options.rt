//! The options of a run, and their words.

ghost use Rattle.std.specs.Prelude.{◌≡◌};
ghost use Rattle.std.specs.Option.{option_map};
ghost use Rattle.model_runs.specs.Words.{default_options, max_value as max_of, option_named as named, value_of as written_value};
ghost use Rattle.run_words.specs.Meant.{name_meant, options_meant};

use script_words::natural_in;

/// The largest number of digits of a value.
const MAX_DIGITS: usize = 7;

/// The options of a run.
#[derive(Clone, Copy, Debug, PartialEq, Eq)]
pub struct Options {
    /// How many workers there are.
    pub workers: u32,
    /// How many tiles of a chain may be resident.
    pub resident: u32,
    /// How many tiles of nodes may be cached.
    pub cache: u32,
    /// How many blocks of the swap may be used.
    pub swap_blocks: u32,
}

impl Options {
    /// Returns the options without a word of them.
    pub fn without_words() -> Options
        ensures { options_meant result ≡ default_options }
    {
        Options {
            workers: 4,
            resident: 4_096,
            cache: 16_384,
            swap_blocks: 1 << 20,
        }
    }
}

/// The name of an option.
#[derive(Clone, Copy, Debug, PartialEq, Eq)]
pub(crate) enum OptionName {
    /// `--workers`
    Workers,
    /// `--resident`
    Resident,
    /// `--cache`
    Cache,
    /// `--swap-blocks`
    SwapBlocks,
}

/// Returns the option that a word names.
pub(crate) fn option_named(word: &[u8]) -> Option<OptionName>
    ensures { option_map name_meant result ≡ named word.now }
{
    if word == "--workers".as_bytes() {
        Some(OptionName::Workers)
    } else if word == "--resident".as_bytes() {
        Some(OptionName::Resident)
    } else if word == "--cache".as_bytes() {
        Some(OptionName::Cache)
    } else if word == "--swap-blocks".as_bytes() {
        Some(OptionName::SwapBlocks)
    } else {
        None
    }
}

/// Returns the largest value of an option, of which 1 is the smallest.
fn max_value(option: OptionName) -> u32
    ensures { result ≡ max_of (name_meant option) }
{
    match option {
        OptionName::Workers => 16,
        OptionName::Resident => 32_768,
        OptionName::Cache => 65_536,
        OptionName::SwapBlocks => 1 << 20,
    }
}

/// Returns the value that a word of at most seven digits writes, in the range of its option.
pub(crate) fn value_of(option: OptionName, word: &[u8]) -> Option<u32>
    ensures { result ≡ written_value (name_meant option) word.now }
{
    if word.len() > MAX_DIGITS {
        return None;
    }
    natural_in(1, max_value(option), word)
}

//! Words of a run, taken one after another.

ghost use Rattle.std.specs.Prelude.{◌≡◌, ◌<◌, ◌==◌, ◌++◌, [], IfSome, IsTrue, List, ℕ, MatchOption, None, Some, length, position};
ghost use Rattle.std.specs.Option.{option_map};
ghost use Rattle.model_runs.specs.Words.{split_word};
ghost use Rattle.outside_io.specs.FileName.{is_file_name as is_named};
ghost use Rattle.run_words.specs.Meant.{HasFileName, asked, name_meant};
ghost use Rattle.run_words.specs.Parsing.{continued, halves_of, is_option, nothing_parsed, set_to, with_value};

use crate::options::{OptionName, Options, option_named, value_of};
use crate::request::Request;
use outside_io::is_file_name;
use std::marker::Model;

/// What the words so far say: each setting at most once, and the option whose value is next.
#[derive(Drop)]
pub(crate) struct Parsing<'a> {
    script: Option<&'a str>,
    workers: Option<u32>,
    resident: Option<u32>,
    cache: Option<u32>,
    swap_blocks: Option<u32>,
    pending: Option<OptionName>,
}

impl<'a> Model for Parsing<'a> {
    ghost use Rattle.std.specs.Prelude.{IfSome, IsTrue};
    ghost use Rattle.std.specs.Option.{option_copied, option_map};
    ghost use Rattle.outside_io.specs.FileName.{is_file_name};
    ghost use Rattle.run_words.specs.{Meant.name_meant, Parsing.Parsed};

    ghost Value = { Parsed };

    ghost view = { λ p. record {
      script = option_copied p.script;
      workers = p.workers;
      resident = p.resident;
      cache = p.cache;
      swap_blocks = p.swap_blocks;
      pending = option_map name_meant p.pending;
    } };

    ghost invariant = { λ p. IfSome p.script (λ word. IsTrue (is_file_name word.now)) };
}

impl<'a> Parsing<'a> {
    /// Returns what no word says.
    pub(crate) fn new() -> Parsing<'a>
        ensures { result ≡ nothing_parsed }
    {
        Parsing {
            script: None,
            workers: None,
            resident: None,
            cache: None,
            swap_blocks: None,
            pending: None,
        }
    }

    /// Takes the next word. None where no words that begin with these are in the grammar.
    pub(crate) fn take(&mut self, word: &'a str) -> Option<()>
        ensures { (rest : List (List ℕ)) → MatchOption result
            (continued self.old (split_word word.now ++ rest) ≡ None)
            (λ _. continued self.old (split_word word.now ++ rest) ≡ continued self.new rest) }
    {
        if let Some(option) = self.pending {
            self.pending = None;
            return self.set(option, word.as_bytes());
        }
        if let Some((name, value)) = halves(word.as_bytes()) {
            let option = option_named(name)?;
            return self.set(option, value);
        }
        if is_file_name(word.as_bytes()) {
            return self.set_script(word);
        }
        let option = option_named(word.as_bytes())?;
        self.pending = Some(option);
        Some(())
    }

    /// Sets the script, which has the name of a file. None where one is set.
    fn set_script(&mut self, word: &'a str) -> Option<()>
        requires { IsTrue (is_named word.now) }
        ensures set { MatchOption result (set_to self.old.script word.now ≡ None)
            (λ _. set_to self.old.script word.now ≡ Some self.new.script) }
        ensures others { self.new ≡ record self.old { script = self.new.script } }
    {
        if self.script.is_some() {
            return None;
        }
        self.script = Some(word);
        Some(())
    }

    /// Gives an option the value that a word writes. None where it writes none, or the option has one.
    fn set(&mut self, option: OptionName, word: &[u8]) -> Option<()>
        ensures { MatchOption result (with_value self.old (name_meant option) word.now ≡ None)
            (λ _. with_value self.old (name_meant option) word.now ≡ Some self.new) }
    {
        let value = value_of(option, word)?;
        match option {
            OptionName::Workers => set_once(&mut self.workers, value),
            OptionName::Resident => set_once(&mut self.resident, value),
            OptionName::Cache => set_once(&mut self.cache, value),
            OptionName::SwapBlocks => set_once(&mut self.swap_blocks, value),
        }
    }

    /// Returns what all words ask for, None where they are in no grammar.
    pub(crate) fn finish(&self) -> Option<Request<'a>>
        ensures asked { option_map asked result ≡ continued self.now [] }
        ensures name { IfSome result HasFileName }
    {
        if self.pending.is_some() {
            return None;
        }
        let default = Options::without_words();
        let options = Options {
            workers: self.workers.unwrap_or(default.workers),
            resident: self.resident.unwrap_or(default.resident),
            cache: self.cache.unwrap_or(default.cache),
            swap_blocks: self.swap_blocks.unwrap_or(default.swap_blocks),
        };
        let script = self.script?;
        Some(Request::RunScript { script, options })
    }
}

/// Puts a value where none is. None where one is.
fn set_once<T: Drop>(place: &mut Option<T>, value: T) -> Option<()>
    ensures { MatchOption result (set_to place.old value ≡ None) (λ _. set_to place.old value ≡ Some place.new) }
{
    if place.is_some() {
        return None;
    }
    *place = Some(value);
    Some(())
}

/// Returns what a word that begins with `-` has before and after its first `=`, where it has one.
fn halves(word: &[u8]) -> Option<(&[u8], &[u8])>
    ensures { option_map (λ halves. (halves.0.now, halves.1.now)) result ≡ halves_of word.now }
{
    if !is_option(word) {
        return None;
    }
    let index = first_equals(word)?;
    Some((&word[..index], &word[index + 1..]))
}

/// Returns whether a word begins with `-`.
fn is_option(word: &[u8]) -> bool
    ensures { result ≡ is_option word.now }
{
    match word.split_first() {
        Some((first, _)) => *first == b'-',
        None => false,
    }
}

/// Returns the index of the first `=` of a word.
fn first_equals(word: &[u8]) -> Option<usize>
    ensures value { result ≡ position (λ byte. byte == 61) word.now }
    ensures bound { IfSome result (λ index. index < length word.now) }
{
    word.iter().position(|byte| *byte == b'=')
}

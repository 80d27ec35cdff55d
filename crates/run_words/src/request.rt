//! What words ask for.

ghost use Rattle.std.specs.Prelude.{◌≡◌, ◌^◌, IfSome, map, string_bytes};
ghost use Rattle.std.specs.Option.{option_map};
ghost use Rattle.model_runs.specs.Words.{make_request as made_by, request_of as asked_by, run_request as run_by};
ghost use Rattle.run_words.specs.Meant.{HasFileName, asked};

use crate::options::Options;
use crate::parsing::Parsing;
use script_words::natural_in;

/// What the words of the command line ask for.
#[derive(Clone, Copy, Debug, PartialEq, Eq)]
pub enum Request<'a> {
    /// A script of the shelf is run with options.
    RunScript { script: &'a str, options: Options },
    /// The job of a number is made and run.
    MakeJob(u32),
}

/// Returns what words ask for, and None exactly where they are in no grammar: `run` with the name of one
/// script and options in any order, each at most once, its value in the next word or after `=`; or `make`
/// with a number. Takes no memory.
pub fn request_of(words: &[String]) -> Option<Request<'_>>
    ensures request { option_map asked result ≡ asked_by (map string_bytes words.now) }
    ensures name { IfSome result HasFileName }
{
    let (command, words) = words.split_first()?;
    match command.as_str() {
        "run" => run_request(words),
        "make" => make_request(words),
        _ => None,
    }
}

/// Returns the script and the options that words ask for.
fn run_request(words: &[String]) -> Option<Request<'_>>
    ensures request { option_map asked result ≡ run_by (map string_bytes words.now) }
    ensures name { IfSome result HasFileName }
{
    let mut parsing = Parsing::new();
    for word in words {
        parsing.take(word.as_str())?;
    }
    parsing.finish()
}

/// Returns the job that words ask for.
fn make_request(words: &[String]) -> Option<Request<'_>>
    ensures request { option_map asked result ≡ made_by (map string_bytes words.now) }
    ensures name { IfSome result HasFileName }
{
    let [word] = words else {
        return None;
    };
    let number = natural_in(0, u32::MAX, word.as_bytes())?;
    Some(Request::MakeJob(number))
}

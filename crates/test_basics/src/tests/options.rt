//! Words of the command line, with what the definitions say of them.

use crate::tests::check::check;
use run_words::{Options, Request, request_of};
use std::alloc::Global;
use std::process::Abort;

/// Returns the words of a line.
fn words_of(rt: &impl Abort, alloc: Global, line: &[&str]) -> Vec<String> {
    let mut words = Vec::new(alloc);
    for word in line {
        let word = word.to_string(alloc).expect(rt, "memory");
        words.push(word).expect(rt, "memory");
    }
    words
}

/// Checks what a line asks for.
fn check_line(rt: &impl Abort, alloc: Global, line: &[&str], wanted: Option<Request<'_>>) {
    check(rt, line, request_of(&words_of(rt, alloc, line)), wanted);
}

#[test]
fn options_stand_in_any_order_and_in_both_spellings(rt: HostRuntime) {
    let line = ["run", "--cache", "5", "s.txt", "--swap-blocks=0000007"];
    let options = Options {
        cache: 5,
        swap_blocks: 7,
        ..Options::without_words()
    };
    let script = "s.txt";
    let request = Some(Request::RunScript { script, options });
    check_line(&rt, rt.alloc(), &line, request);
    let job = Some(Request::MakeJob(4_294_967_295));
    check_line(&rt, rt.alloc(), &["make", "4294967295"], job);
}

/// Lines that ask for nothing.
const NOTHING: [&[&str]; 3] = [
    &["run", "s", "--cache", "5", "--cache=5"],
    &["run", "s", "--resident", "32769"],
    &["run", "s", "--cache"],
];

#[test]
fn other_words_ask_for_nothing(rt: HostRuntime) {
    for line in &NOTHING {
        check_line(&rt, rt.alloc(), line, None);
    }
}

//! The words of the command line.

use crate::examples::refusals::REPORT;
use crate::runs::{SOUND, check_row, check_text, run_over, run_words, shelf_of};

/// Words of a run of a script that is there.
const RUNS: [&str; 23] = [
    "run script.txt",
    "run script.txt --workers 4 --resident 4096 --cache 16384 --swap-blocks 1048576",
    "run --swap-blocks=1048576 --cache=16384 --resident=4096 --workers=4 script.txt",
    "run --cache 1 script.txt --swap-blocks=1 --workers 4 --resident=1",
    "run --resident 1 script.txt",
    "run --resident=1 script.txt",
    "run script.txt --resident 32768",
    "run script.txt --resident=0032768",
    "run script.txt --resident 0000001",
    "run script.txt --swap-blocks 1",
    "run script.txt --swap-blocks=1",
    "run script.txt --swap-blocks 1048576",
    "run script.txt --swap-blocks=0000001",
    "run script.txt --cache 1",
    "run script.txt --cache=1",
    "run script.txt --cache 65536",
    "run script.txt --cache=0065536",
    "run script.txt --workers 0000004",
    "run script.txt --workers 1",
    "run script.txt --workers=1",
    "run script.txt --workers 16",
    "run --workers=0000016 script.txt",
    "run --workers=04 script.txt",
];

/// Words that are in no grammar.
const OTHER_WORDS: [&str; 56] = [
    "run",
    "help",
    "--help",
    "run --help",
    "script.txt",
    "script.txt run",
    "RUN script.txt",
    "run -- script.txt",
    "run script.txt --",
    "run script.txt script.txt",
    "run ../script.txt",
    "run .script",
    "run -script",
    "run script/txt",
    "run --resident 1",
    "run --resident=1",
    "run script.txt 1",
    "run script.txt --resident",
    "run script.txt --resident=",
    "run script.txt --resident= 1",
    "run script.txt --resident 0",
    "run script.txt --resident=0",
    "run script.txt --resident 32769",
    "run script.txt --resident=32769",
    "run script.txt --resident 00000001",
    "run script.txt --resident=00032768",
    "run script.txt --resident -1",
    "run script.txt --resident +1",
    "run script.txt --resident 1k",
    "run script.txt --resident 1 --resident 1",
    "run script.txt --resident=1 --resident 1",
    "run script.txt --swap-blocks",
    "run script.txt --swap-blocks 0",
    "run script.txt --swap-blocks 1048577",
    "run script.txt --swap-blocks=1048577",
    "run script.txt --swap-blocks 01048576",
    "run script.txt --swap-blocks 1 --swap-blocks=2",
    "run script.txt --cache",
    "run script.txt --cache 0",
    "run script.txt --cache 65537",
    "run script.txt --cache=65537",
    "run script.txt --cache 00016384",
    "run script.txt --cache 1 --cache 1",
    "run script.txt --res 1",
    "run script.txt -r 1",
    "run script.txt --workers 0",
    "run script.txt --workers 17",
    "run script.txt --workers 00000004",
    "run script.txt --workers=4 --workers=4",
    "make",
    "make x",
    "make -1",
    "make 0 0",
    "make 4294967296",
    "make 00000000000",
    "make 1 --cache 1",
];

/// The script of these runs.
const SCRIPT: &[u8] = b"buffer a Y8 0 0 1 1\n";

#[test]
fn options_stand_in_any_order_and_have_ends(rt: HostRuntime) {
    let alloc = rt.alloc();
    for line in &RUNS {
        check_text(&rt, alloc, line, line, SCRIPT, 0, REPORT);
    }
    let mut shelf = shelf_of(&rt, alloc, &[("16", b"".as_slice())], SOUND);
    let ended = run_over(&rt, alloc, "run --resident 16 16", &mut shelf, SOUND);
    check_row(&rt, "a number is a name too", &ended.status, &0);
}

#[test]
fn other_words_have_status_1(rt: HostRuntime) {
    let alloc = rt.alloc();
    for line in &OTHER_WORDS {
        check_text(&rt, alloc, line, line, SCRIPT, 1, "");
    }
    let mut shelf = shelf_of(&rt, alloc, &[("script.txt", b"".as_slice())], SOUND);
    let ended = run_over(&rt, alloc, "", &mut shelf, SOUND);
    check_row(&rt, "no word", &ended.status, &1);
    let run = "run".to_string(alloc).expect(&rt, "memory");
    let words = vec![in alloc; run, String::new(alloc)].expect(&rt, "memory");
    let ended = run_words(&rt, alloc, &words, &mut shelf, SOUND);
    check_row(&rt, "a word without a byte", &ended.status, &1);
}

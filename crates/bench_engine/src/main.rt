//! Times of the engine's parts, beside plain copies and plain kernels in the same run.
//!
//! The words on its command line are what is timed, a number of rounds, and a size: of `rows` how many times 64 rows of
//! 4,096 bytes a round makes, of `swap` the names, of `script` the lines, of `hub` the calls, and else the columns of
//! tiles of an image, of which most have half as many rows. Without words it times everything in few rounds and sizes.
//! It prints numbers that depend on what was read and written, which are the same at each run of as many rounds; the
//! shortest and the mean time of the rounds go to standard error.
#![tactic(auto)]

mod areas;
mod bench;
mod bytes;
mod hub;
mod jobs;
mod lines;
mod operations;
mod patches;
mod plain;
mod plans;
mod rows;
mod scripts;
mod sessions;
mod store;
mod tables;
mod tiles;

use bench::{Bench, Host};
use outside_io::{FileSwap, SwapDisk};
use std::process::ExitCode;
use std::rt::Env;

/// What can be timed, and the rounds and the size of each where the command line says nothing.
const WORDS: [(&str, u32, u32); 15] = [
    ("rows", 1, 1),
    ("points", 1, 1),
    ("areas", 1, 1),
    ("patches", 1, 1),
    ("tiles", 1, 1),
    ("swap", 1, 100),
    ("script", 1, 100),
    ("names", 1, 8),
    ("levels", 1, 16),
    ("plans", 1, 16),
    ("buffers", 2, 4),
    ("bands", 2, 4),
    ("graphs", 3, 1),
    ("renders", 2, 4),
    ("hub", 1, 100),
];

/// How many blocks the files may have.
const BLOCKS: u32 = 1 << 20;

fn main(rt: HostRuntime) -> ExitCode {
    let mut file = FileSwap::new(&rt, BLOCKS);
    let mut other = FileSwap::new(&rt, BLOCKS);
    match time_asked(&rt, &mut file, &mut other) {
        Some(()) => ExitCode::SUCCESS,
        None => ExitCode::FAILURE,
    }
}

/// Times what the command line asks for. None where that is refused.
fn time_asked<R: Host + Env, D: SwapDisk>(rt: &R, file: &mut D, other: &mut D) -> Option<()> {
    let mut words = std::env::args(rt).ok()?.skip(1);
    let asked = words.next();
    let numbers = [words.next(), words.next()];
    let [rounds, size] = numbers.map(|word| word.and_then(|word| word.parse::<u32>().ok()));
    for (word, few_rounds, small) in &WORDS {
        let is_asked = match &asked {
            Some(name) => name.as_str() == *word,
            None => true,
        };
        if is_asked {
            let bench = Bench {
                rt,
                rounds: rounds.unwrap_or(*few_rounds),
                size: size.unwrap_or(*small),
            };
            time_group(&bench, word, file, other)?;
        }
    }
    Some(())
}

/// Times what a word names, on disks that it may use.
fn time_group<R: Host, D: SwapDisk>(
    bench: &Bench<'_, R>,
    word: &str,
    file: &mut D,
    other: &mut D,
) -> Option<()> {
    match word {
        "rows" => rows::time_all(bench),
        "points" => operations::time_points(bench),
        "areas" => operations::time_areas(bench),
        "patches" => patches::time_all(bench),
        "tiles" => tiles::time_all(bench),
        "swap" => store::time_all(bench, file),
        "script" => scripts::time_all(bench),
        "names" => tables::time_all_names(bench, file),
        "levels" => tables::time_levels(bench),
        "plans" => plans::time_all(bench),
        "buffers" => jobs::time_buffers(bench),
        "bands" => jobs::time_bands(bench, file, other),
        "graphs" => jobs::time_graphs(bench),
        "renders" => jobs::time_renders(bench),
        "hub" => hub::time_all(bench),
        _ => None,
    }
}

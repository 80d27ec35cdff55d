//! Scripts that are read and printed.

use crate::bench::{Bench, Host, Times, Work};
use script_read::{print_script, read_script};
use std::alloc::Global;

/// Lines of about 106 bytes, which come in turn.
const LINES: [&[u8]; 4] = [
    b"fill aaaaaaaaaaaaaaaa -16777216 -16777216 32768 1024 65535 65535 65535 65535                            \n",
    b"node n checker RGBA8 -32 -32 576 448 32 0 64                                                             \n",
    b"node b box 3 CLAMP d                                                                                     \n",
    b"render n 0 -16777216 -16777216 32768 1024 abcdefghijklmnopqrstuvwxyzabcdefghijklmnopqrstuv               \n",
];

/// The text of a script, which is read, or read and printed.
#[derive(Drop)]
struct ScriptWork {
    alloc: Global,
    text: Vec<u8>,
    is_printed: bool,
}

impl Work for ScriptWork {
    fn call(&mut self) -> Option<u64> {
        let lines = read_script(self.alloc, &self.text).ok()?;
        if !self.is_printed {
            return Some(lines.len() as u64);
        }
        Some(print_script(self.alloc, &lines).ok()?.len() as u64)
    }
}

/// Times a script of so many lines.
pub fn time_all<R: Host>(bench: &Bench<'_, R>) -> Option<()> {
    let alloc = bench.rt.alloc();
    let mut text = Vec::new(alloc);
    for line in LINES.iter().cycle().take(bench.size as usize) {
        text.extend_from_slice(line).ok()?;
    }
    let times = Times {
        rounds: bench.rounds,
        calls: 1,
        units: u64::from(bench.size),
        bytes: 106,
    };
    let mut work = ScriptWork {
        alloc,
        text,
        is_printed: false,
    };
    bench.time("script: line read", times, &mut work)?;
    work.is_printed = true;
    bench.time("script: line read and printed", times, &mut work)
}

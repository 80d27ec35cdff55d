//! Standard output as a sink.

ghost use Rattle.std.specs.Prelude.{◌≡◌, ◌≤◌, None};
ghost use Rattle.outside_io.specs.{Faults.faults_after, Sink.has_failed};

use crate::sink::{Sink, SinkAnswer};
use std::io;
use std::io::{ErrorKind, Write};
use std::marker::Model;

/// Standard output. It doesn't expose what went out: a clause sees how many puts failed.
#[derive(Drop)]
pub struct StdSink<R: Print + Drop> {
    rt: R,
    faults: u64,
}

impl<R: Print + Drop> Model for StdSink<R> {
    ghost use Rattle.std.specs.Prelude.{ℕ};

    ghost Value = { ℕ };

    ghost view = { λ sink. sink.faults };
}

impl<R: Print + Drop> StdSink<R> {
    /// Returns the standard output of this runtime, of which no piece has failed yet.
    pub fn new(rt: R) -> StdSink<R>
        ensures { result ≡ 0 }
    {
        StdSink { rt, faults: 0 }
    }

    fn send(&self, bytes: &[u8]) -> io::Result<()> {
        let mut output = io::writer(&self.rt);
        output.write_all(bytes)?;
        output.flush()
    }
}

impl<R: Print + Drop> Sink for StdSink<R> {
    ghost written = { λ _. None };

    ghost faults = { λ count. count };

    fn put(&mut self, bytes: &[u8]) -> Result<(), SinkAnswer>
        ensures later { self.old ≤ self.new }

        // A piece that failed is counted, and no other.
        ensures counted { self.new ≡ faults_after (has_failed result) self.old }
    {
        match self.send(bytes) {
            Ok(()) => Ok(()),
            Err(error) if error.kind() == ErrorKind::OutOfMemory => Err(SinkAnswer::NoMemory),
            Err(_) => {
                self.faults = self.faults.saturating_add(1);
                Err(SinkAnswer::Failed)
            }
        }
    }
}

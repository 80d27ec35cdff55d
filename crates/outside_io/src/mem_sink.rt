//! A sink in memory.

ghost use Rattle.std.specs.Prelude.{◌≡◌, ◌≤◌, ◌++◌, [], false, Some, IsTrue, OnOk, IsErrOf};
ghost use Rattle.outside_io.specs.Calls.{no_calls, next_fails, after_call};
ghost use Rattle.outside_io.specs.MemSink.{SinkState, sent};

use crate::failing_calls::{FailingCalls, kept};
use crate::sink::{Sink, SinkAnswer};
use std::alloc::Global;
use std::marker::Model;

/// Keeps all that it is sent. Fails at chosen calls, where it keeps the first half of the piece,
/// rounded down. A clause sees what is written, and which puts fail and how many did.
#[derive(Drop)]
pub struct MemSink {
    written: Vec<u8>,
    puts: FailingCalls,
}

impl Model for MemSink {
    ghost Value = { SinkState };

    ghost view = { λ sink. record { written = sink.written.items; puts = sink.puts } };
}

impl MemSink {
    /// Returns an empty sink whose calls of these numbers, counted from 1, fail.
    pub fn new(alloc: Global, fail_puts: Vec<u64>) -> MemSink
        ensures { result ≡ record { written = []; puts = no_calls fail_puts.items } }
    {
        MemSink {
            written: Vec::new(alloc),
            puts: FailingCalls::new(fail_puts),
        }
    }

    /// Returns all bytes that went out.
    pub fn bytes(&self) -> &[u8]
        ensures { result.now ≡ self.now.written }
    {
        &self.written
    }
}

impl Sink for MemSink {
    ghost written = { λ sink. Some sink.written };

    ghost faults = { λ sink. sink.puts.faults };

    fn put(&mut self, bytes: &[u8]) -> Result<(), SinkAnswer>
        ensures later { self.old.puts.faults ≤ self.new.puts.faults }

        // It fails at the chosen calls and at no others.
        ensures chosen { IsErrOf result SinkAnswer.Failed → IsTrue (next_fails self.old.puts) }
        ensures others { OnOk result (next_fails self.old.puts ≡ false) }
        ensures sent { self.new.written ≡ self.old.written ++ sent result bytes.now }
        ensures counted { self.new.puts ≡ after_call self.old.puts }
    {
        let fails = self.puts.fails();
        self.written.extend_from_slice(kept(fails, bytes))?;
        if fails {
            Err(SinkAnswer::Failed)
        } else {
            Ok(())
        }
    }
}

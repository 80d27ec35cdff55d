//! A sink in memory that never fails.

ghost use Rattle.std.specs.Prelude.{◌≡◌, ◌++◌, [], Some, is_ok, if◌then◌else◌, IsOkUnless};

use crate::sink::{Sink, SinkAnswer};
use std::alloc::Global;
use std::marker::Model;

/// Keeps all that it is sent, and never fails. A clause sees the list of its bytes.
#[derive(Drop)]
pub struct SureSink {
    written: Vec<u8>,
}

impl Model for SureSink {
    ghost use Rattle.std.specs.Prelude.{ℕ, List};

    ghost Value = { List ℕ };

    ghost view = { λ sink. sink.written.items };
}

impl SureSink {
    /// Returns an empty sink.
    pub fn new(alloc: Global) -> SureSink
        ensures { result ≡ [] }
    {
        SureSink {
            written: Vec::new(alloc),
        }
    }

    /// Returns all bytes that went out.
    pub fn bytes(&self) -> &[u8]
        ensures { result.now ≡ self.now }
    {
        &self.written
    }
}

impl Sink for SureSink {
    ghost written = { λ written. Some written };

    ghost faults = { λ _. 0 };

    fn put(&mut self, bytes: &[u8]) -> Result<(), SinkAnswer>
        ensures sure { IsOkUnless result SinkAnswer.NoMemory }
        ensures written { self.new ≡ self.old ++ (if is_ok result then bytes.now else []) }
    {
        self.written.extend_from_slice(bytes)?;
        Ok(())
    }
}

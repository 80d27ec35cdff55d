//! Calls that fail by their numbers, for the kinds in memory.

ghost use Rattle.std.specs.Prelude.{◌≡◌, ◌≤◌};
ghost use Rattle.outside_io.specs.Calls.{Calls, no_calls, next_fails, after_call, kept};

use std::marker::Model;

/// Counts the calls of one kind, and knows which of them fail.
#[derive(Drop)]
pub(crate) struct FailingCalls {
    failing: Vec<u64>,
    made: u64,
    faults: u64,
}

impl Model for FailingCalls {
    ghost Value = { Calls };

    ghost view = { λ calls. record { failing = calls.failing.items; made = calls.made; faults = calls.faults } };
}

impl FailingCalls {
    /// Returns calls of which those of these numbers fail, counted from 1.
    pub fn new(failing: Vec<u64>) -> FailingCalls
        ensures { result ≡ no_calls failing.items }
    {
        FailingCalls {
            failing,
            made: 0,
            faults: 0,
        }
    }

    /// Returns whether the next call fails.
    fn next_fails(&self) -> bool
        ensures { result ≡ next_fails self.now }
    {
        // A call past the last number of its type has none, so it doesn't fail.
        self.failing
            .iter()
            .any(|number| self.made < *number && *number - self.made == 1)
    }

    /// Counts one more call. Returns whether it fails.
    pub fn fails(&mut self) -> bool
        ensures answer { result ≡ next_fails self.old }
        ensures after { self.new ≡ after_call self.old }
        ensures later { self.old.faults ≤ self.new.faults }
    {
        let fails = self.next_fails();
        self.made = self.made.saturating_add(1);
        if fails {
            self.faults = self.faults.saturating_add(1);
        }
        fails
    }
}

/// Returns what a call keeps of the bytes that it is handed.
pub(crate) fn kept(fails: bool, bytes: &[u8]) -> &[u8]
    ensures { result.now ≡ kept fails bytes.now }
{
    if fails {
        &bytes[..bytes.len() / 2]
    } else {
        bytes
    }
}

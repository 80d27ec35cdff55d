//! Numbers that are drawn one after another.

ghost use Rattle.std.specs.Prelude.{◌≡◌, ◌/◌, ◌^◌, IfOk};
ghost use Rattle.model_runs.specs.MadeJob.{draws, next_state};

use alloc_basics::NoMemory;
use std::alloc::Global;

/// Draws bytes, each by its last state alone.
#[derive(Drop)]
pub(crate) struct Generator {
    state: u32,
}

impl Generator {
    /// Returns the generator that begins with a number.
    pub(crate) fn new(number: u32) -> Generator
        ensures { result.state ≡ number }
    {
        Generator { state: number }
    }

    /// Draws a byte: the highest one of the next state.
    pub(crate) fn draw(&mut self) -> u8
        ensures drawn { result ≡ next_state self.old.state / 2 ^ 24 }
        ensures state { self.new.state ≡ next_state self.old.state }
    {
        let next = 1_664_525 * u64::from(self.state) + 1_013_904_223;
        self.state = (next % (1 << 32)) as u32;
        (self.state >> 24) as u8
    }

    /// Draws so many bytes. Takes time in proportion to them.
    pub(crate) fn draw_bytes(&mut self, alloc: Global, count: usize) -> Result<Vec<u8>, NoMemory>
        ensures { IfOk result (λ bytes. bytes.items ≡ draws count self.old.state) }
    {
        let mut bytes = Vec::with_capacity(alloc, count)?;
        for _draw in 0..count {
            bytes.push(self.draw())?;
        }
        Ok(bytes)
    }
}

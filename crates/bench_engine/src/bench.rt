//! Work that is timed, and how its times are printed.

use std::alloc::Global;
use std::io;
use std::rt::Clock;
use std::sync::Wait;
use std::thread::Threads;
use std::time::Instant;

/// What benchmarks ask of the system.
pub trait Host: Clock + Print + Eprint + Threads + Wait + Sync + Alloc<A = Global> {}

impl<R: Clock + Print + Eprint + Threads + Wait + Sync + Alloc<A = Global>> Host for R {}

/// Work whose calls are timed.
pub trait Work {
    /// What must hold before each call, and holds after it.
    ghost is_ready: { Self → Type 0 } = { λ _. Unit {0} };

    /// Does the work once, and returns a number that depends on what it read or wrote. None where it is refused.
    fn call(&mut self) -> Option<u64>
        requires { is_ready self.old }
        ensures { is_ready self.new };
}

/// How often work is done: rounds, of which the shortest counts, the calls of each, and how many units each call has,
/// of so many bytes.
#[derive(Clone, Copy)]
pub struct Times {
    pub rounds: u32,
    pub calls: u32,
    pub units: u64,
    pub bytes: u64,
}

/// Where times are taken and printed.
#[derive(Clone, Copy)]
pub struct Bench<'a, R> {
    pub rt: &'a R,
    /// How often work is done, at least, by the command line.
    pub rounds: u32,
    /// How large the images are, by the command line.
    pub size: u32,
}

/// What rounds found in all, and how long the shortest and all of them took, in nanoseconds.
#[derive(Clone, Copy)]
pub struct Rounds {
    found: u64,
    least: u128,
    sum: u128,
    count: u32,
}

impl Rounds {
    /// Returns no round.
    pub fn none() -> Rounds {
        Rounds {
            found: 0,
            least: u128::MAX,
            sum: 0,
            count: 0,
        }
    }

    /// Adds a round that took so long, and what it found.
    pub fn add(&mut self, nanoseconds: u128, found: u64) {
        self.found = self.found.wrapping_add(found);
        self.least = self.least.min(nanoseconds);
        self.sum = self.sum.saturating_add(nanoseconds);
        self.count = self.count.saturating_add(1);
    }
}

impl<R: Host> Bench<'_, R> {
    /// Times work. Prints the sum of what its calls found and, to standard error, how long a unit took in the
    /// shortest round and in the mean of all, in nanoseconds. None where work is refused, or can't be printed.
    pub fn time<W: Work>(&self, label: &str, times: Times, work: &mut W) -> Option<()>
        requires { W.is_ready work.old }
        ensures { W.is_ready work.new }
    {
        let mut rounds = Rounds::none();
        for _round in 0..times.rounds {
            let start = Instant::now(self.rt).ok()?;
            let found = call_often(work, times.calls)?;
            rounds.add(start.elapsed(self.rt).ok()?.as_nanos(), found);
        }
        self.print(label, times, rounds).ok()
    }

    /// Prints what rounds found, and the shortest and the mean time of a unit.
    ///
    /// # Errors
    ///
    /// An I/O error of standard output or standard error.
    pub fn print(&self, label: &str, times: Times, rounds: Rounds) -> io::Result<()> {
        let found = rounds.found;
        let units = u128::from(times.calls.max(1)) * u128::from(times.units.max(1));
        let [least, mean] = [rounds.least, rounds.sum / u128::from(rounds.count.max(1))].map(
            |time| time.min(1 << 64) * 100 / units,
        );
        let speed = u128::from(times.bytes) * 1_000 / least.max(1);
        println!(self.rt; "{label}: {found}")?;
        eprintln!(self.rt;
            "{label}: {}.{:02} ns, mean {}.{:02}, {}.{} bytes a ns",
            least / 100,
            least % 100,
            mean / 100,
            mean % 100,
            speed / 10,
            speed % 10
        )
    }
}

/// Does work so often.
fn call_often<W: Work>(work: &mut W, calls: u32) -> Option<u64>
    requires { W.is_ready work.old }
    ensures { W.is_ready work.new }
{
    let mut found = 0u64;
    for _call in 0..calls {
        found = found.wrapping_add(work.call()?);
    }
    Some(found)
}

//! Entering a hub while nothing is published, and publishing on a hub of sixteen viewers that have left.

use crate::bench::{Bench, Host, Rounds, Times};
use scene_hub::{Editor, Hub, Viewer};
use std::sync::Wait;
use std::time::Instant;
use test_hub::{Page, publish_next};

/// Times the hub, by as many calls a round as the size says. None where it can't be made, or a call is refused.
pub fn time_all<R: Host>(bench: &Bench<'_, R>) -> Option<()> {
    let page = Page { number: 1 };
    let (mut editor, mut viewers) = Hub::start(bench.rt.alloc(), bench.rt, 16, page).ok()?;
    let entered = time_entering(bench, &mut viewers);
    let published = time_publishing(bench, &mut editor);
    editor.end(bench.rt);
    entered.and(published)
}

/// Times entering by the first viewer.
fn time_entering<R: Host>(bench: &Bench<'_, R>, viewers: &mut [Viewer<Page>]) -> Option<()> {
    let mut rounds = Rounds::none();
    for _round in 0..bench.rounds {
        let start = Instant::now(bench.rt).ok()?;
        let found = enter_often(viewers, bench.size)?;
        rounds.add(start.elapsed(bench.rt).ok()?.as_nanos(), found);
    }
    bench.print("hub: enter", calls_of(bench), rounds).ok()
}

/// Times publishing.
fn time_publishing<R: Host>(bench: &Bench<'_, R>, editor: &mut Editor<Page>) -> Option<()> {
    let mut rounds = Rounds::none();
    for _round in 0..bench.rounds {
        let start = Instant::now(bench.rt).ok()?;
        let found = publish_often(bench.rt, editor, bench.size)?;
        rounds.add(start.elapsed(bench.rt).ok()?.as_nanos(), found);
    }
    bench.print("hub: publish", calls_of(bench), rounds).ok()
}

/// Returns how often a hub is called, a unit a call.
fn calls_of<R>(bench: &Bench<'_, R>) -> Times {
    Times {
        rounds: bench.rounds,
        calls: bench.size,
        units: 1,
        bytes: 0,
    }
}

/// Enters so often by the first viewer. Returns the sum of the numbers that it saw.
fn enter_often(viewers: &mut [Viewer<Page>], calls: u32) -> Option<u64> {
    let viewer = viewers.first_mut()?;
    let mut sum = 0u64;
    for _call in 0..calls {
        viewer.enter().ok()?;
        sum = sum.wrapping_add(viewer.number());
    }
    Some(sum)
}

/// Publishes so often. Returns the sum of the numbers of the receipts.
fn publish_often<R: Wait>(rt: &R, editor: &mut Editor<Page>, calls: u32) -> Option<u64> {
    let mut sum = 0u64;
    for _call in 0..calls {
        sum = sum.wrapping_add(publish_next(rt, editor)?);
    }
    Some(sum)
}

//! A gate at which viewers and an editor wait for one another.

use crate::gate::Gate;
use alloc_basics::NoMemory;
use std::alloc::Global;
use std::sync::atomic::{AtomicBool, AtomicU64, Ordering};
use std::thread;

/// The reports of one frame: which viewers made one, and how many did.
#[derive(Drop)]
struct FrameReports {
    viewers: Vec<AtomicBool>,
    count: AtomicU64,
}

impl FrameReports {
    /// Returns the reports of a frame that none of so many viewers has reported.
    fn new(alloc: Global, viewers: u32) -> Result<FrameReports, NoMemory> {
        let mut flags = Vec::new(alloc);
        for _ in 0..viewers {
            flags.push(AtomicBool::new(false))?;
        }
        Ok(FrameReports {
            viewers: flags,
            count: AtomicU64::new(0),
        })
    }

    /// Marks the frame as reported by a viewer, once however often it is called. Returns whether there
    /// is such a viewer.
    fn report(&self, viewer: u32) -> bool {
        let Some(flag) = self.viewers.get(viewer as usize) else {
            return false;
        };
        if !flag.swap(true, Ordering::SeqCst) {
            self.count.fetch_add(1, Ordering::SeqCst);
        }
        true
    }

    /// Returns whether each viewer has reported the frame.
    fn is_complete(&self) -> bool {
        self.count.load(Ordering::SeqCst) == self.viewers.len() as u64
    }
}

/// Lets viewers and an editor meet, so that a test sees that they run side by side. It has `viewers`
/// viewers and `frames` frames of each. A call reports itself first, and then waits: `looked` of frame
/// 0 for the first frame of every viewer, `looked` of frame i for i publications, and the k-th
/// `published` for frame k - 1 of every viewer. A call with another viewer or frame returns at once.
#[derive(Drop)]
pub struct MeetGate {
    frames: Vec<FrameReports>,
    publications: AtomicU64,
    turns: u64,
    ran_out: AtomicU64,
    calls: AtomicU64,
}

impl MeetGate {
    /// Returns a gate for so many viewers and frames of each, whose waits end after `turns` looks at
    /// the latest.
    pub fn new(alloc: Global, viewers: u32, frames: u32, turns: u64) -> Result<MeetGate, NoMemory> {
        let mut reports = Vec::new(alloc);
        for _ in 0..frames {
            reports.push(FrameReports::new(alloc, viewers)?)?;
        }
        Ok(MeetGate {
            frames: reports,
            publications: AtomicU64::new(0),
            turns,
            ran_out: AtomicU64::new(0),
            calls: AtomicU64::new(0),
        })
    }

    /// Returns how many waits ended because their turns ran out.
    pub fn ran_out(&self) -> u64 {
        self.ran_out.load(Ordering::SeqCst)
    }

    /// Returns how many calls of `looked` and `published` were made so far.
    pub fn calls(&self) -> u64 {
        self.calls.load(Ordering::SeqCst)
    }

    /// Waits until every viewer has reported this frame, or the turns run out.
    fn wait_for_viewers(&self, frame: &FrameReports) {
        for _ in 0..self.turns {
            if frame.is_complete() {
                return;
            }
            thread::yield_now();
        }
        self.ran_out.fetch_add(1, Ordering::SeqCst);
    }

    /// Waits until so many publications were reported, or the turns run out.
    fn wait_for_publications(&self, count: u64) {
        for _ in 0..self.turns {
            if self.publications.load(Ordering::SeqCst) >= count {
                return;
            }
            thread::yield_now();
        }
        self.ran_out.fetch_add(1, Ordering::SeqCst);
    }
}

impl Gate for MeetGate {
    fn looked(&self, viewer: u32, frame: u32) {
        self.calls.fetch_add(1, Ordering::SeqCst);
        let Some(reports) = self.frames.get(frame as usize) else {
            return;
        };
        if !reports.report(viewer) {
            return;
        }
        if frame == 0 {
            self.wait_for_viewers(reports);
        } else {
            self.wait_for_publications(u64::from(frame));
        }
    }

    fn published(&self, _number: u64) {
        self.calls.fetch_add(1, Ordering::SeqCst);
        let before = self.publications.fetch_add(1, Ordering::SeqCst);
        if let Some(frame) = self.frames.get(before as usize) {
            self.wait_for_viewers(frame);
        }
    }
}

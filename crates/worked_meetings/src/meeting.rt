use anyhow::Result;
use std::alloc::Global;
use std::sync::OnceLock;
use std::sync::atomic::{AtomicU64, Ordering};
use std::thread::sleep;
use std::time::Duration;

/// The points that a row's text may name are below this number.
pub const POINTS: usize = 64;

/// How many turns of a millisecond are waited for another thread, before the row is given up.
const TURNS: u32 = 30_000;

/// What the threads of a row share.
#[derive(Drop)]
pub struct Meeting {
    /// How often each point was come to, and after these how many frames each worker has carried.
    counts: Vec<AtomicU64>,
    /// What each session was written, and after these what each worker carried in its last two frames, once they are over.
    left: Vec<OnceLock<Vec<u8>>>,
    sessions: usize,
    /// How many bytes were carried from elsewhere than from their connection's input.
    astray: AtomicU64,
    /// How often a thread was waited for in vain.
    given_up: AtomicU64,
}

impl Meeting {
    /// Nobody has come to any point.
    pub fn new(alloc: Global, sessions: usize, workers: usize) -> Result<Meeting> {
        let mut counts = Vec::new(alloc);
        for _ in 0..POINTS.saturating_add(workers) {
            counts.push(AtomicU64::new(0))?;
        }
        let mut left = Vec::new(alloc);
        for _ in 0..sessions.saturating_add(workers) {
            left.push(OnceLock::new())?;
        }
        Ok(Meeting {
            counts,
            left,
            sessions,
            astray: AtomicU64::new(0),
            given_up: AtomicU64::new(0),
        })
    }

    /// How often the point was come to.
    pub fn count(&self, point: usize) -> u64 {
        match self.counts.get(point) {
            Some(count) => count.load(Ordering::SeqCst),
            None => 0,
        }
    }

    /// The point was come to.
    pub fn reach(&self, point: usize) {
        if let Some(count) = self.counts.get(point) {
            count.fetch_add(1, Ordering::SeqCst);
        }
    }

    /// Waits until each worker has carried a frame that began after this call; false where it was waited for in vain.
    pub fn wait_for_frames(&self, rt: &HostRuntime) -> bool {
        for worker in POINTS..self.counts.len() {
            // The frame in hand may have begun before.
            let enough = self.count(worker).saturating_add(1);
            if !self.wait_past(rt, worker, enough) {
                return false;
            }
        }
        true
    }

    /// Waits until the point was come to more often; false where it was waited for in vain.
    pub fn wait_past(&self, rt: &HostRuntime, point: usize, bound: u64) -> bool {
        for _ in 0..TURNS {
            if bound < self.count(point) {
                return true;
            }
            if self.is_given_up() {
                return false;
            }
            sleep(rt, Duration::from_millis(1));
        }
        self.given_up.fetch_add(1, Ordering::SeqCst);
        false
    }

    /// The worker has carried one more frame, and so many bytes of it came from elsewhere than they must.
    pub fn note_frame(&self, worker: usize, astray: u64) {
        self.astray.fetch_add(astray, Ordering::SeqCst);
        self.reach(POINTS.saturating_add(worker));
    }

    /// The session of that number is over, or the worker after the sessions, and leaves this.
    pub fn note_left(&self, number: usize, bytes: Vec<u8>) {
        if let Some(slot) = self.left.get(number) {
            let _ = slot.try_set(bytes);
        }
    }

    /// What the session left, or the worker behind the sessions; None where it isn't over.
    pub fn left(&self, number: usize) -> Option<&[u8]> {
        let bytes = self.left.get(number)?.get()?;
        Some(bytes.as_slice())
    }

    /// Whether all sessions are over.
    pub fn is_over(&self) -> bool {
        for session in 0..self.sessions {
            if self.left(session).is_none() {
                return false;
            }
        }
        true
    }

    /// How many bytes were carried from elsewhere than from their connection's input.
    pub fn astray(&self) -> u64 {
        self.astray.load(Ordering::SeqCst)
    }

    pub fn is_given_up(&self) -> bool {
        self.given_up.load(Ordering::SeqCst) != 0
    }
}

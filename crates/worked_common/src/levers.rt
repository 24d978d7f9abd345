use dxc_causes::NoMemory;
use std::alloc::Global;
use std::sync::atomic::{AtomicU64, Ordering};
use std::sync::{Arc, OnceLock};

/// No call of this number comes.
const NEVER: u64 = u64::MAX;

/// What a row moves on a disk that others hold: which call fails, and whether other bytes are shown.
#[derive(Drop)]
pub struct Levers {
    calls: AtomicU64,
    failing: AtomicU64,
    writes: AtomicU64,
    first: AtomicU64,
    last: AtomicU64,
    shows: AtomicU64,
    /// What the disk held when it was dropped.
    left: OnceLock<Vec<u8>>,
}

impl Levers {
    pub fn new(alloc: Global) -> Result<Arc<Levers>, NoMemory> {
        let levers = Levers {
            calls: AtomicU64::new(0),
            failing: AtomicU64::new(NEVER),
            writes: AtomicU64::new(0),
            first: AtomicU64::new(NEVER),
            last: AtomicU64::new(0),
            shows: AtomicU64::new(0),
            left: OnceLock::new(),
        };
        Ok(Arc::new(alloc, levers)?)
    }

    /// From now on calls are counted from 0, and the one of that number fails.
    pub fn set(&self, failing: Option<u64>, shows: bool) {
        self.calls.store(0, Ordering::SeqCst);
        self.failing
            .store(failing.unwrap_or(NEVER), Ordering::SeqCst);
        self.shows.store(shows as u64, Ordering::SeqCst);
    }

    /// Writes and syncs of these numbers fail.
    pub fn fail_writes(&self, first: u64, last: u64) {
        self.first.store(first, Ordering::SeqCst);
        self.last.store(last, Ordering::SeqCst);
    }

    /// How many writes and syncs there were.
    pub fn writes(&self) -> u64 {
        self.writes.load(Ordering::SeqCst)
    }

    /// How many calls there were.
    pub fn calls(&self) -> u64 {
        self.calls.load(Ordering::SeqCst)
    }

    /// Counts a call; whether it is the one that fails.
    pub fn fails(&self) -> bool {
        let call = self.calls.fetch_add(1, Ordering::SeqCst);
        call == self.failing.load(Ordering::SeqCst)
    }

    /// Counts a write or a sync; whether it is one of those that fail.
    pub fn write_fails(&self) -> bool {
        let fails = self.fails();
        let write = self.writes.fetch_add(1, Ordering::SeqCst);
        let (first, last) = (
            self.first.load(Ordering::SeqCst),
            self.last.load(Ordering::SeqCst),
        );
        fails || (first <= write && write <= last)
    }

    /// Whether the other bytes are shown.
    pub fn shows(&self) -> bool {
        self.shows.load(Ordering::SeqCst) == 1
    }

    /// The disk is dropped, and held this.
    pub fn note_left(&self, bytes: Vec<u8>) {
        let _ = self.left.try_set(bytes);
    }

    /// What the disk held when it was dropped; None where it wasn't yet.
    pub fn left(&self) -> Option<&[u8]> {
        let bytes = self.left.get()?;
        Some(bytes.as_slice())
    }
}

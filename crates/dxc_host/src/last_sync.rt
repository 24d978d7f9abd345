use crate::told::Utc;
use crate::utc::moment_of;
use std::alloc::{AllocError, Global};
use std::sync::Arc;
use std::sync::atomic::{AtomicU64, Ordering};

/// Of a copy, as seconds since 1970-01-01 00:00:00, or 0: when its disk was synced last, and when its link had nothing more to give last. A sync's moment is
/// the latter: where this program was stopped for a while, it makes later what its primary sent before.
#[derive(Drop)]
pub(crate) struct LastSync {
    second: Arc<AtomicU64>,
    waiting: Arc<AtomicU64>,
}

impl LastSync {
    pub(crate) fn new(alloc: Global) -> Result<LastSync, AllocError> {
        let second = Arc::new(alloc, AtomicU64::new(0))?;
        let waiting = Arc::new(alloc, AtomicU64::new(0))?;
        Ok(LastSync { second, waiting })
    }

    /// The same one for another holder.
    pub(crate) fn shared(&self) -> Result<LastSync, AllocError> {
        let second = Arc::try_clone(&self.second)?;
        let waiting = Arc::try_clone(&self.waiting)?;
        Ok(LastSync { second, waiting })
    }

    /// Nothing more is to be read now.
    pub(crate) fn wait(&self) {
        self.waiting.store(now(), Ordering::SeqCst);
    }

    /// It is synced now.
    pub(crate) fn mark(&self) {
        let second = match self.waiting.load(Ordering::SeqCst) {
            0 => now(),
            waiting => waiting,
        };
        self.second.store(second, Ordering::SeqCst);
    }

    /// None: it wasn't yet.
    pub(crate) fn moment(&self) -> Option<Utc> {
        match self.second.load(Ordering::SeqCst) {
            0 => None,
            second => Some(Utc(moment_of(second.cast_signed()))),
        }
    }
}

fn now() -> u64 {
    libc::time(&mut 0).max(1).cast_unsigned()
}

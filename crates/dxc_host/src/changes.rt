use std::alloc::{AllocError, Global};
use std::sync::Arc;
use std::sync::atomic::{AtomicU64, Ordering};

/// Counts how often a change was let to a journal: gates mark it, and links see it.
#[derive(Drop)]
pub(crate) struct Changes {
    count: Arc<AtomicU64>,
}

impl Changes {
    pub(crate) fn new(alloc: Global) -> Result<Changes, AllocError> {
        let count = Arc::new(alloc, AtomicU64::new(0))?;
        Ok(Changes { count })
    }

    /// The same count for another holder.
    pub(crate) fn shared(&self) -> Result<Changes, AllocError> {
        let count = Arc::try_clone(&self.count)?;
        Ok(Changes { count })
    }

    pub(crate) fn mark(&self) {
        self.count.fetch_add(1, Ordering::SeqCst);
    }

    #[inline(always)]
    pub(crate) fn count(&self) -> u64 {
        self.count.load(Ordering::SeqCst)
    }
}

// Flags that threads share.
use std::alloc::{AllocError, Global};
use std::sync::Arc;
use std::sync::atomic::{AtomicBool, Ordering};
use std::thread;

/// How often a thread looks at a flag, or at a revision, at most: a host that runs nothing beside
/// it has then failed.
pub const LOOKS: u64 = 200_000_000;

/// A flag, raised once.
#[derive(Drop)]
pub struct Flag {
    raised: Arc<AtomicBool, Global>,
}

impl Flag {
    pub fn new(alloc: Global) -> Result<Flag, AllocError> {
        Ok(Flag {
            raised: Arc::new(alloc, AtomicBool::new(false))?,
        })
    }

    /// The same flag, for another thread.
    pub fn again(&self) -> Result<Flag, AllocError> {
        Ok(Flag {
            raised: Arc::try_clone(&self.raised)?,
        })
    }

    pub fn raise(&self) {
        self.raised.store(true, Ordering::SeqCst);
    }

    pub fn is_raised(&self) -> bool {
        self.raised.load(Ordering::SeqCst)
    }

    /// Looks until it is raised.
    pub fn wait(&self) {
        for _ in 0..LOOKS {
            if self.is_raised() {
                return;
            }
            thread::yield_now();
        }
    }
}

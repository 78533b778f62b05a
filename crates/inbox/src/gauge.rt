//! How much of what was read stands in the inbox, so that the reader waits while the host doesn't take it.
use std::sync::Wait;
use std::sync::atomic::{AtomicBool, AtomicU64, Ordering};
use std::thread::Parker;

/// The most entries of the reader that stand in the inbox.
const MOST: u64 = 64;

/// Counts the reader's entries that stand in the inbox.
pub struct Gauge {
    standing: AtomicU64,
    lifted: AtomicBool,
    room: Parker,
}

impl Drop for Gauge {
    fn drop(self) {
        let Gauge {
            standing: _,
            lifted: _,
            room: _,
        } = self;
    }
}

impl Gauge {
    /// Nothing stands there.
    pub fn new() -> Gauge {
        Gauge {
            standing: AtomicU64::new(0),
            lifted: AtomicBool::new(false),
            room: Parker::new(),
        }
    }

    /// Waits until there is room for one more, and counts it. One thread alone may call it: the reader's.
    pub fn enter<R: Wait>(&self, rt: &R) {
        for _ in rt.forever() {
            if self.standing.load(Ordering::SeqCst) < MOST || self.lifted.load(Ordering::SeqCst) {
                self.standing.fetch_add(1, Ordering::SeqCst);
                return;
            }
            self.room.park(rt);
        }
    }

    /// One was taken.
    pub fn leave(&self) {
        self.standing.fetch_sub(1, Ordering::SeqCst);
        self.room.unpark();
    }

    /// There is room for all from now on.
    pub fn lift(&self) {
        self.lifted.store(true, Ordering::SeqCst);
        self.room.unpark();
    }
}

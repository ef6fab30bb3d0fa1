use std::sync::atomic::{AtomicU64, Ordering};

// No port has this index.
const NOBODY: u64 = u64::MAX;

/// What senders and the drain tell each other: how many senders have ended, and which one got no thread, the last such.
///
/// No proof rests on it.
#[derive(Drop)]
pub(crate) struct Ended {
    count: AtomicU64,
    refused: AtomicU64,
}

impl Ended {
    pub(crate) fn new() -> Ended {
        Ended {
            count: AtomicU64::new(0),
            refused: AtomicU64::new(NOBODY),
        }
    }

    /// A sender has ended.
    pub(crate) fn add(&self) {
        self.count.fetch_add(1, Ordering::SeqCst);
    }

    /// How many senders have ended.
    pub(crate) fn count(&self) -> u64 {
        self.count.load(Ordering::SeqCst)
    }

    /// The sender of the port with this index got no thread.
    pub(crate) fn refuse(&self, index: u32) {
        self.refused.store(u64::from(index), Ordering::SeqCst);
    }

    /// Whether that is the last sender that got no thread.
    pub(crate) fn is_refused(&self, index: u32) -> bool {
        self.refused.load(Ordering::SeqCst) == u64::from(index)
    }
}

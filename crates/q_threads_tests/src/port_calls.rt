use std::sync::atomic::{AtomicU64, Ordering};

/// How often a gate was called for one port.
#[derive(Drop)]
pub struct PortCalls {
    before: AtomicU64,
    after: AtomicU64,
}

impl PortCalls {
    /// It was not called yet.
    pub fn new() -> PortCalls {
        PortCalls {
            before: AtomicU64::new(0),
            after: AtomicU64::new(0),
        }
    }

    /// It is called before an offer: whether this is the next packet of the load.
    pub fn before(&self, nth: u64) -> bool {
        self.before.fetch_add(1, Ordering::SeqCst).checked_add(1) == Some(nth)
    }

    /// It is called for a packet that was placed, as all before it were: whether this is the packet that was offered last.
    pub fn after(&self, nth: u64) -> bool {
        let count = self.after.fetch_add(1, Ordering::SeqCst).checked_add(1);
        count == Some(nth) && self.before.load(Ordering::SeqCst) == nth
    }
}

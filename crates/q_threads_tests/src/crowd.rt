use std::sync::atomic::{AtomicU64, Ordering};
use std::thread;

/// How often one looks for the others before it gives up.
const LOOKS: u64 = 10_000_000;

/// So many threads that are waited for.
#[derive(Drop)]
pub struct Crowd {
    wanted: u64,
    come: AtomicU64,
}

impl Crowd {
    /// Nobody has come.
    pub fn new(wanted: u64) -> Crowd {
        Crowd {
            wanted,
            come: AtomicU64::new(0),
        }
    }

    /// One comes.
    pub fn come(&self) {
        self.come.fetch_add(1, Ordering::SeqCst);
    }

    /// Waits until all have come, and answers whether they have.
    pub fn have_come(&self) -> bool {
        for _look in 0..LOOKS {
            if self.come.load(Ordering::SeqCst) >= self.wanted {
                return true;
            }
            thread::yield_now();
        }
        false
    }
}

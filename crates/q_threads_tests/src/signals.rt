use std::sync::atomic::{AtomicBool, AtomicU64, Ordering};
use std::thread;

/// How often one looks for another before it gives up.
pub const LOOKS: u64 = 10_000_000;

/// What the senders at a blockade tell each other, and what is counted there. It knows nothing of the device or its lock, beside which
/// each of these fields would be dear to prove.
#[derive(Drop)]
pub struct Signals {
    /// How many packets port 0 is offered.
    last: u64,
    /// How many are to have arrived before the last one.
    pub fewest: u64,
    held: AtomicBool,
    over: AtomicBool,
    /// How often somebody has waited in vain.
    pub missed: AtomicU64,
    /// How many packets were placed, and the sum of their places in the loads.
    placed: AtomicU64,
    places: AtomicU64,
}

impl Signals {
    /// Nobody has come. Port 0 is offered so many packets, and so many are to have arrived before the last one.
    pub fn new(last: u64, fewest: u64) -> Signals {
        Signals {
            last,
            fewest,
            held: AtomicBool::new(false),
            over: AtomicBool::new(false),
            missed: AtomicU64::new(0),
            placed: AtomicU64::new(0),
            places: AtomicU64::new(0),
        }
    }

    /// How often somebody has waited in vain, how many packets were placed, and the sum of their places in the loads.
    pub fn counts(&self) -> (u64, u64, u64) {
        (
            self.missed.load(Ordering::SeqCst),
            self.placed.load(Ordering::SeqCst),
            self.places.load(Ordering::SeqCst),
        )
    }

    /// The sender of port 1 holds the lock: waits until that of port 0 has come to its last packet.
    pub fn hold(&self) {
        self.held.store(true, Ordering::SeqCst);
        self.wait_for(&self.over);
    }

    /// The sender of port 0 comes to a packet, the first one once the lock is held. Whether it is the last one, at which the lock need not
    /// be held any longer.
    pub fn come(&self, nth: u64) -> bool {
        if nth == 1 {
            self.wait_for(&self.held);
        }
        let is_last = nth == self.last;
        if is_last {
            self.over.store(true, Ordering::SeqCst);
        }
        is_last
    }

    /// A packet was placed. Whether it is the last one of port 0.
    pub fn place(&self, port: u32, nth: u64) -> bool {
        self.placed.fetch_add(1, Ordering::SeqCst);
        self.places.fetch_add(nth, Ordering::SeqCst);
        port == 0 && nth == self.last
    }

    fn wait_for(&self, flag: &AtomicBool) {
        for _look in 0..LOOKS {
            if flag.load(Ordering::SeqCst) {
                return;
            }
            thread::yield_now();
        }
        self.missed.fetch_add(1, Ordering::SeqCst);
    }
}

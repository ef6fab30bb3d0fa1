use crate::shown::Shown;
use q_ports::{Booked, Gate};
use std::sync::atomic::Ordering;
use std::sync::ledger::Ledger;
use std::sync::{Mutex, Wait};
use std::thread;

/// How often one looks before it gives up.
const LOOKS: u64 = 10_000_000;

/// A gate at which each packet waits until the one before it has arrived. Whenever the lock is free the gauge shows the device's row, since
/// each turn publishes it under the lock.
#[derive(Drop)]
pub struct Watch<'a, P: Ledger, B: Ledger, R: Wait> {
    pub rt: &'a R,
    pub booked: &'a Mutex<Booked<P, B>>,
    pub shown: &'a Shown,
}

impl<P: Ledger, B: Ledger, R: Wait> Watch<'_, P, B, R> {
    // How many packets have arrived. The gauge has to show the same row.
    fn arrived(&self) -> u64 {
        let locked = self.booked.lock(self.rt);
        let row = locked.totals();
        self.shown.compare(self.rt, row);
        row.arrived.packets
    }
}

impl<P: Ledger, B: Ledger, R: Wait> Gate for Watch<'_, P, B, R> {
    fn before_offer(&self, _port: u32, nth: u64) {
        for _look in 0..LOOKS {
            if self.arrived() >= nth.saturating_sub(1) {
                return;
            }
            thread::yield_now();
        }
        self.shown.missed.fetch_add(1, Ordering::SeqCst);
    }

    fn after_offer(&self, _port: u32, _nth: u64) {}
}

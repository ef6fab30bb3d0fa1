use crate::common::row;
use crate::signals::{LOOKS, Signals};
use q_ports::{Booked, Gate};
use std::sync::atomic::Ordering;
use std::sync::ledger::Ledger;
use std::sync::{Mutex, Wait};
use std::thread;

/// A gate that lets the drain take nothing until the sender of port 0 has come to its last packet: the sender of port 1 holds the
/// lock so long. The last packet is offered once enough have arrived, and once it was placed it arrives too.
#[derive(Drop)]
pub struct Blockade<'a, P: Ledger, B: Ledger, R: Wait> {
    pub rt: &'a R,
    pub booked: &'a Mutex<Booked<P, B>>,
    pub signals: &'a Signals,
}

impl<P: Ledger, B: Ledger, R: Wait> Blockade<'_, P, B, R> {
    fn wait_for_turns(&self, fewest: u64) {
        for _look in 0..LOOKS {
            if row(self.rt, self.booked).arrived.packets >= fewest {
                return;
            }
            thread::yield_now();
        }
        self.signals.missed.fetch_add(1, Ordering::SeqCst);
    }
}

impl<P: Ledger, B: Ledger, R: Wait> Gate for Blockade<'_, P, B, R> {
    fn before_offer(&self, port: u32, nth: u64) {
        if port == 1 && nth == 1 {
            let _locked = self.booked.lock(self.rt);
            self.signals.hold();
        }
        if port == 0 && self.signals.come(nth) {
            self.wait_for_turns(self.signals.fewest);
        }
    }

    fn after_offer(&self, port: u32, nth: u64) {
        // With this packet and the one of port 1 they are two more.
        if self.signals.place(port, nth) {
            self.wait_for_turns(self.signals.fewest.saturating_add(2));
        }
    }
}

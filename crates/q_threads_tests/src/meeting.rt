use crate::crowd::Crowd;
use crate::port_calls::PortCalls;
use crate::rows::{NO_ROW, is_balanced, is_not_lower};
use q_ports::{Gate, Gauge};
use std::alloc::{AllocError, Global};
use std::sync::atomic::{AtomicU64, Ordering};

/// How many rows each gauge reads.
pub const READS: u64 = 1000;

/// A gate at which the senders of all ports meet, before the first offer of each and before the last. Half way those of ports 0 and 1
/// let two gauges begin, for which they wait before the last offer. It is called for each packet of each load in order, before its
/// offer and after it.
///
/// Senders that ran on one thread, or one after the other, would miss each other, and so would gauges that were held up.
#[derive(Drop)]
pub struct Meeting {
    last: u64,
    fewest: u64,
    at_first: Crowd,
    at_last: Crowd,
    begun: Crowd,
    read: Crowd,
    missed: AtomicU64,
    calls: Vec<PortCalls>,
    offered: AtomicU64,
    placed: AtomicU64,
}

impl Meeting {
    /// A gate at which nobody has come, for so many ports with loads of so many packets. Half way so many arrivals are to be seen.
    pub fn new(alloc: Global, ports: usize, last: u64, fewest: u64) -> Result<Meeting, AllocError> {
        let mut calls = Vec::with_capacity(alloc, ports)?;
        for _port in 0..ports {
            calls.push(PortCalls::new())?;
        }
        Ok(Meeting {
            last,
            fewest,
            at_first: Crowd::new(ports as u64),
            at_last: Crowd::new(ports as u64),
            begun: Crowd::new(2),
            read: Crowd::new(2),
            missed: AtomicU64::new(0),
            calls,
            offered: AtomicU64::new(0),
            placed: AtomicU64::new(0),
        })
    }

    /// How often somebody has waited in vain or was called out of order, how many packets were offered, and how many were placed.
    pub fn counts(&self) -> (u64, u64, u64) {
        (
            self.missed.load(Ordering::SeqCst),
            self.offered.load(Ordering::SeqCst),
            self.placed.load(Ordering::SeqCst),
        )
    }

    /// Reads rows once half of the loads of ports 0 and 1 is placed: how many of them were there, balanced, no lower than the one
    /// before, and of no fewer arrivals than are to be seen.
    pub fn read_often(&self, gauge: Gauge) -> u64 {
        let mut gauge = gauge;
        self.wait_for(&self.begun);
        let mut good = 0u64;
        let mut before = NO_ROW;
        for _read in 0..READS {
            if let Some(row) = gauge.read() {
                let seen = row.arrived.packets >= self.fewest;
                if seen && is_balanced(&row) && is_not_lower(&before, &row) {
                    good = good.saturating_add(1);
                }
                before = row;
            }
        }
        self.read.come();
        good
    }

    fn wait_for(&self, crowd: &Crowd) {
        self.expect(crowd.have_come());
    }

    fn expect(&self, holds: bool) {
        if !holds {
            self.missed.fetch_add(1, Ordering::SeqCst);
        }
    }
}

impl Gate for Meeting {
    fn before_offer(&self, port: u32, nth: u64) {
        self.offered.fetch_add(1, Ordering::SeqCst);
        self.expect(match self.calls.get(port as usize) {
            Some(calls) => calls.before(nth),
            None => false,
        });
        if nth == 1 {
            self.at_first.come();
            self.wait_for(&self.at_first);
        }
        if port <= 1 && nth == self.last / 2 {
            self.begun.come();
        }
        if nth == self.last {
            self.at_last.come();
            self.wait_for(&self.at_last);
        }
        if port <= 1 && nth == self.last {
            self.wait_for(&self.read);
        }
    }

    fn after_offer(&self, port: u32, nth: u64) {
        self.expect(match self.calls.get(port as usize) {
            Some(calls) => calls.after(nth),
            None => false,
        });
        self.placed.fetch_add(1, Ordering::SeqCst);
    }
}

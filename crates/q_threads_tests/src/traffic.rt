use crate::rows::{NO_ROW, is_balanced, is_not_lower};
use q_packet::Packet;
use q_ports::{Gauge, Port};
use std::alloc::Global;
use std::process::Abort;
use std::sync::Arc;
use std::sync::atomic::{AtomicBool, AtomicU64, Ordering};
use std::thread;
use std::thread::{JoinHandle, Threads};

/// How often one looks before it gives up.
const LOOKS: u64 = 10_000_000;

/// How many packets are offered, and how many rows are read, once the drain has ended.
pub const AFTER: u64 = 100;

/// What senders and gauges learn of a drain that ends beside them, and what they report.
#[derive(Drop)]
pub struct Traffic {
    ended: AtomicBool,
    read: AtomicU64,
}

impl Traffic {
    /// The drain has not ended, and no row was read.
    pub fn new() -> Traffic {
        Traffic {
            ended: AtomicBool::new(false),
            read: AtomicU64::new(0),
        }
    }

    /// The drain has ended.
    pub fn end(&self) {
        self.ended.store(true, Ordering::SeqCst);
    }

    /// How many rows were read so far.
    pub fn read(&self) -> u64 {
        self.read.load(Ordering::SeqCst)
    }

    /// Offers packets until the drain has ended, and some more.
    pub fn offer_on(&self, port: Port, given: Packet) -> Port {
        let mut port = port;
        for _offer in 0..LOOKS {
            if self.ended.load(Ordering::SeqCst) {
                break;
            }
            if port.offer(given).is_err() {
                thread::yield_now();
            }
        }
        for _offer in 0..AFTER {
            if port.offer(given).is_err() {
                thread::yield_now();
            }
        }
        port
    }

    // Reads rows without a pause until the drain has ended, and some more: how many were not balanced, or lower than the one before, and
    // the most arrivals that one of them shows.
    fn read_on(&self, gauge: Gauge) -> (u64, u64) {
        let mut gauge = gauge;
        let mut before = NO_ROW;
        let (mut wrong, mut most, mut after) = (0u64, 0u64, 0u64);
        for _read in 0..LOOKS {
            if self.ended.load(Ordering::SeqCst) {
                after = after.saturating_add(1);
            }
            if after > AFTER {
                break;
            }
            if let Some(row) = gauge.read() {
                if !is_balanced(&row) || !is_not_lower(&before, &row) {
                    wrong = wrong.saturating_add(1);
                }
                before = row;
                most = most.max(row.arrived.packets);
                self.read.fetch_add(1, Ordering::SeqCst);
            }
        }
        (wrong, most)
    }
}

/// A thread in which a gauge reads: how many of its rows were wrong, and the most arrivals that one of them shows.
pub fn read_beside<R: Threads + Abort>(
    rt: &R,
    traffic: &Arc<Traffic, Global>,
    gauges: &mut Vec<Gauge>,
) -> JoinHandle<(u64, u64)> {
    let gauge = gauges.pop().expect(rt, "a gauge");
    let traffic = Arc::try_clone(traffic).expect(rt, "a count");
    thread::spawn(rt, move || traffic.read_on(gauge)).expect(rt, "a thread")
}

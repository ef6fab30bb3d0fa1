use q_device::Row;
use q_ports::Gauge;
use std::sync::atomic::{AtomicU64, Ordering};
use std::sync::{Mutex, Wait};

/// A gauge that is compared with the device's rows, and what is counted of that. It knows nothing of the device or its lock, beside which
/// each of these fields would be dear to prove.
#[derive(Drop)]
pub struct Shown {
    gauge: Mutex<Gauge>,
    wrong: AtomicU64,
    /// How often somebody has waited in vain.
    pub missed: AtomicU64,
}

impl Shown {
    /// Nothing was compared yet.
    pub fn new(gauge: Gauge) -> Shown {
        Shown {
            gauge: Mutex::new(gauge),
            wrong: AtomicU64::new(0),
            missed: AtomicU64::new(0),
        }
    }

    /// How often the gauge showed another row than the device's, and how often somebody has waited in vain.
    pub fn counts(&self) -> (u64, u64) {
        (
            self.wrong.load(Ordering::SeqCst),
            self.missed.load(Ordering::SeqCst),
        )
    }

    /// The gauge has to show this row.
    pub fn compare<R: Wait>(&self, rt: &R, row: Row) {
        if self.gauge.lock(rt).read() != Some(row) {
            self.wrong.fetch_add(1, Ordering::SeqCst);
        }
    }
}

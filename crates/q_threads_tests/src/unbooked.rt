//! A device that has no book yet. A test makes one for a function that is generic in the ledgers, and that makes the book.
ghost use Rattle.std.specs.Prelude.{◌≡◌, length, map, All};
ghost use Rattle.q_model.specs.Tally.{no_totals};
ghost use Rattle.q_ports.specs.Held.{held};
ghost use Rattle.q_ports.specs.Placed.{ring_of_port};
ghost use Rattle.q_ports.specs.Rings.{ring_id};
ghost use Rattle.q_ports.specs.Rows.{new_gauge, shown_on, GaugeSeen};

use crate::common::{limited, row};
use q_device::{Device, Row};
use q_ports::{Booked, Drain, Gauge, Port, Seat, open_ports};
use std::alloc::Global;
use std::process::Abort;
use std::sync::ledger::{Blank, Ledger};
use std::sync::{Mutex, Wait};

/// A device at which nothing has arrived, and the blanks of its book's two ledgers.
pub struct Unbooked {
    pub device: Device,
    pub packets: Blank,
    pub bytes: Blank,
    ghost nothing: { device.device.tree.top.arrived ≡ no_totals },
    ghost parts: { (packets.parts ≡ 65) × (bytes.parts ≡ 65) },
}

/// A device with room for so many packets, which records so many events, and the blanks of its book. Tests make it here, since each way
/// out of a function that owns a device is dear to prove.
pub fn fresh<R: Abort>(rt: &R, alloc: Global, limit: u32, recorded: u32) -> Unbooked {
    Unbooked::new(limited(alloc, limit, recorded).expect(rt, "memory"))
}

/// Ends a drain, and drops all that was opened with it. It is done here, since a drop is dear to prove in a test that owns much.
pub fn end<P: Ledger, B: Ledger, R: Wait>(
    rt: &R,
    _booked: Mutex<Booked<P, B>>,
    drain: Drain<P, B>,
    _ports: Vec<Port>,
    _gauges: Vec<Gauge>,
) {
    drain.end(rt);
}

/// The last row of a device whose drain has settled. The device is dropped here, for the same reason, and so are its gauges.
pub fn last_row<P: Ledger, B: Ledger, R: Wait>(
    rt: &R,
    booked: Mutex<Booked<P, B>>,
    _gauges: Vec<Gauge>,
) -> Row {
    row(rt, &booked)
}

impl Unbooked {
    /// The device with new blanks.
    pub fn new(device: Device) -> Unbooked
        requires { device.device.tree.top.arrived ≡ no_totals }
    {
        let (packets, bytes) = (Blank::new(65), Blank::new(65));
        Unbooked {
            device,
            packets,
            bytes,
        }
    }

    /// A new book of the device behind a lock, and its permit.
    pub fn locked<P: Ledger, B: Ledger>(self) -> (Mutex<Booked<P, B>>, Seat<P, B>)
        requires { (self.packets.name ≡ P.name) × (P.parts ≡ 65) × (self.bytes.name ≡ B.name) × (B.parts ≡ 65) }
        ensures { result.1 ≡ held 65 0 0 }
    {
        let Unbooked {
            device,
            packets,
            bytes,
        } = self;
        let (booked, seat) = Booked::<P, B>::new(device, packets, bytes);
        (Mutex::new(booked), seat)
    }

    /// A drain over a new book of the device, with so many ports and gauges, and rings of so many packets.
    pub fn opened<P: Ledger, B: Ledger, R: Wait + Abort>(
        self,
        rt: &R,
        alloc: Global,
        counts: (usize, usize, usize),
    ) -> (Mutex<Booked<P, B>>, Drain<P, B>, Vec<Port>, Vec<Gauge>)
        requires { (self.packets.name ≡ P.name) × (P.parts ≡ 65) × (self.bytes.name ≡ B.name) × (B.parts ≡ 65) }
        ensures rings { map ring_of_port result.2.items ≡ map ring_id result.1.rings }
        ensures ports { length result.2.items ≡ counts.0 }
        ensures gauges { length result.3.items ≡ counts.2 }
        ensures book { All (λ (g : GaugeSeen). g ≡ new_gauge (shown_on result.1.board)) result.3.items }
    {
        let (ports, ring, gauges) = counts;
        assert!(rt; 1 <= ports && ports <= 64);
        assert!(rt; 1 <= ring && ring <= 65_536);
        assert!(rt; gauges <= 16);
        let (booked, seat) = self.locked::<P, B>();
        match open_ports(rt, alloc, seat, ports, ring, gauges) {
            Ok((drain, ports, gauges)) => (booked, drain, ports, gauges),
            Err(_) => panic!(rt; "memory"),
        }
    }
}

ghost use Rattle.std.specs.Prelude.{◌≡◌, ◌≤◌, ◌<◌, ℕ, [], length, get_or, map, replicate, All, IfOk, IfErr};
ghost use Rattle.q_ports.specs.Held.{held};
ghost use Rattle.q_ports.specs.Placed.{placed_by, port_seen, ring_of_port, HasRing, PortSeen};
ghost use Rattle.q_ports.specs.Rings.{received_from, ring_id, ring_seen};
ghost use Rattle.q_ports.specs.Rows.{new_gauge, shown_on, GaugeSeen};

use crate::drain::Drain;
use crate::gauge::Gauge;
use crate::intake::Intake;
use crate::outlet::Outlet;
use crate::port::Port;
use crate::publisher::Publisher;
use crate::ring_rule::{PacketConsumer, RingRule};
use crate::seat::Seat;
use rtrb::RingBuffer;
use std::alloc::{AllocError, Global};
use std::sync::Wait;
use std::sync::ledger::Ledger;

/// Opens the drain, the ports and the gauges of a booked device.
///
/// `seat` is the whole permit of the device's book, with which nothing was let in. `count` is how many ports there are, 1 to 64; their indexes
/// count from 0. `ring` is how many packets the ring of each port holds, 1 to 65536. `gauges` is how many gauges there are, 0 to 16.
///
/// # Errors
///
/// Returns the permit and `AllocError` if an allocation fails, or if a gauge finds no place to read from.
pub fn open_ports<P: Ledger, B: Ledger, R: Wait>(
    rt: &R,
    alloc: Global,
    seat: Seat<P, B>,
    count: usize,
    ring: usize,
    gauges: usize,
) -> Result<(Drain<P, B>, Vec<Port>, Vec<Gauge>), (Seat<P, B>, AllocError)>
    requires count { (1 ≤ count) × (count ≤ 64) }
    requires ring { (1 ≤ ring) × (ring ≤ 65536) }
    requires gauges { gauges ≤ 16 }
    requires seat { seat ≡ held 65 0 0 }
    ensures ports { IfOk result (λ r. map ring_of_port r.1.items ≡ map ring_id r.0.rings) }
    ensures count { IfOk result (λ r. length r.1.items ≡ count) }
    ensures indexes { IfOk result (λ r. (k : ℕ) (d : PortSeen) → k < count → (get_or r.1.items k d).index ≡ k) }
    ensures lengths { IfOk result (λ r. All (HasRing ring) r.1.items) }
    ensures placed { IfOk result (λ r. map placed_by r.1.items ≡ replicate count []) }
    ensures received { IfOk result (λ r. map received_from r.0.rings ≡ replicate count []) }
    ensures gauges { IfOk result (λ r. length r.2.items ≡ gauges) }
    ensures book { IfOk result (λ r. All (λ (g : GaugeSeen). g ≡ new_gauge (shown_on r.0.board)) r.2.items) }
    ensures rows { IfOk result (λ r. (r.0.board.rows ≡ []) × (r.0.board.shown ≡ [])) }
    ensures err { IfErr result (λ e. e.0 ≡ seat) }
{
    let Ok((rings, ports)) = make_rings(alloc, count, ring) else {
        return Err((seat, AllocError));
    };
    let Ok((publisher, gauges)) = Publisher::open(rt, alloc, gauges) else {
        return Err((seat, AllocError));
    };
    let intake = Intake::new(seat, rings);
    Ok((Drain { intake, publisher }, ports, gauges))
}

/// Opens both ends of one ring: a port that has placed nothing, and an outlet at which nothing was taken in.
///
/// `index` is written into each packet of the ring as its port. `places` is how many packets the ring holds, 1 to 65536.
///
/// # Errors
///
/// Returns `AllocError` if an allocation fails.
pub fn open_ring(alloc: Global, index: u32, places: usize) -> Result<(Port, Outlet), AllocError>
    requires { (1 ≤ places) × (places ≤ 65536) }
    ensures port { IfOk result (λ r. r.0 ≡ port_seen index r.1.ring []) }
    ensures places { IfOk result (λ r. HasRing places r.0) }
    ensures outlet { IfOk result (λ r. (r.1.received ≡ []) × (r.1.known ≡ [])) }
{
    let (producer, consumer) = RingBuffer::with_protocol::<Global, RingRule>(alloc, places)?;
    Ok((Port::new(index, producer), Outlet::new(consumer)))
}

// Both ends of so many rings.
fn make_rings(
    alloc: Global,
    count: usize,
    ring: usize,
) -> Result<(Vec<PacketConsumer>, Vec<Port>), AllocError>
    requires { count ≤ 64 }
    ensures ports { IfOk result (λ r. map ring_of_port r.1.items ≡ map ring_id (map ring_seen r.0.items)) }
    ensures count { IfOk result (λ r. (length r.0.items ≡ count) × (length r.1.items ≡ count)) }
    ensures indexes { IfOk result (λ r. (k : ℕ) (d : PortSeen) → k < count → (get_or r.1.items k d).index ≡ k) }
    ensures lengths { IfOk result (λ r. All (HasRing ring) r.1.items) }
    ensures placed { IfOk result (λ r. map placed_by r.1.items ≡ replicate count []) }
    ensures received { IfOk result (λ r. map received_from (map ring_seen r.0.items) ≡ replicate count []) }
{
    let mut rings = Vec::with_capacity(alloc, count)?;
    let mut ports = Vec::with_capacity(alloc, count)?;
    for index in 0..count {
        let (producer, consumer) = RingBuffer::with_protocol::<Global, RingRule>(alloc, ring)?;
        ports.push_reserved(Port::new(index as u32, producer));
        rings.push_reserved(consumer);
    }
    Ok((rings, ports))
}

//! Rings that are filled to their length.
ghost use Rattle.std.specs.Prelude.{◌≡◌};

use crate::common::{assert_full, assert_totals, fill, hundreds, packet, settled_at};
use crate::unbooked::{Unbooked, fresh, last_row};
use q_packet::Packet;
use std::alloc::Global;
use std::marker::Brand;
use std::process::Abort;
use std::sync::Wait;
use std::sync::ledger::Ledger;
use std::test::Fail;

#[test]
fn a_ring_has_exactly_its_length(rt: HostRuntime) -> Result<(), Fail> {
    let alloc = rt.alloc();
    let given = packet(5).expect(&rt, "a packet");
    for ring in &[1usize, 2, 16, 65_536] {
        let unbooked = fresh(&rt, alloc, 1000, 0);
        filled::<Brand, Brand, _>(&rt, alloc, unbooked, *ring, given);
    }
    Ok(())
}

// A ring takes as many packets as it has places and gives the next one back. All of them are settled.
fn filled<P: Ledger, B: Ledger, R: Wait + Abort>(
    rt: &R,
    alloc: Global,
    unbooked: Unbooked,
    ring: usize,
    given: Packet,
)
    requires { (unbooked.packets.name ≡ P.name) × (P.parts ≡ 65) × (unbooked.bytes.name ≡ B.name) × (B.parts ≡ 65) }
{
    let (booked, drain, mut ports, gauges) = unbooked.opened::<P, B, R>(rt, alloc, (1, ring, 0));
    fill(rt, &mut ports, 0, ring as u64, given);
    assert_full(rt, &mut ports, given);
    let settled = settled_at(rt, &booked, drain, ports, 0);
    let row = last_row(rt, booked, gauges);
    assert_eq!(rt; settled, Some(hundreds(ring as u64)));
    assert_totals(rt, row.arrived, hundreds(ring as u64));
}

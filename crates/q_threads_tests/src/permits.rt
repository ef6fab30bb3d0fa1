//! A permit that is split and joined again, and the counters of a place behind the lock.
ghost use Rattle.std.specs.Prelude.{◌≡◌};

use crate::common::{hundreds, packet};
use crate::unbooked::{Unbooked, fresh};
use q_device::{ClassId, Handle, Minor, Place, Totals};
use q_packet::{Moment, Packet};
use q_ports::{Booked, Seat};
use std::marker::Brand;
use std::process::Abort;
use std::sync::ledger::Ledger;
use std::sync::{Mutex, Wait};
use std::test::Fail;

/// What was seen: the parts of both permits and of the whole one, and what arrived at the root and in a class that is not there.
type Seen = ((u64, u64, u64), Option<Totals>, Option<Totals>);

#[test]
fn permits_are_split_and_joined(rt: HostRuntime) -> Result<(), Fail> {
    let given = packet(77).ok_or("a packet")?;
    let class = ClassId {
        major: Handle::new(1).ok_or("a handle")?,
        minor: Minor::new(1).ok_or("a minor")?,
    };
    let unbooked = fresh(&rt, rt.alloc(), 1000, 0);
    let seen = split_and_joined::<Brand, Brand, _>(&rt, unbooked, given, class);
    assert_eq!(rt; seen, ((64, 1, 65), Some(hundreds(2)), None));
    Ok(())
}

// A packet arrives by each of two permits, of which the one takes the other in. It asserts nothing, since that is dear beside a device.
fn split_and_joined<P: Ledger, B: Ledger, R: Wait + Abort>(
    rt: &R,
    unbooked: Unbooked,
    given: Packet,
    class: ClassId,
) -> Seen
    requires { (unbooked.packets.name ≡ P.name) × (P.parts ≡ 65) × (unbooked.bytes.name ≡ B.name) × (B.parts ≡ 65) }
{
    let (booked, mut seat) = unbooked.locked::<P, B>();
    let mut part = seat.split();
    let (left, taken) = (seat.parts(), part.parts());
    arrive(rt, &booked, &mut seat, given);
    arrive(rt, &booked, &mut part, given);
    seat.join(part);
    let parts = (left, taken, seat.parts());
    let root = arrived_at(rt, &booked, Place::Root);
    let nowhere = arrived_at(rt, &booked, Place::Class(class));
    (parts, root, nowhere)
}

// A packet arrives by a permit, for which there is memory.
fn arrive<P: Ledger, B: Ledger, R: Wait + Abort>(
    rt: &R,
    booked: &Mutex<Booked<P, B>>,
    seat: &mut Seat<P, B>,
    given: Packet,
) {
    assert!(rt; booked.lock(rt).arrive(seat, given, Moment::zero()).is_ok());
}

// What arrived in a place, if there is a qdisc.
fn arrived_at<P: Ledger, B: Ledger, R: Wait>(
    rt: &R,
    booked: &Mutex<Booked<P, B>>,
    place: Place,
) -> Option<Totals> {
    Some(booked.lock(rt).stats(place)?.arrived)
}

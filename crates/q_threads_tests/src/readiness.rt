//! From which time on the device behind the lock may give its next packet.
ghost use Rattle.std.specs.Prelude.{◌≡◌};

use crate::common::packet;
use crate::unbooked::{Unbooked, fresh};
use q_device::{Burst, Command, Kind, Place, Polled, Rate, TbfLimit};
use q_packet::{Moment, Packet};
use q_ports::{Booked, Seat};
use std::marker::Brand;
use std::process::Abort;
use std::sync::Wait;
use std::sync::ledger::Ledger;
use std::test::Fail;

/// A tbf that begins with 150 bytes of tokens, and gets a byte a second.
fn slow() -> Option<Command> {
    let rate = Rate::new(8)?;
    let burst = Burst::new(150)?;
    Some(Command::QdiscAdd {
        place: Place::Root,
        handle: None,
        kind: Kind::Tbf {
            rate,
            burst,
            limit: TbfLimit::Bytes(1000),
        },
    })
}

#[test]
fn ready_once_the_bucket_has_enough(rt: HostRuntime) -> Result<(), Fail> {
    let given = packet(1).expect(&rt, "a packet");
    let unbooked = fresh(&rt, rt.alloc(), 1000, 0);
    booked::<Brand, Brand, _>(&rt, unbooked, given);
    Ok(())
}

fn booked<P: Ledger, B: Ledger, R: Wait + Abort>(rt: &R, unbooked: Unbooked, given: Packet)
    requires { (unbooked.packets.name ≡ P.name) × (P.parts ≡ 65) × (unbooked.bytes.name ≡ B.name) × (B.parts ≡ 65) }
{
    let (booked, mut seat) = unbooked.locked::<P, B>();
    assert_waits(rt, &mut *booked.lock(rt), &mut seat, given);
}

// Two packets of 100 bytes come, of which the bucket pays for one. The other lacks 50 bytes, which come in 50 s.
fn assert_waits<P: Ledger, B: Ledger, R: Abort>(
    rt: &R,
    booked: &mut Booked<P, B>,
    seat: &mut Seat<P, B>,
    given: Packet,
) {
    let slow = slow().expect(rt, "in range");
    assert_eq!(rt; booked.command(slow, Moment::zero()), Ok(()));
    assert_ready_at(rt, booked, None);
    arrive(rt, booked, seat, given);
    arrive(rt, booked, seat, given);
    assert_ready_at(rt, booked, Some(Moment::zero()));
    assert_gives(rt, booked, Moment::zero(), Polled::Packet(given));
    assert_gives(rt, booked, Moment::zero(), Polled::Later);
    let ready = Moment::new(50_000_000_000).expect(rt, "a moment");
    assert_ready_at(rt, booked, Some(ready));
    assert_gives(rt, booked, ready, Polled::Packet(given));
    assert_ready_at(rt, booked, None);
}

// From this time on the device may give a packet.
fn assert_ready_at<P: Ledger, B: Ledger, R: Abort>(
    rt: &R,
    booked: &Booked<P, B>,
    wanted: Option<Moment>,
) {
    assert_eq!(rt; booked.ready_at(), wanted);
}

// A poll at this time answers so.
fn assert_gives<P: Ledger, B: Ledger, R: Abort>(
    rt: &R,
    booked: &mut Booked<P, B>,
    now: Moment,
    wanted: Polled,
) {
    assert_eq!(rt; booked.poll(now), wanted);
}

// A packet arrives at the start.
fn arrive<P: Ledger, B: Ledger, R: Abort>(
    rt: &R,
    booked: &mut Booked<P, B>,
    seat: &mut Seat<P, B>,
    given: Packet,
) {
    assert!(rt; booked.arrive(seat, given, Moment::zero()).is_ok());
}

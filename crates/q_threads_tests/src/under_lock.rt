//! What turns and settling do to the device behind its lock, event by event and loss by loss. A contract can't name what is behind a
//! lock, so that a packet that got lost there in the very call would be seen here alone.
ghost use Rattle.std.specs.Prelude.{◌≡◌, ◌<◌, length, map};
ghost use Rattle.q_ports.specs.Placed.{ring_of_port};

use crate::common::{assert_totals, fill, hundreds, moment, packet, settled_at, take_turn};
use crate::unbooked::{Unbooked, fresh, last_row};
use q_device::{Event, Lost, Row};
use q_packet::{Cause, Packet};
use q_ports::{Booked, Port};
use std::alloc::Global;
use std::marker::Brand;
use std::process::Abort;
use std::sync::ledger::Ledger;
use std::sync::{Mutex, Wait};
use std::test::Fail;

/// In place of a port: the event is a poll.
const POLL: u32 = u32::MAX;

/// What has to have happened in the end: of each arrival its port, its number there and its time, of each poll its time.
///
/// A turn of four takes a packet from each ring in turn; the queue has room for three, so that the fourth poll finds none. A turn of
/// two goes on after the ring that was taken from last, and polls twice. Settling empties one ring after the other.
const EVENTS: [(u32, u64, u64); 16] = [
    (0, 1, 5),
    (1, 1, 5),
    (0, 2, 5),
    (1, 2, 5),
    (POLL, 0, 5),
    (POLL, 0, 5),
    (POLL, 0, 5),
    (POLL, 0, 5),
    (0, 3, 9),
    (0, 4, 9),
    (POLL, 0, 9),
    (POLL, 0, 9),
    (0, 5, 12),
    (0, 6, 12),
    (1, 3, 12),
    (1, 4, 12),
];

/// What was lost by then: of each packet its port, and its number there.
const LOST: [(u32, u64); 2] = [(1, 2), (1, 4)];

#[test]
fn turns_and_settling_do_nothing_else(rt: HostRuntime) -> Result<(), Fail> {
    let alloc = rt.alloc();
    let given = packet(77).expect(&rt, "a packet");
    let unbooked = fresh(&rt, alloc, 3, 64);
    turned_and_settled::<Brand, Brand, _>(&rt, alloc, unbooked, given);
    Ok(())
}

// Two turns, and what is left settles. A loss of the first turn waits all the while.
fn turned_and_settled<P: Ledger, B: Ledger, R: Wait + Abort>(
    rt: &R,
    alloc: Global,
    unbooked: Unbooked,
    given: Packet,
)
    requires { (unbooked.packets.name ≡ P.name) × (P.parts ≡ 65) × (unbooked.bytes.name ≡ B.name) × (B.parts ≡ 65) }
{
    let (booked, mut drain, mut ports, gauges) = unbooked.opened::<P, B, R>(rt, alloc, (2, 8, 0));
    offer(rt, &mut ports, (3, 2), given);
    take_turn(rt, alloc, &booked, &mut drain, 5, 4);
    let after_first = has_events(rt, &booked, 8, given);
    offer(rt, &mut ports, (3, 0), given);
    take_turn(rt, alloc, &booked, &mut drain, 9, 2);
    let after_second = has_events(rt, &booked, 12, given);
    offer(rt, &mut ports, (0, 2), given);
    let settled = settled_at(rt, &booked, drain, ports, 12);
    let in_the_end = has_events(rt, &booked, 16, given);
    let lost = reaped(rt, &booked);
    let row = last_row(rt, booked, gauges);
    assert!(rt; after_first && after_second && in_the_end);
    assert_eq!(rt; settled, Some(hundreds(10)));
    assert_left(rt, &row, &lost, given);
}

// Places so many packets at the first port and at the second.
fn offer<R: Abort>(rt: &R, ports: &mut Vec<Port>, counts: (u64, u64), given: Packet)
    requires { length ports.old.items ≡ 2 }
    ensures rings { map ring_of_port ports.new.items ≡ map ring_of_port ports.old.items }
    ensures count { length ports.new.items ≡ length ports.old.items }
{
    fill(rt, ports, 0, counts.0, given);
    fill(rt, ports, 1, counts.1, given);
}

// Whether so many events happened and no others, those of the list.
fn has_events<P: Ledger, B: Ledger, R: Wait>(
    rt: &R,
    booked: &Mutex<Booked<P, B>>,
    count: usize,
    given: Packet,
) -> bool {
    let locked = booked.lock(rt);
    locked.events() == count as u64 && are_events(locked.recorded(), count, given)
}

fn are_events(events: &[Event], count: usize, given: Packet) -> bool {
    if events.len() != count || count > EVENTS.len() {
        return false;
    }
    for at in 0..count {
        if !is_event(&events[at], EVENTS[at], given) {
            return false;
        }
    }
    true
}

fn is_event(event: &Event, wanted: (u32, u64, u64), given: Packet) -> bool {
    let (port, number, now) = wanted;
    let now = moment(now);
    if port == POLL {
        return *event == Event::Poll(now);
    }
    let packet = Packet {
        port,
        number,
        ..given
    };
    *event == Event::Arrive(packet, now)
}

// The next three losses.
fn reaped<P: Ledger, B: Ledger, R: Wait>(
    rt: &R,
    booked: &Mutex<Booked<P, B>>,
) -> [Option<Lost>; 3] {
    let mut locked = booked.lock(rt);
    [locked.reap(), locked.reap(), locked.reap()]
}

// Each packet that the queue had no room for comes back, and no other; three are queued.
fn assert_left<R: Abort>(rt: &R, row: &Row, lost: &[Option<Lost>; 3], given: Packet) {
    assert_totals(rt, row.refused, hundreds(2));
    assert_totals(rt, row.dropped, hundreds(0));
    assert_totals(rt, row.queued, hundreds(3));
    let cause = Cause::OverLimit;
    for nth in 0..2usize {
        let (port, number) = LOST[nth];
        let packet = Packet {
            port,
            number,
            ..given
        };
        assert_eq!(rt; lost[nth], Some(Lost { packet, cause }));
    }
    assert!(rt; lost[2].is_none());
}

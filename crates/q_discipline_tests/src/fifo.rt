//! One queue of packets, by the calls that it has by itself.
use q_codel::{Fifo, Limit, Losses};
use q_packet::{Cause, Ecn, FlowKey, Moment, Packet, Stamped};
use std::test::Fail;

// A call, and what it has to answer. Each packet has a number, and its time is that number.
#[derive(Clone, Copy)]
enum Call {
    // The number and the length of a packet, and whether it fits; if so, it is put.
    Put(u64, u16, bool),
    // The number of the packet in front, which stays; 0 where none is there.
    Head(u64),
    // The number of the packet that is taken; 0 where none is there.
    Take(u64),
    // The packets that are queued, and their bytes.
    Queued(u64, u64),
    SetLimit(Limit),
    // All packets are lost.
    Purge,
    // The number of the packet that was lost first of those that wait; 0 where none waits.
    Lost(u64),
}

fn stamped(number: u64, len: u16) -> Result<Stamped, Fail> {
    let packet = Packet::new(0, number, 0, len, FlowKey::zero(), 0, 0, Ecn::NotEct);
    let packet = packet.ok_or("a packet in range")?;
    let at = Moment::new(number).ok_or("a moment in range")?;
    Ok(Stamped { packet, at })
}

fn put(queue: &mut Fifo, stamped: Stamped) -> Result<bool, Fail> {
    queue.reserve()?;
    let packet = stamped.packet;
    let fits = queue.fits(packet.len);
    if fits {
        queue.put(stamped);
    }
    Ok(fits)
}

// Whether this is the packet with that number, put at the time of that number; with 0 whether it is none.
fn is(stamped: Option<Stamped>, number: u64) -> bool {
    match stamped {
        Some(stamped) => {
            let packet = stamped.packet;
            packet.number == number && stamped.at.ns() == number
        }
        None => number == 0,
    }
}

fn purge(queue: &mut Fifo, losses: &mut Losses) -> Result<bool, Fail> {
    losses.reserve(queue.count() as usize)?;
    if queue.count() > losses.room() {
        return Ok(false);
    }
    queue.purge(losses);
    Ok(true)
}

fn has_lost(losses: &mut Losses, number: u64) -> bool {
    match losses.reap() {
        Some(loss) => {
            let packet = loss.packet;
            packet.number == number && loss.cause == Cause::Purged
        }
        None => number == 0,
    }
}

fn answers(queue: &mut Fifo, losses: &mut Losses, call: Call) -> Result<bool, Fail> {
    Ok(match call {
        Call::Put(number, len, fits) => put(queue, stamped(number, len)?)? == fits,
        Call::Head(number) => is(queue.head(), number),
        Call::Take(number) => is(queue.take(), number),
        Call::Queued(packets, bytes) => queue.count() == packets && queue.bytes() == bytes,
        Call::SetLimit(limit) => {
            queue.set_limit(limit);
            queue.limit() == limit
        }
        Call::Purge => purge(queue, losses)?,
        Call::Lost(number) => has_lost(losses, number),
    })
}

// Fails at the first call that is not answered as it has to be, with its place.
fn play(queue: &mut Fifo, losses: &mut Losses, calls: &[Call]) -> Result<(), Fail> {
    let mut place = 0u64;
    for call in calls {
        if !answers(queue, losses, *call)? {
            return Err(Fail::new(format_args!("call {place}")));
        }
        place = place.saturating_add(1);
    }
    Ok(())
}

// Limits in packets and in bytes; packets leave in order, stay under a lower limit, and are lost in order. Then the queue is used again.
const CALLS: &[Call] = &[
    Call::Put(1, 65535, true),
    Call::Put(2, 1, false),
    Call::Take(1),
    Call::SetLimit(Limit::Packets(0)),
    Call::Put(1, 1, false),
    Call::SetLimit(Limit::Bytes(1000)),
    Call::Put(1, 1001, false),
    Call::Head(0),
    Call::Take(0),
    Call::Put(1, 200, true),
    Call::Put(2, 200, true),
    Call::Put(3, 200, true),
    Call::Put(4, 200, true),
    Call::Put(5, 200, true),
    Call::Put(6, 1, false),
    Call::Queued(5, 1000),
    Call::Head(1),
    Call::Take(1),
    Call::Head(2),
    Call::Take(2),
    Call::SetLimit(Limit::Packets(1)),
    Call::Queued(3, 600),
    Call::Head(3),
    Call::Purge,
    Call::Queued(0, 0),
    Call::Head(0),
    Call::Lost(3),
    Call::Lost(4),
    Call::Lost(5),
    Call::Lost(0),
    Call::Put(7, 100, true),
    Call::Take(7),
];

#[test]
fn packets_leave_in_order(rt: HostRuntime) -> Result<(), Fail> {
    let mut queue = Fifo::new(rt.alloc(), Limit::Packets(1));
    let mut losses = Losses::new(rt.alloc());
    play(&mut queue, &mut losses, CALLS)
}

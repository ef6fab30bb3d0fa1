//! More packets and events than 16 bits count: neither a queue, nor the list of losses, nor a play ends at 65,536.
use crate::device_bench::{Call, called};
use crate::lines::{Ask, New, Spot};
use q_device::Fate;
use q_packet::Cause;
use std::test::Fail;

// One more than 16 bits count, and a packet that finds no room.
const LIMIT: u32 = 65_537;

const QUEUED: u64 = LIMIT as u64;

const CALLS: u64 = 131_076;

// A pfifo is made, filled, overflows by one packet, and is emptied.
fn call_at(place: u64) -> Call {
    if place == 0 {
        return Call::Do(
            Ask::Graft(Spot::Root, 1, New::Pfifo(Some(LIMIT))),
            0,
            Ok(()),
        );
    }
    if place <= QUEUED {
        return Call::Arrive(place, 1, 0, 0, Fate::Kept);
    }
    if place == QUEUED + 1 {
        return Call::Arrive(place, 1, 0, 0, Fate::Lost(Cause::OverLimit));
    }
    Call::Poll(0, place.saturating_sub(QUEUED + 1), 1, 0)
}

fn add_calls(calls: &mut Vec<Call>) {
    for place in 0..CALLS {
        if calls.len() < calls.capacity() {
            calls.push_reserved(call_at(place));
        }
    }
}

#[test]
fn more_packets_than_16_bits_count(rt: HostRuntime) -> Result<(), Fail> {
    let mut calls = match Vec::with_capacity(rt.alloc(), CALLS as usize) {
        Ok(calls) => calls,
        Err(_) => Vec::with_capacity(rt.alloc(), CALLS as usize)?,
    };
    add_calls(&mut calls);
    assert!(rt; calls.len() as u64 == CALLS);
    called(rt.alloc(), calls.as_slice())
}

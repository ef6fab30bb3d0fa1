//! Sums over plays: what two classes of a drr send as their quanta, what a tbf spends, and what three packets at a pfifo of two come to.
use crate::device_bench::{Call, called, play_calls};
use crate::lines::{Ask, New, Spot};
use q_device::{Fate, Polled, Refusal, Reply};
use q_packet::Cause;
use std::alloc::Global;
use std::test::Fail;

const DONE: Result<(), Refusal> = Ok(());

const KEPT: Fate = Fate::Kept;

// Adds the bytes that polls gave of each priority below 3.
fn sums(replies: &[Reply]) -> [u64; 3] {
    let mut sums = [0u64; 3];
    for reply in replies {
        if let Reply::Polled(Polled::Packet(packet)) = reply {
            for (prio, sum) in sums.iter_mut().enumerate() {
                if prio == packet.prio as usize {
                    *sum = sum.saturating_add(u64::from(packet.len));
                }
            }
        }
    }
    sums
}

// Whether a device answers these calls, a play of their events too, and the polls of the play give so many bytes of each priority.
fn add_up(alloc: Global, calls: &[Call], wanted: [u64; 3]) -> Result<bool, Fail> {
    called(alloc, calls)?;
    let replies = play_calls(alloc, calls)?;
    Ok(sums(replies.as_slice()) == wanted)
}

// Class 1:1 has two grants and the same deficit at both ends; 1:2 has one, and uses the quantum that it began with.
const CLASSES: [Call; 36] = [
    Call::Do(Ask::Graft(Spot::Root, 1, New::Drr), 0, DONE),
    Call::Do(Ask::AddClass(1, 1, 1000), 0, DONE),
    Call::Do(Ask::AddClass(1, 2, 500), 0, DONE),
    Call::Do(Ask::Match(1, 1, Some(1)), 0, DONE),
    Call::Do(Ask::Match(1, 2, Some(2)), 0, DONE),
    Call::Arrive(1, 500, 1, 0, KEPT),
    Call::Arrive(2, 500, 1, 0, KEPT),
    Call::Arrive(3, 500, 1, 0, KEPT),
    Call::Arrive(4, 500, 1, 0, KEPT),
    Call::Arrive(5, 500, 1, 0, KEPT),
    Call::Arrive(6, 500, 1, 0, KEPT),
    Call::Arrive(7, 500, 1, 0, KEPT),
    Call::Arrive(8, 500, 1, 0, KEPT),
    Call::Arrive(9, 500, 1, 0, KEPT),
    Call::Arrive(10, 500, 1, 0, KEPT),
    Call::Arrive(11, 500, 2, 0, KEPT),
    Call::Arrive(12, 500, 2, 0, KEPT),
    Call::Arrive(13, 500, 2, 0, KEPT),
    Call::Arrive(14, 500, 2, 0, KEPT),
    Call::Arrive(15, 500, 2, 0, KEPT),
    Call::Arrive(16, 500, 2, 0, KEPT),
    Call::Arrive(17, 500, 2, 0, KEPT),
    Call::Arrive(18, 500, 2, 0, KEPT),
    Call::Arrive(19, 500, 2, 0, KEPT),
    Call::Arrive(20, 500, 2, 0, KEPT),
    Call::Deficit(0, 0, 1000),
    Call::Deficit(0, 1, 500),
    Call::Poll(0, 1, 500, 1),
    Call::Poll(0, 2, 500, 1),
    Call::Poll(0, 11, 500, 2),
    Call::Poll(0, 3, 500, 1),
    Call::Poll(0, 4, 500, 1),
    Call::Poll(0, 12, 500, 2),
    Call::Deficit(0, 0, 1000),
    Call::Deficit(0, 1, 0),
    Call::Bytes(Spot::Root, [10_000, 3000, 0]),
];

// A bucket of 1000 bytes gets one each nanosecond. An earlier time than the last does not count.
const BUCKET: [Call; 8] = [
    Call::Do(
        Ask::Graft(Spot::Root, 1, New::Shaper(8_000_000_000, 1000)),
        0,
        DONE,
    ),
    Call::Arrive(1, 1000, 1, 0, KEPT),
    Call::Arrive(2, 1000, 1, 0, KEPT),
    Call::Poll(0, 1, 1000, 1),
    Call::Later(999),
    Call::Later(5),
    Call::Poll(1000, 2, 1000, 1),
    Call::Bytes(Spot::Root, [2000, 2000, 0]),
];

const THREE_PACKETS: [Call; 8] = [
    Call::Do(Ask::Graft(Spot::Root, 1, New::Pfifo(Some(2))), 0, DONE),
    Call::Arrive(1, 100, 0, 0, KEPT),
    Call::Arrive(2, 200, 0, 0, KEPT),
    Call::Arrive(3, 300, 0, 0, Fate::Lost(Cause::OverLimit)),
    Call::Poll(0, 1, 100, 0),
    Call::Poll(0, 2, 200, 0),
    Call::Idle(0),
    Call::Bytes(Spot::Root, [600, 300, 300]),
];

#[test]
fn classes_send_as_their_quanta(rt: HostRuntime) -> Result<(), Fail> {
    let wanted = [0, 2 * 1000 + 1000 - 1000, 500 + 500];
    assert!(rt; add_up(rt.alloc(), &CLASSES, wanted)?);
    Ok(())
}

// The burst, and what the rate brings in 1000 nanoseconds.
#[test]
fn a_tbf_spends_its_burst_and_what_the_rate_brings(rt: HostRuntime) -> Result<(), Fail> {
    assert!(rt; add_up(rt.alloc(), &BUCKET, [0, 1000 + 1000, 0])?);
    Ok(())
}

#[test]
fn three_packets_at_a_pfifo_of_two(rt: HostRuntime) -> Result<(), Fail> {
    assert!(rt; add_up(rt.alloc(), &THREE_PACKETS, [600 - 300, 0, 0])?);
    Ok(())
}

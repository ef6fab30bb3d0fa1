//! CoDel's law on one queue.
use q_codel::{Codel, Fifo, Limit, Losses, Taken, gap};
use q_packet::{Cause, Ecn, FlowKey, Moment, Packet, Stamped};
use std::alloc::Global;
use std::test::Fail;

#[test]
fn gaps_are_exact(rt: HostRuntime) {
    let rows = [
        (100_000_000, 1, 100_000_000),
        (100_000_000, 2, 70_710_678),
        (100_000_000, 3, 57_735_026),
        (100_000_000, 4, 50_000_000),
        (100_000_000, 5, 44_721_359),
        (1000, 1_000_000, 1),
        (1000, 1_000_001, 0),
        (1_000_000_000_000, 1, 1_000_000_000_000),
        (1_000_000_000_000, u32::MAX, 15_258_789),
        (0, 1, 0),
    ];
    for (interval, count, want) in rows {
        assert!(rt; interval <= 1_000_000_000_000 && count >= 1);
        assert!(rt; gap(interval, count) == want, "gap({interval}, {count})");
    }
}

const MS: u64 = 1_000_000;
// The longest target and interval.
const LONGEST: u64 = 1_000_000 * MS;

// A packet of 1000 bytes.
fn packet(number: u64, ecn: Ecn) -> Result<Packet, Fail> {
    Ok(Packet::new(0, number, 0, 1000, FlowKey::zero(), 0, 0, ecn).ok_or("a packet in range")?)
}

fn at(ns: u64) -> Result<Moment, Fail> {
    Ok(Moment::new(ns).ok_or("a moment in range")?)
}

// A call on a queue with its CoDel, and what it has to answer. Times are in nanoseconds.
#[derive(Clone, Copy)]
enum Call {
    // Packets from the first number to the one before the second are put at time 0, with this codepoint.
    Put(u64, u64, Ecn),
    // The time, the number of the packet that is taken, 0 where there is none, and whether it is marked.
    Poll(u64, u64, bool),
    // The time of a take, whatever it gives.
    Take(u64),
    // The time of a take that loses one packet.
    TakeAndLoseOne(u64),
    // The number of the packet that CoDel dropped first of those that wait; 0 where none waits.
    Lost(u64),
    // How many losses wait.
    Losses(u64),
    // The target, the interval, and whether packets are marked.
    SetParams(u64, u64, bool),
    Rest,
    Dropping(bool),
    Count(u32),
    DropNext(u64),
    // The bytes that are queued.
    Bytes(u64),
}

// A queue under test, with its CoDel and its losses.
#[derive(Drop)]
struct Bench {
    queue: Fifo,
    codel: Codel,
    losses: Losses,
}

impl Bench {
    // A queue of packets of at most 1514 bytes, with this target and interval.
    fn new(alloc: Global, target: u64, interval: u64, ecn: bool) -> Result<Bench, Fail> {
        if target > LONGEST || interval < 1000 || interval > LONGEST {
            return Err(Fail::from("target or interval"));
        }
        Ok(Bench {
            queue: Fifo::new(alloc, Limit::Packets(10_000)),
            codel: Codel::new(target, interval, 1514, ecn),
            losses: Losses::new(alloc),
        })
    }

    // Puts one packet at time 0, and says whether it fits.
    fn put_one(&mut self, number: u64, ecn: Ecn) -> Result<bool, Fail> {
        let packet = packet(number, ecn)?;
        let at = Moment::zero();
        let queue = &mut self.queue;
        queue.reserve()?;
        if !queue.fits(packet.len) {
            return Ok(false);
        }
        queue.put(Stamped { packet, at });
        Ok(true)
    }

    fn put(&mut self, from: u64, to: u64, ecn: Ecn) -> Result<bool, Fail> {
        for number in from..to {
            if !self.put_one(number, ecn)? {
                return Ok(false);
            }
        }
        Ok(true)
    }

    // What is taken at this time, with room for all that may be lost.
    fn take(&mut self, ns: u64) -> Result<Option<Taken>, Fail> {
        let queue = &mut self.queue;
        let losses = &mut self.losses;
        let count = queue.count();
        losses.reserve(count as usize)?;
        if count > losses.room() {
            return Err(Fail::from("room"));
        }
        Ok(self.codel.take(queue, at(ns)?, losses))
    }

    // Whether this packet is taken at this time, and is marked or is not; with number 0 that none is.
    fn gives(&mut self, ns: u64, number: u64, marked: bool) -> Result<bool, Fail> {
        match self.take(ns)? {
            None => Ok(number == 0),
            Some(taken) => {
                let packet = taken.packet;
                Ok(packet.number == number && taken.marked == marked)
            }
        }
    }

    fn loses_one(&mut self, ns: u64) -> Result<bool, Fail> {
        let before = self.losses.count();
        self.take(ns)?;
        Ok(self.losses.count() == before.saturating_add(1))
    }

    fn has_lost(&mut self, number: u64) -> bool {
        match self.losses.reap() {
            None => number == 0,
            Some(loss) => {
                let packet = loss.packet;
                packet.number == number && loss.cause == Cause::CoDel
            }
        }
    }

    fn set_params(&mut self, target: u64, interval: u64, ecn: bool) -> bool {
        if target > LONGEST || interval < 1000 || interval > LONGEST {
            return false;
        }
        self.codel.set_params(target, interval, ecn);
        true
    }

    // Whether a call answers as it has to.
    fn answers(&mut self, call: Call) -> Result<bool, Fail> {
        match call {
            Call::Put(from, to, ecn) => self.put(from, to, ecn),
            Call::Poll(ns, number, marked) => self.gives(ns, number, marked),
            Call::Take(ns) => {
                self.take(ns)?;
                Ok(true)
            }
            Call::TakeAndLoseOne(ns) => self.loses_one(ns),
            Call::Lost(number) => Ok(self.has_lost(number)),
            Call::Losses(count) => Ok(self.losses.count() == count),
            Call::SetParams(target, interval, ecn) => Ok(self.set_params(target, interval, ecn)),
            Call::Rest => {
                self.codel.rest();
                Ok(true)
            }
            Call::Dropping(drops) => Ok(self.codel.is_dropping() == drops),
            Call::Count(count) => Ok(self.codel.count() == count),
            Call::DropNext(ns) => Ok(self.codel.drop_next() == ns),
            Call::Bytes(bytes) => Ok(self.queue.bytes() == bytes),
        }
    }

    // Fails at the first call that does not answer as it has to.
    fn play(&mut self, calls: &[Call]) -> Result<(), Fail> {
        let mut nth = 0u64;
        for call in calls {
            if !self.answers(*call)? {
                return Err(Fail::new(format_args!("call {nth} of the table")));
            }
            nth = nth.saturating_add(1);
        }
        Ok(())
    }
}

// Plays these calls on a new queue.
fn play(
    alloc: Global,
    (target, interval, ecn): (u64, u64, bool),
    calls: &[Call],
) -> Result<(), Fail> {
    Bench::new(alloc, target, interval, ecn)?.play(calls)
}

#[test]
fn drops_at_the_moments_of_the_control_law(rt: HostRuntime) -> Result<(), Fail> {
    play(
        rt.alloc(),
        (5 * MS, 100 * MS, false),
        &[
            Call::Put(1, 11, Ecn::NotEct),
            Call::Poll(10_000_000, 1, false),
            Call::Poll(110_000_000, 3, false),
            Call::Poll(210_000_000, 5, false),
            Call::Poll(280_710_677, 6, false),
            Call::Poll(280_710_678, 8, false),
            Call::Poll(338_445_704, 9, false),
            Call::Poll(338_445_704, 10, false),
            Call::Poll(338_445_704, 0, false),
            Call::Lost(2),
            Call::Lost(4),
            Call::Lost(7),
            Call::Lost(0),
            Call::Dropping(false),
        ],
    )
}

#[test]
fn marks_in_place_of_drops(rt: HostRuntime) -> Result<(), Fail> {
    play(
        rt.alloc(),
        (5 * MS, 100 * MS, true),
        &[
            Call::Put(1, 11, Ecn::Ect0),
            Call::Poll(10_000_000, 1, false),
            Call::Poll(110_000_000, 2, true),
            Call::Poll(210_000_000, 3, true),
            Call::Poll(280_710_677, 4, false),
            Call::Poll(280_710_678, 5, true),
            Call::Poll(338_445_704, 6, true),
            Call::Poll(338_445_704, 7, false),
            Call::Poll(338_445_704, 8, false),
            Call::Lost(0),
            Call::DropNext(388_445_704),
        ],
    )
}

#[test]
fn drops_what_cannot_be_marked(rt: HostRuntime) -> Result<(), Fail> {
    play(
        rt.alloc(),
        (5 * MS, 100 * MS, true),
        &[
            Call::Put(1, 3, Ecn::Ect0),
            Call::Put(3, 4, Ecn::NotEct),
            Call::Put(4, 11, Ecn::Ect0),
            Call::Poll(10_000_000, 1, false),
            Call::Poll(110_000_000, 2, true),
            Call::Poll(300_000_000, 4, true),
            Call::Lost(3),
            Call::Lost(0),
            Call::DropNext(338_445_704),
        ],
    )
}

// What a second take gives, of packets whose transport takes part in ECN.
fn second_taken(alloc: Global) -> Result<Option<Taken>, Fail> {
    let mut bench = Bench::new(alloc, 0, 100 * MS, true)?;
    bench.put(1, 11, Ecn::Ect1)?;
    bench.take(0)?;
    bench.take(100 * MS)
}

#[test]
fn a_mark_is_seen_in_the_packet(rt: HostRuntime) -> Result<(), Fail> {
    let marked = Taken {
        packet: packet(2, Ecn::Ce)?,
        marked: true,
    };
    assert_eq!(rt; second_taken(rt.alloc())?, Some(marked));
    Ok(())
}

// What CoDel's count is, and when it drops next.
type State = (u32, u64);

/// A CoDel drops until it has a count, and then comes to rest; its queue stands again, and one packet is dropped.
///
/// It drops for the first time up to a count of 5, and at 510 ms for a second time, with a count that begins at 4. Takes at
/// the two times let it go on, the second with this interval. That leaves the first state; the drop at `now` leaves the
/// second.
fn drops_again(
    alloc: Global,
    [first, second]: [u64; 2],
    interval: u64,
    (count, drop_next): State,
    now: u64,
    (resumed, resumed_next): State,
) -> Result<(), Fail> {
    play(
        alloc,
        (5 * MS, 100 * MS, false),
        &[
            Call::Put(1, 61, Ecn::NotEct),
            Call::Take(10 * MS),
            Call::Take(110 * MS),
            Call::Take(400 * MS),
            Call::Count(5),
            Call::DropNext(433_167_063),
            Call::Rest,
            Call::Take(410 * MS),
            Call::Take(510 * MS),
            Call::Count(4),
            Call::DropNext(560 * MS),
            Call::Take(first),
            Call::SetParams(5 * MS, interval, false),
            Call::Take(second),
            Call::SetParams(5 * MS, 100 * MS, false),
            Call::Rest,
            Call::Take(750 * MS),
            Call::Dropping(false),
            Call::Count(count),
            Call::DropNext(drop_next),
            Call::TakeAndLoseOne(now),
            Call::Dropping(true),
            Call::Count(resumed),
            Call::DropNext(resumed_next),
        ],
    )
}

// One packet is dropped after a time of dropping that ended, and the count goes on or begins anew. The columns: the times
// and the interval of the last drops, what they leave, the time of the drop, and what it leaves.
#[test]
fn a_count_is_resumed_within_16_intervals(rt: HostRuntime) -> Result<(), Fail> {
    let nine = [700 * MS, 740 * MS];
    let soon = [700 * MS, 720 * MS];
    let five = [570 * MS, 575 * MS];
    for (moments, interval, left, now, resumed) in [
        (
            nine,
            100 * MS,
            (9, 752_031_307),
            1000 * MS,
            (5, 1_044_721_359),
        ),
        (
            nine,
            100 * MS,
            (9, 752_031_307),
            2_352_031_306,
            (5, 2_396_752_665),
        ),
        (
            nine,
            100 * MS,
            (9, 752_031_307),
            2_352_031_307,
            (1, 2_452_031_307),
        ),
        (
            soon,
            10_000 * MS,
            (9, 4_052_031_307),
            1000 * MS,
            (5, 1_044_721_359),
        ),
        (five, 100 * MS, (5, 604_721_359), 1000 * MS, (1, 1100 * MS)),
    ] {
        drops_again(rt.alloc(), moments, interval, left, now, resumed)?;
    }
    Ok(())
}

#[test]
fn a_target_of_zero_is_always_passed(rt: HostRuntime) -> Result<(), Fail> {
    play(
        rt.alloc(),
        (0, 100 * MS, false),
        &[
            Call::Put(1, 6, Ecn::NotEct),
            Call::Poll(0, 1, false),
            Call::Poll(100 * MS, 3, false),
            Call::Poll(100 * MS, 4, false),
            Call::Poll(200 * MS, 5, false),
            Call::Lost(2),
            Call::Lost(0),
        ],
    )
}

#[test]
fn the_shortest_interval(rt: HostRuntime) -> Result<(), Fail> {
    play(
        rt.alloc(),
        (0, 1000, false),
        &[
            Call::Put(1, 11, Ecn::NotEct),
            Call::Poll(0, 1, false),
            Call::Poll(1000, 3, false),
            Call::Poll(2000, 5, false),
            Call::Poll(2500, 6, false),
            Call::Poll(2700, 7, false),
            Call::Lost(2),
            Call::Lost(4),
            Call::Lost(0),
            Call::DropNext(2707),
        ],
    )
}

#[test]
fn one_take_drops_hundreds(rt: HostRuntime) -> Result<(), Fail> {
    play(
        rt.alloc(),
        (5 * MS, 1000, false),
        &[
            Call::Put(1, 5001, Ecn::NotEct),
            Call::Poll(10_000_000, 1, false),
            Call::Poll(10_001_000, 3, false),
            Call::Poll(10_050_000, 647, false),
            Call::Losses(644),
            Call::DropNext(10_050_002),
            Call::Bytes(4_353_000),
        ],
    )
}

#[test]
fn settings_change_and_state_is_put_aside(rt: HostRuntime) -> Result<(), Fail> {
    play(
        rt.alloc(),
        (0, 1000, false),
        &[
            Call::Put(1, 11, Ecn::NotEct),
            Call::Poll(0, 1, false),
            Call::Poll(1000, 3, false),
            Call::Lost(2),
            Call::Lost(0),
            Call::SetParams(5 * MS, 100 * MS, true),
            Call::Dropping(true),
            Call::Rest,
            Call::Dropping(false),
            Call::Count(1),
        ],
    )
}

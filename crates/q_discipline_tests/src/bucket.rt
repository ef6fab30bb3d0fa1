//! The token bucket, at worked times.
ghost use Rattle.std.specs.Prelude.{◌≤◌, IfSome};

use q_bucket::Bucket;
use q_packet::Moment;
use std::test::Fail;

// A call, and what it has to answer. Times are in nanoseconds, lengths and bursts in bytes, rates in bits a second.
#[derive(Clone, Copy)]
enum Call {
    // The time, the length, and whether the packet goes.
    Spend(u64, u16, bool),
    // The length, and the least time at which such a packet may go.
    Ready(u16, Option<u64>),
    // The time, and the level in units of 1/(8*10^9) byte.
    Level(u64, u128),
    // The time, and the rate and the burst from then on.
    Change(u64, u64, u32),
}

// This time, where the bucket may be asked at it.
fn in_order(bucket: &Bucket, ns: u64) -> Option<Moment>
    ensures { IfSome result (λ at. bucket.now.last ≤ at) }
{
    let last = bucket.ready_at(0)?;
    let now = Moment::new(ns)?;
    if now < last { None } else { Some(now) }
}

// A bucket that is full at time 0.
fn full(rate: u64, burst: u32) -> Option<Bucket> {
    if rate < 1 || rate > 1_000_000_000_000 || burst < 1 {
        return None;
    }
    Some(Bucket::new(rate, burst, Moment::zero()))
}

fn spends(bucket: &mut Bucket, ns: u64, len: u16) -> Option<bool> {
    let now = in_order(bucket, ns)?;
    Some(bucket.spend(now, len))
}

fn level_at(bucket: &Bucket, ns: u64) -> Option<u128> {
    let now = in_order(bucket, ns)?;
    Some(bucket.level_at(now))
}

fn ready_at(bucket: &Bucket, len: u16) -> Option<u64> {
    Some(bucket.ready_at(len)?.ns())
}

// Whether a change is there to be seen.
fn changes(bucket: &mut Bucket, ns: u64, rate: u64, burst: u32) -> Option<bool> {
    let now = in_order(bucket, ns)?;
    if rate < 1 || rate > 1_000_000_000_000 || burst < 1 {
        return None;
    }
    bucket.change(rate, burst, now);
    Some(bucket.rate() == rate && bucket.burst() == burst)
}

// Whether a call answers as it has to.
fn answers(bucket: &mut Bucket, call: Call) -> bool {
    match call {
        Call::Spend(ns, len, goes) => spends(bucket, ns, len) == Some(goes),
        Call::Ready(len, ns) => ready_at(bucket, len) == ns,
        Call::Level(ns, level) => level_at(bucket, ns) == Some(level),
        Call::Change(ns, rate, burst) => changes(bucket, ns, rate, burst) == Some(true),
    }
}

// Fails at the first call that does not answer as it has to.
fn go_on(bucket: &mut Bucket, calls: &[Call]) -> Result<(), Fail> {
    let mut nth = 0u64;
    for call in calls {
        if !answers(bucket, *call) {
            return Err(Fail::new(format_args!("call {nth} of the table")));
        }
        nth = nth.saturating_add(1);
    }
    Ok(())
}

// Plays these calls on a bucket that is full at time 0.
fn play(rate: u64, burst: u32, calls: &[Call]) -> Result<(), Fail> {
    go_on(&mut full(rate, burst).ok_or("rate or burst")?, calls)
}

#[test]
fn three_bits_a_second() -> Result<(), Fail> {
    play(
        3,
        2,
        &[
            Call::Spend(0, 2, true),
            Call::Ready(1, Some(2_666_666_667)),
            Call::Spend(2_666_666_666, 1, false),
            Call::Spend(2_666_666_667, 1, true),
            Call::Level(2_666_666_667, 1),
            Call::Ready(3, None),
        ],
    )
}

#[test]
fn second_packet_goes_when_its_bytes_have_come() -> Result<(), Fail> {
    play(
        8000,
        1500,
        &[
            Call::Spend(0, 1000, true),
            Call::Ready(1000, Some(500_000_000)),
            Call::Spend(499_999_999, 1000, false),
            Call::Spend(500_000_000, 1000, true),
        ],
    )?;
    play(
        8_000_000_000,
        1000,
        &[
            Call::Spend(0, 1000, true),
            Call::Ready(1000, Some(1000)),
            Call::Spend(999, 1000, false),
            Call::Spend(1000, 1000, true),
        ],
    )
}

#[test]
fn change_fills_then_cuts() -> Result<(), Fail> {
    play(
        8000,
        1500,
        &[
            Call::Spend(0, 1500, true),
            Call::Change(1_000_000_000, 16000, 500),
            Call::Level(1_000_000_000, 500 * 8_000_000_000),
            Call::Change(1_000_000_000, 16000, 1500),
            Call::Ready(1500, Some(1_500_000_000)),
        ],
    )
}

#[test]
fn ends_of_the_ranges() -> Result<(), Fail> {
    play(
        1,
        1,
        &[
            Call::Spend(0, 1, true),
            Call::Ready(1, Some(8_000_000_000)),
            Call::Level(7_999_999_999, 7_999_999_999),
            Call::Level(1 << 62, 8_000_000_000),
            Call::Spend(1 << 62, 1, true),
            Call::Ready(1, None),
            Call::Ready(0, Some(1 << 62)),
        ],
    )?;
    play(
        1_000_000_000_000,
        u32::MAX,
        &[
            Call::Spend(0, u16::MAX, true),
            Call::Level(0, 34_359_738_360_000_000_000 - 524_280_000_000_000),
            Call::Level(525, 34_359_738_360_000_000_000),
            Call::Level(1 << 62, 34_359_738_360_000_000_000),
        ],
    )?;
    play(
        1_000_000_000_000,
        1,
        &[Call::Spend(0, 1, true), Call::Ready(1, Some(1))],
    )
}

ghost use Rattle.std.specs.Prelude.{◌≡◌, ◌≤◌, ◌<◌, ◌^◌, ◌*◌, ◌+◌, ◌-◌, ℕ, min, true, false, IfSome, IfNone};
ghost use Rattle.std.specs.Bool.{OnFalse};
ghost use Rattle.q_bucket.specs.Level.{units_in_byte};

use q_packet::Moment;
use std::marker::Model;

/// How many units of level make a byte. One bit a second brings one unit in each nanosecond.
const UNITS_IN_BYTE: u64 = 8_000_000_000;

/// A token bucket: it fills at a rate up to a burst, and a packet goes where the bucket holds its length.
///
/// Rates are 1 to 10^12 bits a second and bursts 1 to 2^32 - 1 bytes. The times that its caller passes never fall: each is
/// at or after the last true spend, the last change and the making of the bucket, which is the `last` of its contracts.
#[derive(Debug, Drop)]
pub struct Bucket {
    rate: u64,
    last: Moment,
    /// What the rate will have brought from time 0 on when the bucket is full again, in units. With the level in this form a spend
    /// keeps one sum, and takes one product by a time.
    full_at: u128,
    /// The level of a full bucket, in units. It is kept, since a product would hold up the next spend.
    capacity: u128,
    burst: u32,
}

impl Model for Bucket {
    ghost use Rattle.std.specs.Prelude.{◌≡◌, ◌≤◌, ◌+◌, ◌-◌, ◌*◌};
    ghost use Rattle.q_bucket.specs.Level.{TokenBucket, IsInRange, units_in_byte};

    ghost Value = { TokenBucket };

    ghost view = { λ b. record {
      rate = b.rate;
      burst = b.burst;
      level = b.capacity - (b.full_at - b.rate * b.last);
      last = b.last;
    } };

    ghost invariant = { λ b. IsInRange
        (record { rate = b.rate; burst = b.burst; level = b.capacity - (b.full_at - b.rate * b.last); last = b.last })
        × (b.capacity ≡ b.burst * units_in_byte)
        × (b.rate * b.last ≤ b.full_at)
        × (b.full_at ≤ b.rate * b.last + b.capacity) };
}

impl Bucket {
    ghost use Rattle.q_bucket.specs.Level.{full, capacity, level_at, allows, after_spend, after_change, IsInRange};

    /// A full bucket of `rate_bits` bits a second, 1 to 10^12, and `burst` bytes, at least 1.
    pub fn new(rate_bits: u64, burst: u32, now: Moment) -> Bucket
        requires rate_from { 1 ≤ rate_bits }
        requires rate_to { rate_bits ≤ 10 ^ 12 }
        requires burst_from { 1 ≤ burst }
        ensures { result ≡ full rate_bits burst now }
    {
        Bucket::at_level(rate_bits, burst, capacity_of(burst), now)
    }

    // A bucket with this level at `now`.
    fn at_level(rate: u64, burst: u32, level: u128, now: Moment) -> Bucket
        requires rate_from { 1 ≤ rate }
        requires rate_to { rate ≤ 10 ^ 12 }
        requires burst_from { 1 ≤ burst }
        requires within_burst { level ≤ burst * units_in_byte }
        ensures { result ≡ record { rate = rate; burst = burst; level = level; last = now } }
    {
        let capacity = capacity_of(burst);
        Bucket {
            rate,
            last: now,
            full_at: brought_at(rate, now) + (capacity - level),
            capacity,
            burst,
        }
    }

    /// The level at `now`, in units of 1/(8*10^9) byte: what was there, and what the rate has brought since, up to the burst.
    /// Nothing is rounded.
    pub fn level_at(&self, now: Moment) -> u128
        requires order { self.now.last ≤ now }
        ensures { result ≡ level_at self.now now }
    {
        self.capacity - self.missing_at(brought_at(self.rate, now))
    }

    // What a full bucket has more, at the time up to which the rate has brought so much.
    fn missing_at(&self, brought: u128) -> u128
        requires order { self.now.rate * self.now.last ≤ brought }
        ensures level { self.now.burst * units_in_byte - result ≡ min (capacity self.now) (self.now.level + (brought - self.now.rate * self.now.last)) }
        ensures within_burst { result ≤ self.now.burst * units_in_byte }
    {
        self.full_at.saturating_sub(brought)
    }

    /// May a packet of `len` bytes go at `now`? If so, its length is taken and `now` is the new `last`; if not, the bucket stays
    /// as it was.
    pub fn spend(&mut self, now: Moment, len: u16) -> bool
        requires order { self.old.last ≤ now }
        ensures answer { result ≡ allows self.old now len }
        ensures after { self.new ≡ after_spend self.old now len }
        ensures kept { OnFalse result (self.new ≡ self.old) }
    {
        let brought = brought_at(self.rate, now);
        let missing = self.missing_at(brought) + u128::from(u64::from(len) * UNITS_IN_BYTE);
        if missing > self.capacity {
            return false;
        }
        self.full_at = brought + missing;
        self.last = now;
        true
    }

    /// The earliest time, from `last` on, at which a packet of `len` bytes may go.
    ///
    /// `None` if there is no such time: the packet is longer than the burst, or the time would be past the latest one.
    ///
    /// ```
    /// // 8 Mbit/s are a byte a microsecond: after 1500 of 2000 bytes, the next 1500 lack 1000, and so a millisecond.
    /// let mut bucket = Bucket::new(8_000_000, 2000, Moment::zero());
    /// bucket.spend(Moment::zero(), 1500);
    /// let then = bucket.ready_at(1500);    // at 1,000,000 ns
    /// ```
    pub fn ready_at(&self, len: u16) -> Option<Moment>
        ensures from { IfSome result (λ at. self.now.last ≤ at) }
        ensures ready { IfSome result (λ at. allows self.now at len ≡ true) }
        ensures no_earlier { IfSome result
            (λ at. (t : ℕ) → self.now.last ≤ t → t < at → allows self.now t len ≡ false) }
        ensures never { IfNone result
            ((t : ℕ) → self.now.last ≤ t → t ≤ 2 ^ 62 → allows self.now t len ≡ false) }
    {
        if u32::from(len) > self.burst {
            return None;
        }
        let cost = u64::from(len) * UNITS_IN_BYTE;
        let level = self.level_at(self.last);
        if u128::from(cost) <= level {
            return Some(self.last);
        }
        let missing = cost - level as u64;
        let wait = nanoseconds_for(missing, self.rate);
        Moment::new(self.last.ns() + wait)
    }

    /// Gives the bucket another rate and burst, as [`Bucket::changed`] says.
    pub fn change(&mut self, rate: u64, burst: u32, now: Moment)
        requires rate_from { 1 ≤ rate }
        requires rate_to { rate ≤ 10 ^ 12 }
        requires burst_from { 1 ≤ burst }
        requires order { self.old.last ≤ now }
        ensures { self.new ≡ after_change self.old rate burst now }
    {
        *self = self.changed(rate, burst, now);
    }

    /// The bucket with another rate and burst, in the ranges of [`Bucket::new`].
    ///
    /// It first fills at the old rate up to `now`, within the old burst; what the new burst cannot hold is lost. No change
    /// raises the level.
    pub fn changed(&self, rate: u64, burst: u32, now: Moment) -> Bucket
        requires rate_from { 1 ≤ rate }
        requires rate_to { rate ≤ 10 ^ 12 }
        requires burst_from { 1 ≤ burst }
        requires order { self.now.last ≤ now }
        ensures { result ≡ after_change self.now rate burst now }
    {
        let filled = self.level_at(now);
        let level = capacity_of(burst).min(filled);
        Bucket::at_level(rate, burst, level, now)
    }

    /// The rate, in bits a second.
    pub fn rate(&self) -> u64
        ensures value { result ≡ self.now.rate }
        ensures in_range { IsInRange self.now }
    {
        self.rate
    }

    /// The burst, in bytes.
    pub fn burst(&self) -> u32
        ensures value { result ≡ self.now.burst }
        ensures in_range { IsInRange self.now }
    {
        self.burst
    }
}

/// The level of a full bucket of this burst.
fn capacity_of(burst: u32) -> u128
    ensures { result ≡ burst * units_in_byte }
{
    u128::from(burst) * u128::from(UNITS_IN_BYTE)
}

/// What a rate brings from time 0 on.
fn brought_at(rate: u64, now: Moment) -> u128
    ensures { result ≡ rate * now }
{
    u128::from(rate) * u128::from(now.ns())
}

/// The least number of nanoseconds in which the rate brings the units that are missing.
fn nanoseconds_for(missing: u64, rate: u64) -> u64
    requires { 1 ≤ rate }
    ensures enough { missing ≤ rate * result }
    ensures least { (shorter : ℕ) → shorter < result → rate * shorter < missing }
{
    missing.div_ceil(rate)
}

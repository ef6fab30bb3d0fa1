ghost use Rattle.std.specs.Prelude.{◌≡◌, ◌≤◌, ◌+◌, ◌*◌, ◌^◌, nat_lt};
ghost use Rattle.q_codel.specs.Gap.{gap_of, IsGap};

/// The time from one drop to the next at this count, in nanoseconds: `interval` over the square root of `count`, rounded
/// down (RFC 8289, section 5.6; section 3.3 says why it is the root).
///
/// For 100 ms it is 100,000,000 ns at a count of 1, and 70,710,678 at 2. It is exact: the greatest `d` with `d * d * count <= interval * interval`. `interval` is in nanoseconds, at most
/// 10^12 (1000 s), and `count` at least 1.
pub fn gap(interval: u64, count: u32) -> u64
    requires counted { 1 ≤ count }
    requires in_range { interval ≤ 10 ^ 12 }
    ensures greatest { IsGap interval count result }
    ensures at_most { result ≤ interval }
    ensures value { result ≡ gap_of interval count }
{
    // A root of 53 bits is within one of the answer, so that each loop runs at most once.
    let quotient = interval as f64 / (count as f64).sqrt();
    let mut d = whole_part(quotient).min(interval);
    while is_too_long(d, interval, count) {
        d -= 1;
    }
    while d < interval && !is_too_long(d + 1, interval, count) {
        d += 1;
    }
    d
}

// The whole part of `x`, or a number beside it; of no meaning past 2^52.
//
// From 2^52 on, a float's last bit is worth 1: so the low 52 bits of the sum are x - 1/2, rounded to a whole number.
fn whole_part(x: f64) -> u64 {
    let sum = x + 4503599627370495.5;
    if sum >= 4503599627370496.0 {
        sum.to_bits() & 0xf_ffff_ffff_ffff
    } else {
        0
    }
}

// Whether d² count exceeds interval².
fn is_too_long(d: u64, interval: u64, count: u32) -> bool
    requires within { d ≤ interval }
    requires in_range { interval ≤ 10 ^ 12 }
    ensures { result ≡ nat_lt (interval * interval) (d * d * count) }
{
    d as u128 * d as u128 * count as u128 > interval as u128 * interval as u128
}

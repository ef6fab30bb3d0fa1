ghost use Rattle.std.specs.Prelude.{◌≡◌, ◌<◌, ◌^◌, ◌-◌, ◌≤◌, not, IfOk, IfSome, Err, drop, length, map, if◌then◌else◌};
ghost use Rattle.std.specs.List.{position};
ghost use Rattle.std.specs.Option.{option_map_or};
ghost use Rattle.std.specs.Str.{bytes_eq, str_to_ascii_lowercase};
ghost use Rattle.q_model.specs.Numbers.{IsWithin};
ghost use Rattle.q_words.specs.Units.{factor_of, in_range, is_decimal, is_of_decimal, number_part, rate_in, rate_units, size_in, size_units, small, time_in, time_units, times_factor};
ghost use Rattle.q_words.specs.Decimals.{IsFactor, times};
ghost use Rattle.q_words.specs.declared.wrong.Wrong.TheVariants.{BadNumber};

use crate::decimals::{Decimal, read_decimal};
use crate::wrong::Wrong;

/// The greatest rate, in bits a second.
const MAX_RATE: u64 = 1_000_000_000_000;

/// The greatest value that is read where no option has a range of its own. A decimal above 64 bits counts as 2^64 - 1.
const MOST: u64 = u64::MAX - 1;

/// RATE: a decimal with a unit, rounded down to bits a second, 1 to 10^12.
///
/// Another form is `BadNumber`, a value outside the range `OutOfRange`.
pub fn read_rate(word: &[u8]) -> Result<u64, Wrong>
    ensures value { result ≡ rate_in word.now }
    ensures in_range { IfOk result (IsWithin 1 (10 ^ 12)) }
{
    let (number, suffix) = cut_number(word);
    in_units(number, rate_factor(suffix), 1, MAX_RATE)
}

/// SIZE: a decimal with a unit, rounded down to bytes, at most 2^64 - 2.
///
/// Another form is `BadNumber`, a greater value `OutOfRange`.
pub fn read_size(word: &[u8]) -> Result<u64, Wrong>
    ensures value { result ≡ size_in 0 (2 ^ 64 - 2) word.now }
    ensures in_range { IfOk result (IsWithin 0 (2 ^ 64 - 2)) }
{
    size_within(word, 0, MOST)
}

/// SIZE as [`read_size`] reads it, from `low` to `high`.
///
/// Another form is `BadNumber`, a value outside the range `OutOfRange`.
pub fn size_within(word: &[u8], low: u64, high: u64) -> Result<u64, Wrong>
    requires { high < 2 ^ 64 - 1 }
    ensures value { result ≡ size_in low high word.now }
    ensures in_range { IfOk result (IsWithin low high) }
{
    let (number, suffix) = cut_number(word);
    in_units(number, size_factor(suffix), low, high)
}

/// TIME: a decimal with a unit, rounded down to nanoseconds, at most 2^64 - 2.
///
/// Another form is `BadNumber`, a greater value `OutOfRange`.
pub fn read_time(word: &[u8]) -> Result<u64, Wrong>
    ensures value { result ≡ time_in 0 (2 ^ 64 - 2) word.now }
    ensures in_range { IfOk result (IsWithin 0 (2 ^ 64 - 2)) }
{
    time_within(word, 0, MOST)
}

/// TIME as [`read_time`] reads it, from `low` to `high`.
///
/// Another form is `BadNumber`, a value outside the range `OutOfRange`.
pub fn time_within(word: &[u8], low: u64, high: u64) -> Result<u64, Wrong>
    requires { high < 2 ^ 64 - 1 }
    ensures value { result ≡ time_in low high word.now }
    ensures in_range { IfOk result (IsWithin low high) }
{
    let (number, suffix) = cut_number(word);
    in_units(number, time_factor(suffix), low, high)
}

/// The digits and points that a word begins with, and the bytes behind them.
fn cut_number(word: &[u8]) -> (&[u8], &[u8])
    ensures number { result.0.now ≡ number_part word.now }
    ensures suffix { result.1.now ≡ drop (length (number_part word.now)) word.now }
{
    let end = first_other(word).unwrap_or(word.len());
    word.split_at(end)
}

/// The place of the first byte that no decimal has.
fn first_other(word: &[u8]) -> Option<usize>
    ensures { result ≡ position (λ b. not (is_of_decimal b)) word.now }
{
    word.iter()
        .position(|byte| !(byte.is_ascii_digit() || *byte == b'.'))
}

/// A decimal times the factor of its unit, where the unit is known; the range is that of the value.
fn in_units(number: &[u8], factor: Option<u64>, low: u64, high: u64) -> Result<u64, Wrong>
    requires small { high < 2 ^ 64 - 1 }
    requires factor { IfSome factor IsFactor }
    ensures value { result ≡ (if is_decimal number.now
        then option_map_or (λ f. in_range low high (times_factor number.now f)) factor (Err BadNumber) else Err BadNumber) }
    ensures in_range { IfOk result (IsWithin low high) }
{
    let Some(decimal) = read_decimal(number) else {
        return Err(Wrong::BadNumber);
    };
    let Some(factor) = factor else {
        return Err(Wrong::BadNumber);
    };
    within(times(decimal, factor), low, high)
}

/// A value from `low` to `high`.
fn within(value: u128, low: u64, high: u64) -> Result<u64, Wrong>
    ensures value { result ≡ in_range low high value }
    ensures in_range { IfOk result (IsWithin low high) }
{
    if u128::from(low) <= value && value <= u128::from(high) {
        Ok(value as u64)
    } else {
        Err(Wrong::OutOfRange)
    }
}

/// So many units, rounded down.
fn times(decimal: Decimal, factor: u64) -> u128
    requires places { decimal.places ≤ 9 }
    requires factor { IsFactor factor }
    ensures { result ≡ times decimal factor }
{
    let whole = u128::from(decimal.whole) * u128::from(factor);
    let behind = u128::from(decimal.behind) * u128::from(factor);
    whole + behind / 10_u128.pow(decimal.places)
}

/// Whether a suffix is this unit, in any ASCII case.
fn is_unit(suffix: &[u8], unit: &[u8]) -> bool
    requires { str_to_ascii_lowercase unit.now ≡ unit.now }
    ensures { result ≡ bytes_eq (map small suffix.now) unit.now }
{
    suffix.eq_ignore_ascii_case(unit)
}

/// The bits a second of a unit.
fn rate_factor(suffix: &[u8]) -> Option<u64>
    ensures value { result ≡ factor_of rate_units (map small suffix.now) }
    ensures in_range { IfSome result IsFactor }
{
    if is_unit(suffix, b"") || is_unit(suffix, b"bit") {
        return Some(1);
    }
    if is_unit(suffix, b"kbit") {
        return Some(1_000);
    }
    if is_unit(suffix, b"mbit") {
        return Some(1_000_000);
    }
    if is_unit(suffix, b"gbit") {
        return Some(1_000_000_000);
    }
    if is_unit(suffix, b"tbit") {
        return Some(1_000_000_000_000);
    }
    if is_unit(suffix, b"bps") {
        return Some(8);
    }
    if is_unit(suffix, b"kbps") {
        return Some(8_000);
    }
    if is_unit(suffix, b"mbps") {
        return Some(8_000_000);
    }
    if is_unit(suffix, b"gbps") {
        return Some(8_000_000_000);
    }
    if is_unit(suffix, b"tbps") {
        return Some(8_000_000_000_000);
    }
    None
}

/// The bytes of a unit.
fn size_factor(suffix: &[u8]) -> Option<u64>
    ensures value { result ≡ factor_of size_units (map small suffix.now) }
    ensures in_range { IfSome result IsFactor }
{
    if is_unit(suffix, b"") || is_unit(suffix, b"b") {
        return Some(1);
    }
    if is_unit(suffix, b"k") || is_unit(suffix, b"kb") {
        return Some(1_024);
    }
    if is_unit(suffix, b"m") || is_unit(suffix, b"mb") {
        return Some(1_048_576);
    }
    if is_unit(suffix, b"g") || is_unit(suffix, b"gb") {
        return Some(1_073_741_824);
    }
    if is_unit(suffix, b"kbit") {
        return Some(128);
    }
    if is_unit(suffix, b"mbit") {
        return Some(131_072);
    }
    if is_unit(suffix, b"gbit") {
        return Some(134_217_728);
    }
    None
}

/// The nanoseconds of a unit.
fn time_factor(suffix: &[u8]) -> Option<u64>
    ensures value { result ≡ factor_of time_units (map small suffix.now) }
    ensures in_range { IfSome result IsFactor }
{
    if is_unit(suffix, b"")
        || is_unit(suffix, b"us")
        || is_unit(suffix, b"usec")
        || is_unit(suffix, b"usecs")
    {
        return Some(1_000);
    }
    if is_unit(suffix, b"ms") || is_unit(suffix, b"msec") || is_unit(suffix, b"msecs") {
        return Some(1_000_000);
    }
    if is_unit(suffix, b"s") || is_unit(suffix, b"sec") || is_unit(suffix, b"secs") {
        return Some(1_000_000_000);
    }
    None
}

//! Which qdisc can be changed into which, and what a line would say to make one.
use q_fqcodel::Settings;
use q_model::{Burst, FqCodelOptions, Kind, Latency, PrioOptions, QdiscView, Rate, TbfLimit};

/// Units of a tbf's rate in a byte: bits in a byte, and nanoseconds in a second.
const UNITS_IN_BYTE: u128 = 8_000_000_000;

/// Whether a change makes one qdisc of the other. The flows of an fq_codel stay, and the burst of a tbf may not fall below both what it
/// was and the mtu; no change brings back a limit that no line can name.
pub(crate) fn can_become(from: &QdiscView, to: &QdiscView, mtu: u16) -> bool {
    match (from, to) {
        (QdiscView::Pfifo { limit: old }, QdiscView::Pfifo { limit })
        | (QdiscView::Bfifo { limit: old }, QdiscView::Bfifo { limit }) => {
            *limit <= u64::from(u32::MAX) || *limit == *old
        }
        (QdiscView::Prio { .. }, QdiscView::Prio { .. }) => true,
        (QdiscView::Tbf { burst: old, .. }, QdiscView::Tbf { burst, .. }) => {
            *burst >= (*old).min(u32::from(mtu))
        }
        (QdiscView::Drr, QdiscView::Drr) => true,
        (QdiscView::FqCodel(old), QdiscView::FqCodel(settings)) => old.flows == settings.flows,
        _ => false,
    }
}

/// The kind with all options that makes such a qdisc.
pub(crate) fn kind_of(view: &QdiscView) -> Option<Kind> {
    match *view {
        QdiscView::Pfifo { limit } => Some(Kind::Pfifo { limit: word(limit) }),
        QdiscView::Bfifo { limit } => Some(Kind::Bfifo { limit: word(limit) }),
        QdiscView::Prio { bands, priomap } => {
            Some(Kind::Prio(PrioOptions::new(bands, priomap)?))
        }
        QdiscView::Tbf { rate, burst, limit } => Some(Kind::Tbf {
            rate: Rate::new(rate)?,
            burst: Burst::new(burst)?,
            limit: tbf_limit(rate, burst, limit)?,
        }),
        QdiscView::Drr => Some(Kind::Drr),
        QdiscView::FqCodel(settings) => Some(Kind::FqCodel(fq_codel(&settings)?)),
    }
}

/// A limit that a line can name; one above is what a qdisc has where none is named.
fn word(limit: u64) -> Option<u32> {
    if limit <= u64::from(u32::MAX) {
        Some(limit as u32)
    } else {
        None
    }
}

/// A tbf's limit that a line can name, in bytes or else as the least latency that comes to it.
fn tbf_limit(rate: u64, burst: u32, limit: u64) -> Option<TbfLimit> {
    if let Some(bytes) = word(limit) {
        return Some(TbfLimit::Bytes(bytes));
    }
    let waiting = limit.saturating_sub(u64::from(burst));
    let latency = nanoseconds(waiting, rate)?;
    Some(TbfLimit::Latency(Latency::new(latency)?))
}

/// The least time in which this rate brings so many bytes.
fn nanoseconds(bytes: u64, rate: u64) -> Option<u64> {
    if rate == 0 {
        return None;
    }
    let time = (u128::from(bytes) * UNITS_IN_BYTE).div_ceil(u128::from(rate));
    if time <= u128::from(u64::MAX) {
        Some(time as u64)
    } else {
        None
    }
}

fn fq_codel(settings: &Settings) -> Option<FqCodelOptions> {
    FqCodelOptions::new(
        Some(settings.limit),
        Some(settings.flows),
        Some(settings.quantum),
        Some(settings.target),
        Some(settings.interval),
        Some(settings.ecn),
        Some(settings.drop_batch),
    )
}

ghost use Rattle.std.specs.Prelude.{◌≡◌, ◌+◌, ◌^◌, nat_lt, nat_le, if◌then◌else◌, Some, None};
ghost use Rattle.q_device.specs.promises.Latest.{counted_level, latest_at, latest_of_bytes, latest_on, paid_at};

use crate::promises::service::{has_room, late_on};
use q_model::Settings;
use q_packet::Moment;
use q_tree::Link;

/// By when the packet has left that is last in a fifo whose packets no other packet overtakes, or in the fifo of a class of a drr.
///
/// Until the packet has left, the device sends at most `bytes` bytes, including those of the packet itself, whatever comes meanwhile. With a tbf at
/// the root, the packet has left once the program has polled until no packet came, at the time `at` or later. So if polls are never later than
/// `late` nanoseconds, as [`crate::Service`] describes it, the packet has left by `at` and `late` nanoseconds (`latest_is_enough` of `q_laws`, and
/// for a class of a drr `latest_turn_is_enough`).
///
/// In a fifo that no other packet overtakes `bytes` is what is queued there. In a class of a drr let B be that, d the deficit of the class, q its
/// quantum, and Q the quanta of all classes together. Then `bytes` is the length of the packet that the drr holds, and
///
/// ```text
/// B + ceil(max(0, B - d) / q) * (Q - q)
/// ```
///
/// bytes, and the deficits of the other classes: all of each that is before this class in the active list, and of each behind it what is above
/// its own quantum, not above q. That is so as long as no command changes the classes of the drr or their quanta.
#[derive(Clone, Copy, PartialEq, Eq, Debug)]
pub struct Latest {
    /// The most bytes that the device sends until the packet has left, including its own.
    pub bytes: u64,
    /// The time at which the tbf at the root has paid for these bytes; `None` without a tbf.
    pub at: Option<Moment>,
    /// How many nanoseconds late polls may be; `None` without a tbf.
    pub late: Option<u64>,
}

/// By when so many bytes have left a device with these settings, if the bucket at the root has this level now.
pub(crate) fn latest_on(
    link: Option<Link>,
    bytes: u128,
    level: Option<u128>,
    now: Moment,
    settings: Settings,
) -> Option<Latest>
    ensures { result ≡ latest_on settings.mtu now bytes level link }
{
    if bytes > u128::from(u64::MAX) {
        return None;
    }
    behind(link, bytes as u64, level, now, settings.mtu)
}

/// By when so many queued bytes have left a device with these settings, and a packet of this length that comes next, if the bucket at the root
/// has this level now.
pub(crate) fn latest_in(
    link: Option<Link>,
    queued: u64,
    len: u16,
    level: Option<u128>,
    now: Moment,
    settings: Settings,
) -> Option<Latest>
    ensures { result ≡ latest_on settings.mtu now (queued + len) level link }
{
    let bytes = together(queued, len)?;
    behind(link, bytes, level, now, settings.mtu)
}

// The same of a number of 64 bits.
fn behind(
    link: Option<Link>,
    bytes: u64,
    level: Option<u128>,
    now: Moment,
    mtu: u16,
) -> Option<Latest>
    ensures { result ≡ latest_of_bytes mtu now bytes level link }
{
    let Some(link) = link else {
        return Some(Latest {
            bytes,
            at: None,
            late: None,
        });
    };
    below(link, bytes, level?, now, mtu)
}

// What is queued and the length of what comes next; `None` where that is no number of 64 bits.
fn together(queued: u64, len: u16) -> Option<u64>
    ensures { result ≡ (if nat_lt (queued + len) (2 ^ 64) then Some (queued + len) else None) }
{
    queued.checked_add(u64::from(len))
}

// The same below this tbf.
fn below(link: Link, bytes: u64, level: u128, now: Moment, mtu: u16) -> Option<Latest>
    ensures { result ≡ latest_at mtu now bytes link level }
{
    if !has_room(Some(link), mtu) {
        return None;
    }
    let late = late_on(link, mtu);
    let level = counted_level(link, level, late);
    Some(Latest {
        bytes,
        at: Some(paid_at(link, bytes, level, now)?),
        late: Some(late),
    })
}

// What a level counts for where polls may be so late.
fn counted_level(link: Link, level: u128, late: u64) -> u128
    ensures { result ≡ counted_level late link level }
{
    let burst = u128::from(link.burst) * 8_000_000_000;
    level.min(burst.saturating_sub(u128::from(link.rate) * u128::from(late)))
}

// When the rate of a link has brought what so many bytes take beside a level; `None` past the end of time.
fn paid_at(link: Link, bytes: u64, level: u128, now: Moment) -> Option<Moment>
    ensures { result ≡ (if nat_le (paid_at now link level bytes) (2 ^ 62) then Some (paid_at now link level bytes) else None) }
{
    let missing = (u128::from(bytes) * 8_000_000_000).saturating_sub(level);
    let at = u128::from(now.ns()) + missing.div_ceil(u128::from(link.rate.max(1)));
    if at > u128::from(Moment::MAX) {
        return None;
    }
    Moment::new(at as u64)
}

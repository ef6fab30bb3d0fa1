ghost use Rattle.std.specs.Prelude.{◌≡◌, ◌≤◌, ◌+◌, ◌^◌, nat_le, nat_lt, if◌then◌else◌, Some, None};
ghost use Rattle.q_device.specs.promises.Promise.{has_room, late_on};
ghost use Rattle.q_device.specs.promises.Worst.{bytes_in_turn, most_bytes, most_held, most_of_turn, time_of, worst_in_turn, worst_of_bytes, worst_on};
ghost use Rattle.q_tree.specs.answers.Ways.{IsShare};

use crate::promises::service::{has_room, late_on};
use q_codel::Limit;
use q_model::Settings;
use q_packet::Moment;
use q_tree::{Lane, Link, Share, Turn};

/// How long a packet waits at most in a fifo, from when it is queued until it has left: in a fifo whose packets no other packet overtakes, or in
/// the fifo of a class of a drr.
///
/// Until the packet has left, the device sends at most `bytes` bytes, including those of the packet itself, whatever comes meanwhile. With a tbf at
/// the root, the packet has left once the program has polled until no packet came, `ns` nanoseconds after the packet's arrival or later. So if
/// polls are never later than `late` nanoseconds, as [`crate::Service`] describes it, the packet has left by `ns + late` (`worst_is_enough` of
/// `q_laws`, and for a class of a drr `turn_is_enough`).
///
/// Let the fifo hold at most B bytes: the limit of a bfifo, or the limit of a pfifo times the mtu. In a fifo that no other packet overtakes `bytes`
/// is B. In a class of a drr with a quantum of q bytes, where the quanta of all n classes are Q bytes together, it is
///
/// ```text
/// B + ceil(B / q) * (Q - q) + (Q - q) + (n - 1) * (mtu - 1)
/// ```
///
/// bytes, and below a tbf an mtu more, for the packet that the drr may hold already. This bounds what is sent in any state of the drr, but not across
/// a command that changes its classes or one of their quanta. Nothing is promised of the time if polls are later than `late`. Nor is it where a drr
/// is at the root: if another of its classes has a tbf, the device sends nothing while that one waits.
#[derive(Clone, Copy, PartialEq, Eq, Debug)]
pub struct Worst {
    /// The most bytes that the device sends until the packet has left, including its own.
    pub bytes: u64,
    /// The nanoseconds in which the rate of the tbf at the root brings that many bytes, rounded up; `None` without a tbf.
    pub ns: Option<u64>,
    /// How many nanoseconds late polls may be; `None` without a tbf.
    pub late: Option<u64>,
}

/// The longest that a packet waits in this fifo of a device with these settings.
pub(crate) fn worst_in(lane: Lane, settings: Settings) -> Option<Worst>
    ensures { result ≡ worst_on settings.mtu lane }
{
    let bytes = most_bytes(lane.limit, settings.mtu)?;
    behind(bytes, lane.link, settings.mtu)
}

/// The longest that a packet waits in the fifo of this class of a drr.
pub(crate) fn worst_in_turn(turn: &Turn, settings: Settings) -> Option<Worst>
    requires { IsShare turn.now.share }
    ensures { result ≡ worst_in_turn settings.mtu turn.now }
{
    let bytes = bytes_in_turn(turn, settings.mtu)?;
    behind(bytes, turn.link, settings.mtu)
}

// The longest that a packet waits until so many bytes have left, itself among them.
fn behind(bytes: u64, link: Option<Link>, mtu: u16) -> Option<Worst>
    ensures { result ≡ worst_of_bytes mtu bytes link }
{
    let Some(link) = link else {
        return Some(Worst {
            bytes,
            ns: None,
            late: None,
        });
    };
    below(link, bytes, mtu)
}

// The same below this tbf.
fn below(link: Link, bytes: u64, mtu: u16) -> Option<Worst>
    ensures { result ≡ worst_of_bytes mtu bytes (Some link) }
{
    if !has_room(Some(link), mtu) {
        return None;
    }
    Some(Worst {
        bytes,
        ns: Some(time_of(link, bytes)?),
        late: Some(late_on(link, mtu)),
    })
}

// The most bytes that leave until the packet that the fifo of a class took last has left.
fn bytes_in_turn(turn: &Turn, mtu: u16) -> Option<u64>
    requires share { IsShare turn.now.share }
    requires mtu { 1 ≤ mtu }
    ensures { result ≡ (if nat_lt (bytes_in_turn mtu turn.now) (2 ^ 64) then Some (bytes_in_turn mtu turn.now) else None) }
{
    let queued = most_bytes(turn.limit, mtu)?;
    let bytes = held_and_turn(most_held(turn.link, mtu), turn.share, queued, mtu);
    if bytes > u128::from(u64::MAX) {
        return None;
    }
    Some(bytes as u64)
}

// The most bytes of a packet that a drr holds.
fn most_held(link: Option<Link>, mtu: u16) -> u16
    ensures { result ≡ most_held mtu link }
{
    if link.is_none() {
        return 0;
    }
    mtu
}

// The bytes of the packet that a drr holds, and the most that its classes send, in any state of it, until the packet of this class has left that
// ends within so many bytes.
fn held_and_turn(held: u16, share: Share, bytes: u64, mtu: u16) -> u128
    requires share { IsShare share }
    requires mtu { 1 ≤ mtu }
    ensures { result ≡ held + most_of_turn mtu bytes share }
{
    let grants = bytes.div_ceil(u64::from(share.quantum));
    let others = share.quanta - u64::from(share.quantum);
    let packets = u64::from(share.classes - 1) * u64::from(mtu - 1);
    let left = others + packets + u64::from(held);
    u128::from(bytes) + u128::from(grants) * u128::from(others) + u128::from(left)
}

// The most bytes that a fifo has right after it took a packet.
fn most_bytes(limit: Limit, mtu: u16) -> Option<u64>
    ensures { result ≡ (if nat_lt (most_bytes mtu limit) (2 ^ 64) then Some (most_bytes mtu limit) else None) }
{
    match limit {
        Limit::Packets(most) => return most.checked_mul(u64::from(mtu)),
        Limit::Bytes(most) => return Some(most),
    }
}

// The nanoseconds in which a link brings so many bytes; `None` past the end of time.
fn time_of(link: Link, bytes: u64) -> Option<u64>
    ensures { result ≡ (if nat_le (time_of bytes link) (2 ^ 62) then Some (time_of bytes link) else None) }
{
    let ns = (u128::from(bytes) * 8_000_000_000).div_ceil(u128::from(link.rate.max(1)));
    if ns > u128::from(Moment::MAX) {
        return None;
    }
    Some(ns as u64)
}

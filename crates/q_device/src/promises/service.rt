ghost use Rattle.std.specs.Prelude.{◌≡◌, ◌≤◌, ◌+◌, ◌*◌, ◌/◌, ◌^◌, All, IfSome, length, option_map};
ghost use Rattle.q_device.specs.promises.Promise.{has_room, lack_at, lack_of_link, late_of, late_on, part_of, promise_on, promise_seen, rate_of, slack_on};
ghost use Rattle.q_tree.specs.answers.Ways.{IsShare};

use arrayvec::ArrayVec;
use q_model::Settings;
use q_packet::Moment;
use q_tree::{Link, Share, Way};

/// What a class of a drr is promised while something is queued in it, whatever comes to the other classes.
///
/// With a tbf at the root: in any t nanoseconds between two times at which a poll gives no packet, the class sends more than
/// `rate * t / (8 * 10^9) - slack` bytes, if the program polls until no packet comes, and then does so again no later than [`Service::late`]
/// nanoseconds after the time that [`crate::Device::ready_at`] returns (`service_is_delivered` of `q_laws`).
///
/// With a drr at the root: the class sends at least its share of what that drr sends, less the slack (`share_is_delivered` of `q_laws`).
#[derive(Drop)]
pub struct Service {
    /// The rate of the tbf at the root, in bits a second; `None` if a drr is at the root.
    pub link: Option<u64>,
    /// The classes on the way from the root to this class, each with its quantum and the sum of its drr's quanta. The share of this class is the
    /// product of quantum / quanta over all of them.
    pub shares: ArrayVec<Share, 8>,
    /// The most bytes that the class can fall short of its share, rounded up at each drr on the way.
    pub slack: u64,
    /// How many nanoseconds late polls may be: in that time the tbf at the root loses nothing of its rate. `None` if a drr is at the root, which
    /// may be polled at any time.
    pub late: Option<u64>,
}

impl Service {
    /// Returns the class's share of this number of bytes, or of bits a second, rounded down at each drr on the way from the root.
    pub fn part_of(&self, whole: u64) -> u64
        requires { All IsShare self.now.shares.items }
        ensures { result ≡ part_of self.now.shares.items whole }
    {
        part_along(self.shares.as_slice(), whole)
    }

    /// Returns the class's share of the rate of the tbf at the root, in bits a second, rounded down at each drr on the way; `None` if a drr is at
    /// the root.
    pub fn rate(&self) -> Option<u64>
        requires { All IsShare self.now.shares.items }
        ensures { result ≡ option_map (part_of self.now.shares.items) self.now.link }
    {
        Some(self.part_of(self.link?))
    }
}

// The part of so many along a path.
fn part_along(shares: &[Share], whole: u64) -> u64
    requires { All IsShare shares.now }
    ensures { result ≡ part_of shares.now whole }
{
    let Some((share, rest)) = shares.split_first() else {
        return whole;
    };
    part_along(rest, part_at(share, whole))
}

// The same at one drr.
fn part_at(share: &Share, whole: u64) -> u64
    requires { IsShare share.now }
    ensures { result ≡ whole * share.now.quantum / share.now.quanta }
{
    (u128::from(whole) * u128::from(share.quantum) / u128::from(share.quanta)) as u64
}

/// What a class at the end of a path is promised by a device with these settings.
pub(crate) fn promised(way: Way, settings: Settings) -> Option<Service>
    requires { All IsShare way.shares.items }
    ensures value { option_map promise_seen result ≡ promise_on settings.mtu way.link way.shares.items }
    ensures ranges { IfSome result (λ s. All IsShare s.shares.items) }
{
    let mtu = settings.mtu;
    if !has_room(way.link, mtu) {
        return None;
    }
    let slack = slack_on(way.shares.as_slice(), mtu, lack_of_link(way.link, mtu));
    Some(Service {
        link: rate_of(way.link),
        shares: way.shares,
        slack,
        late: late_of(way.link, mtu),
    })
}

// The rate of a link.
fn rate_of(link: Option<Link>) -> Option<u64>
    ensures { result ≡ rate_of link }
{
    Some(link?.rate)
}

/// Whether the burst of a link has room for a longest packet and for what its rate brings in a nanosecond.
pub(crate) fn has_room(link: Option<Link>, mtu: u16) -> bool
    ensures { result ≡ has_room mtu link }
{
    let Some(link) = link else {
        return true;
    };
    u128::from(mtu) * 8_000_000_000 + u128::from(link.rate)
        <= u128::from(link.burst) * 8_000_000_000
}

// How many nanoseconds polls may be late at a link: while its rate brings what the burst has room for beside a longest packet.
fn late_of(link: Option<Link>, mtu: u16) -> Option<u64>
    ensures { result ≡ late_of mtu link }
{
    Some(late_on(link?, mtu))
}

/// How many nanoseconds polls may be late at this link.
pub(crate) fn late_on(link: Link, mtu: u16) -> u64
    ensures { result ≡ late_on mtu link }
{
    let rate = u128::from(link.rate);
    let spare = u128::from(link.burst.saturating_sub(u32::from(mtu))) * 8_000_000_000;
    let late = spare.saturating_sub(rate) / rate.max(1);
    late.min(u128::from(Moment::MAX)) as u64
}

// What may lack of the rate of a link.
fn lack_of_link(link: Option<Link>, mtu: u16) -> u64
    ensures value { result ≡ lack_of_link mtu link }
    ensures bound { result ≤ 2 ^ 17 }
{
    if link.is_none() {
        return 0;
    }
    2 * u64::from(mtu)
}

// What may lack at the end of a path.
fn slack_on(shares: &[Share], mtu: u16, lack: u64) -> u64
    requires shares { All IsShare shares.now }
    requires few { length shares.now ≤ 8 }
    requires mtu { 1 ≤ mtu }
    requires bound { lack ≤ 2 ^ 17 }
    ensures { result ≡ slack_on mtu lack shares.now }
{
    let Some((first, rest)) = shares.split_first() else {
        return lack;
    };
    let mut slack = lack_at(first, mtu, lack);
    for share in rest {
        slack = lack_at(share, mtu, slack + u64::from(mtu));
    }
    slack
}

// What a class may lack where so many bytes may lack of what its drr gets.
fn lack_at(share: &Share, mtu: u16, lack: u64) -> u64
    requires share { IsShare share.now }
    requires mtu { 1 ≤ mtu }
    requires bound { lack ≤ 2 ^ 48 }
    ensures value { result ≡ lack_at mtu lack share.now }
    ensures bound { result ≤ lack + 2 ^ 35 }
{
    let quantum = u128::from(share.quantum);
    let quanta = u128::from(share.quanta);
    let others = quanta - quantum;
    let two_quanta = 2 * (quantum * others);
    let packets = u128::from(mtu - 1) * (u128::from(share.classes - 1) * quantum + others);
    (u128::from(lack) * quantum + (two_quanta + packets)).div_ceil(quanta) as u64
}

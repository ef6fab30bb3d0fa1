ghost use Rattle.std.specs.Prelude.{◌≡◌, ◌≤◌, ◌^◌, ◌↔◌, IfSome, IsSome};

use q_packet::Ecn;
use std::marker::Model;

/// The settings of CoDel, which one struct may lend to the states of many queues (RFC 8289, section 4).
///
/// A contract sees them as the record `CodelParams`. Times are in nanoseconds: the target is at most 10^12 (1000 s), the
/// interval 1000 (1 us) to 10^12.
#[derive(Clone, Copy, PartialEq, Eq, Debug)]
pub struct Parameters {
    pub(crate) target: u64,
    pub(crate) interval: u64,
    pub(crate) mtu: u16,
    pub(crate) ecn: bool,
}

impl Model for Parameters {
    ghost use Rattle.q_codel.specs.Codel.{CodelParams, IsCodelParams};

    ghost Value = { CodelParams };

    ghost view = { λ p. record { target = p.target; interval = p.interval; mtu = p.mtu; ecn = p.ecn } };

    ghost invariant = { λ p. IsCodelParams (record { target = p.target; interval = p.interval; mtu = p.mtu; ecn = p.ecn }) };

    ghost inverse = { λ p. record { target = p.target; interval = p.interval; mtu = p.mtu; ecn = p.ecn } };
}

impl Parameters {
    ghost use Rattle.std.specs.Prelude.{◌&&◌};
    ghost use Rattle.q_codel.specs.Codel.{is_capable};

    /// These settings; `None` where `target` is above 10^12, or `interval` is not 1000 to 10^12.
    ///
    /// `mtu` is in bytes: no packet is dropped or marked with this many bytes or fewer behind it. With `ecn` a packet
    /// whose transport takes part in ECN is marked where it would be dropped.
    pub fn new(target: u64, interval: u64, mtu: u16, ecn: bool) -> Option<Parameters>
        ensures in_range { IsSome result ↔ ((target ≤ 10 ^ 12) × (1000 ≤ interval) × (interval ≤ 10 ^ 12)) }
        ensures value { IfSome result
            (λ p. p ≡ record { target = target; interval = interval; mtu = mtu; ecn = ecn }) }
    {
        if target <= 1_000_000_000_000 && interval >= 1000 && interval <= 1_000_000_000_000 {
            Some(Parameters {
                target,
                interval,
                mtu,
                ecn,
            })
        } else {
            None
        }
    }

    // Whether a packet with this codepoint is marked where it would be dropped.
    pub(crate) fn marks(&self, ecn: Ecn) -> bool
        ensures { result ≡ (self.now.ecn && is_capable ecn) }
    {
        self.ecn && ecn != Ecn::NotEct
    }
}

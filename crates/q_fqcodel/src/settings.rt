ghost use Rattle.std.specs.Prelude.{◌≡◌, ◌≤◌, ◌↔◌, IfSome, IsSome};
ghost use Rattle.q_fqcodel.specs.FqState.{settings_by_default, settings_of};
ghost use Rattle.q_fqcodel.specs.Ranges.{IsInRange};

use std::marker::Model;

/// The settings of an fq_codel (tc-fq_codel(8)).
///
/// A contract sees them as the record `FqSettings` of the fields. Each is within its range: code that would leave another
/// number there is refused.
#[derive(Clone, Copy, PartialEq, Eq, Debug)]
pub struct Settings {
    /// Packets that all flows may hold together, 1 to 2^32 - 1.
    pub limit: u32,
    /// The number of flows, 1 to 65536.
    pub flows: u32,
    /// The bytes that a flow may send in a round, 1 to 2^32 - 1.
    pub quantum: u32,
    /// CoDel's target in nanoseconds, at most 10^12 (1000 s).
    pub target: u64,
    /// CoDel's interval in nanoseconds, 1000 to 10^12 (1 us to 1000 s).
    pub interval: u64,
    /// Whether CoDel marks packets whose transport takes part in ECN, in place of dropping them.
    pub ecn: bool,
    /// Packets that the fat flow loses at once where the limit is passed, 1 to 65536.
    pub drop_batch: u32,
    /// The mtu in bytes, at least 1: CoDel drops nothing if no more than this many bytes are behind the first packet.
    pub mtu: u16,
}

impl Model for Settings {
    ghost use Rattle.q_fqcodel.specs.FqState.{FqSettings, settings_of};
    ghost use Rattle.q_fqcodel.specs.Ranges.{IsInRange};

    ghost Value = { FqSettings };

    ghost view = { λ s. settings_of s.limit s.flows s.quantum s.target s.interval s.ecn s.drop_batch s.mtu };

    ghost invariant = { λ s. IsInRange (settings_of s.limit s.flows s.quantum s.target s.interval s.ecn s.drop_batch s.mtu) };

    ghost inverse = { λ s. record {
      limit = s.limit;
      flows = s.flows;
      quantum = s.quantum;
      target = s.target;
      interval = s.interval;
      ecn = s.ecn;
      drop_batch = s.drop_batch;
      mtu = s.mtu;
    } };
}

impl Settings {
    /// The most flows.
    pub const MOST_FLOWS: u32 = 65536;

    /// The most packets that the fat flow may lose at once.
    pub const MOST_DROP_BATCH: u32 = 65536;

    /// The longest target and interval: 1000 s, in nanoseconds.
    pub const LONGEST: u64 = 1_000_000_000_000;

    /// The shortest interval: 1 us, in nanoseconds.
    pub const SHORTEST_INTERVAL: u64 = 1000;

    /// The settings where none are named, for a device with this mtu. tc-fq_codel(8) has 1024 flows, a limit of 10240
    /// packets, a quantum of 1514 bytes, CoDel's target of 5 ms and its interval of 100 ms, and ECN. But drop_batch is 1, this
    /// project's choice, where tc-fq_codel(8) has 64.
    pub fn defaults(mtu: u16) -> Settings
        requires { 1 ≤ mtu }
        ensures { result ≡ settings_by_default mtu }
    {
        Settings {
            limit: 10240,
            flows: 1024,
            quantum: 1514,
            target: 5_000_000,
            interval: 100_000_000,
            ecn: true,
            drop_batch: 1,
            mtu,
        }
    }

    /// The settings with these fields; `None` where one is out of its range.
    pub fn new(
        limit: u32,
        flows: u32,
        quantum: u32,
        target: u64,
        interval: u64,
        ecn: bool,
        drop_batch: u32,
        mtu: u16,
    ) -> Option<Settings>
        ensures in_range { IsSome result ↔ IsInRange (settings_of limit flows quantum target interval ecn drop_batch mtu) }
        ensures value { IfSome result (λ s. s ≡ settings_of limit flows quantum target interval ecn drop_batch mtu) }
    {
        let counts_fit = limit >= 1 && flows >= 1 && flows <= Settings::MOST_FLOWS && quantum >= 1;
        let times_fit = target <= Settings::LONGEST
            && interval >= Settings::SHORTEST_INTERVAL
            && interval <= Settings::LONGEST;
        let batch_fits = drop_batch >= 1 && drop_batch <= Settings::MOST_DROP_BATCH;
        if !counts_fit || !times_fit || !batch_fits || mtu == 0 {
            return None;
        }
        Some(Settings {
            limit,
            flows,
            quantum,
            target,
            interval,
            ecn,
            drop_batch,
            mtu,
        })
    }
}

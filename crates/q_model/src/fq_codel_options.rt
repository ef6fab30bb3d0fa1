ghost use Rattle.std.specs.Prelude.{◌≡◌, ◌↔◌, IfSome, IsSome, IsTrue};
ghost use Rattle.q_fqcodel.specs.Ranges.{longest};
ghost use Rattle.q_model.specs.Numbers.{IsWithin};
ghost use Rattle.q_model.specs.Options.{IsFqCodelOptions, options_of};

use q_fqcodel::Settings;
use std::marker::Model;

/// The options of an fq_codel that a line gives (tc-fq_codel(8)); what it does not give is `None`.
///
/// A contract sees them as the record `FqOptions` of the fields. Each is within its range: code that would leave another
/// number there is refused.
#[derive(Clone, Copy, PartialEq, Eq, Debug)]
pub struct FqCodelOptions {
    /// Packets that all flows may hold together, 1 to 2^32 - 1.
    pub limit: Option<u32>,
    /// The number of flows, 1 to 65536.
    pub flows: Option<u32>,
    /// The bytes that a flow may send in a round, 1 to 2^32 - 1.
    pub quantum: Option<u32>,
    /// In nanoseconds, at most 1000 s.
    pub target: Option<u64>,
    /// In nanoseconds, 1 us to 1000 s.
    pub interval: Option<u64>,
    /// Whether CoDel marks packets whose transport takes part in ECN, in place of dropping them.
    pub ecn: Option<bool>,
    /// Packets that the fat flow loses at once where the limit is passed, 1 to 65536.
    pub drop_batch: Option<u32>,
}

impl Model for FqCodelOptions {
    ghost use Rattle.q_model.specs.Options.{FqOptions, IsFqCodelOptions, options_of};

    ghost Value = { FqOptions };

    ghost view = { λ o. options_of o.limit o.flows o.quantum o.target o.interval o.ecn o.drop_batch };

    ghost invariant = { λ o. IsFqCodelOptions (options_of o.limit o.flows o.quantum o.target o.interval o.ecn o.drop_batch) };

    ghost inverse = { λ s. record {
      limit = s.limit;
      flows = s.flows;
      quantum = s.quantum;
      target = s.target;
      interval = s.interval;
      ecn = s.ecn;
      drop_batch = s.drop_batch;
    } };
}

impl FqCodelOptions {
    /// The options with these fields; `None` if one that is set is out of its range.
    pub fn new(
        limit: Option<u32>,
        flows: Option<u32>,
        quantum: Option<u32>,
        target: Option<u64>,
        interval: Option<u64>,
        ecn: Option<bool>,
        drop_batch: Option<u32>,
    ) -> Option<FqCodelOptions>
        ensures in_range { IsSome result ↔ IsFqCodelOptions (options_of limit flows quantum target interval ecn drop_batch) }
        ensures value { IfSome result (λ o. o ≡ options_of limit flows quantum target interval ecn drop_batch) }
    {
        let counts_fit = fits(limit, 1, u32::MAX) && fits(flows, 1, Settings::MOST_FLOWS);
        let sizes_fit = fits(quantum, 1, u32::MAX)
            && fits(drop_batch, 1, Settings::MOST_DROP_BATCH);
        let times_fit = lasts(target, 0) && lasts(interval, Settings::SHORTEST_INTERVAL);
        if counts_fit && sizes_fit && times_fit {
            Some(FqCodelOptions {
                limit,
                flows,
                quantum,
                target,
                interval,
                ecn,
                drop_batch,
            })
        } else {
            None
        }
    }

    /// Each field is within its range, which the type keeps. It does nothing: its clause is for the laws of other crates.
    pub fn ranges(&self)
        ensures { IsFqCodelOptions self.now }
    {
        let _ = &self.limit;
    }
}

/// Whether a number, where there is one, is within these bounds.
fn fits(number: Option<u32>, least: u32, most: u32) -> bool
    ensures { IsTrue result ↔ IfSome number (IsWithin least most) }
{
    match number {
        None => true,
        Some(n) => least <= n && n <= most,
    }
}

/// Whether a time, where there is one, has at least so many nanoseconds and is not too long for a target or an interval.
fn lasts(time: Option<u64>, least: u64) -> bool
    ensures { IsTrue result ↔ IfSome time (IsWithin least longest) }
{
    match time {
        None => true,
        Some(n) => least <= n && n <= Settings::LONGEST,
    }
}

ghost use Rattle.q_model.specs.Ranges.{IsKind};

use crate::burst::Burst;
use crate::fq_codel_options::FqCodelOptions;
use crate::prio_options::PrioOptions;
use crate::ranges::count_ranges;
use crate::rate::Rate;
use crate::tbf_limit::TbfLimit;

/// A kind of qdisc with the options that a line gives.
///
/// `None` is what the line does not give: a new qdisc has the default there, and one that is changed keeps what it has.
#[derive(Clone, Copy, PartialEq, Eq, Debug)]
pub enum Kind {
    /// First in, first out, with a limit in packets (tc-pfifo(8)).
    Pfifo {
        limit: Option<u32>,
    },
    /// First in, first out, with a limit in bytes (tc-bfifo(8)).
    Bfifo {
        limit: Option<u32>,
    },
    /// Bands that are served in order (tc-prio(8)).
    Prio(PrioOptions),
    /// A token bucket filter (tc-tbf(8)).
    Tbf {
        rate: Rate,
        burst: Burst,
        limit: TbfLimit,
    },
    /// Deficit round robin (tc-drr(8)).
    Drr,
    /// Fair queueing with CoDel (tc-fq_codel(8)).
    FqCodel(FqCodelOptions),
}

impl Kind {
    /// Every number is in its range, which the types keep. It does nothing: its clause is for the laws of other crates.
    pub fn ranges(&self)
        ensures { IsKind self.now }
    {
        match self {
            Kind::Pfifo { limit } | Kind::Bfifo { limit } => count_ranges(*limit),
            Kind::Prio(options) => options.ranges(),
            Kind::Tbf { rate, burst, limit } => {
                rate.bits();
                burst.bytes();
                limit.ranges();
            }
            Kind::Drr => {}
            Kind::FqCodel(options) => options.ranges(),
        }
    }
}

ghost use Rattle.std.specs.Prelude.{IfOk, None, OnErr, Some};
ghost use Rattle.q_model.specs.Make.{made};
ghost use Rattle.q_tree.specs.commands.Making.{IsNewDiscipline, IsNewNode, NeedsMemory};
ghost use Rattle.q_tree.specs.commands.Planning.{device_of};

use crate::commands::planner::Planner;
use crate::counters::Counters;
use crate::departure::held::Held;
use crate::disciplines::fq_codel::{new_queue, with_options};
use crate::disciplines::tbf::{limit_bytes, new_tbf};
use crate::filters::Filters;
use crate::node::{Discipline, Node};
use q_bucket::Bucket;
use q_codel::{Fifo, Limit};
use q_drr::Active;
use q_fqcodel::Settings;
use q_model::{Handle, Kind};
use std::alloc::AllocError;

impl Planner<'_> {
    /// A new qdisc of this kind, with the implicit leaves that it brings. A bucket begins full.
    ///
    /// # Errors
    ///
    /// `AllocError` if an allocation fails, for a prio, a tbf or an fq_codel: the others need none.
    pub(crate) fn made(&self, handle: Handle, kind: &Kind) -> Result<Node, AllocError>
        ensures new { IfOk result (λ n. IsNewNode n (made (device_of self.now) self.now.moment (Some handle) kind.now)) }
        ensures memory { OnErr result (NeedsMemory kind.now) }
    {
        // What a kind has is in its ranges, and an mtu fits 16 bits.
        let _ = (kind.ranges(), self.mtu);
        let discipline = self.new_discipline(kind)?;
        Ok(Node {
            handle: Some(handle),
            held: Held::nothing(),
            filters: Filters::none(self.alloc),
            row: Counters::none(),
            discipline,
        })
    }

    // The discipline of a new qdisc, with its implicit leaves.
    fn new_discipline(&self, kind: &Kind) -> Result<Discipline, AllocError>
        ensures new { IfOk result (λ d. IsNewDiscipline d (made (device_of self.now) self.now.moment None kind.now)) }
        ensures memory { OnErr result (NeedsMemory kind.now) }
    {
        match kind {
            Kind::Pfifo { limit } => {
                let packets = u64::from(limit.unwrap_or(self.txqueuelen));
                return Ok(Discipline::Fifo(Fifo::new(self.alloc, Limit::Packets(packets))));
            }
            Kind::Bfifo { limit } => {
                let bytes = self.bfifo_bytes(*limit);
                return Ok(Discipline::Fifo(Fifo::new(self.alloc, Limit::Bytes(bytes))));
            }
            Kind::Prio(options) => {
                options.ranges();
                let bands = self.leaves(usize::from(options.bands))?;
                let priomap = options.priomap;
                return Ok(Discipline::Prio { priomap, bands });
            }
            Kind::Tbf { rate, burst, limit } => {
                let bytes = limit_bytes(*rate, *burst, *limit);
                return new_tbf(
                    self.alloc,
                    Bucket::new(rate.bits(), burst.bytes(), self.moment),
                    bytes,
                );
            }
            Kind::Drr => {
                return Ok(Discipline::Drr {
                    active: Active::new(self.alloc, self.mtu),
                    classes: Vec::new(self.alloc),
                });
            }
            Kind::FqCodel(options) => {
                let settings = with_options(options, Settings::defaults(self.mtu));
                return Ok(Discipline::FqCodel(new_queue(self.alloc, settings)?));
            }
        }
    }
}

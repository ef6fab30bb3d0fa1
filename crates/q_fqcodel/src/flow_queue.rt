//! One flow's queue as CoDel sees it: CoDel is lent a queue, and the packets of all flows are in one pool.
ghost use Rattle.std.specs.Prelude.{◌≡◌, ◌≤◌, [], Some, take, get_or, option_map, true, refl};
ghost use Rattle.std.proofs.Common.{◌∙◌};
ghost use Rattle.q_packet.specs.Totals.{count};
ghost use Rattle.q_codel.specs.Codel.{joined, drops, sent, taken, left, after, is_late};
ghost use Rattle.q_codel.specs.Front.{IsFront};
ghost use Rattle.q_codel.specs.Losses.{AreLost};
ghost use Rattle.q_fqcodel.specs.Pool.{SameBeside};
ghost use Rattle.q_packet.specs.declared.stamped.Stamped.{Stamped};
ghost use Rattle.q_fqcodel.specs.Take.{taken_as};
ghost use Rattle.q_fqcodel.specs.PoolKept.{kept_same, kept_on};

use crate::pool::Pool;
use q_codel::{ControlState, Front, Leaving, Parameters, Queue, Sink};
use q_packet::{Cause, KeptPacket, Moment, Stamped};

/// The queue of one flow, as a view of the packets of all.
#[derive(Drop)]
pub(crate) struct FlowQueue<'a> {
    pub pool: &'a mut Pool,
    pub flow: u32,
}

impl<'a> Queue for FlowQueue<'a> {
    ghost packets = { λ q. get_or q.pool.now.queues q.flow [] };

    // The other flows' packets stay, and so does the loan.
    ghost keeps = { λ q r.
        SameBeside q.flow q.pool.now.queues r.pool.now.queues
        × (r.flow ≡ q.flow)
        × (r.pool.now.places ≡ q.pool.now.places)
        × (r.pool.ghost_name ≡ q.pool.ghost_name) };

    fn head(&self) -> Option<Stamped> {
        self.pool.head_of(self.flow)
    }

    fn take(&mut self) -> Option<Stamped> {
        self.pool.take_of(self.flow)
    }

    fn front(&self) -> Option<Front> {
        self.pool.front_of(self.flow)
    }

    fn lose<S: Sink>(&mut self, cause: Cause, sink: &mut S) {
        self.pool.lose_head(self.flow, cause, sink);
    }

    fn take_into(&mut self, out: &mut KeptPacket) {
        self.pool.take_of_into(self.flow, out);
    }

    fn bytes(&self) -> u64 {
        self.pool.bytes_of(self.flow)
    }

    fn count(&self) -> u64 {
        self.pool.count_of(self.flow)
    }

    ghost keeps_same = { λ q. (kept_same q.flow q.pool.now.queues, refl, refl, refl) };

    ghost keeps_on = { λ q r s a b. (kept_on q.flow r.flow q.pool.now.queues r.pool.now.queues s.pool.now.queues a.1 a.0 b.0, b.1 ∙ a.1, b.2 ∙ a.2, b.3 ∙ a.3) };
}

/// Lets a flow whose head was found late send by CoDel's law into `out`, and says whether the packet was marked and when it was queued.
/// `front` is what CoDel reads of the head, which is not judged again.
#[inline(always)]
pub(crate) fn send_late_from<S: Sink>(
    pool: &mut Pool,
    codel: &mut ControlState,
    parameters: &Parameters,
    flow: u32,
    front: Front,
    now: Moment,
    out: &mut KeptPacket,
    sink: &mut S,
) -> Leaving
    requires front { IsFront front (get_or pool.old.queues flow []) }
    requires late { is_late (joined parameters.now codel.old) now (get_or pool.old.queues flow []) ≡ true }
    requires room { count (get_or pool.old.queues flow []) ≤ (S.state sink.old).room }
    ensures sent { taken_as out.new result.marked ≡ taken (joined parameters.now codel.old) now (get_or pool.old.queues flow []) }
    ensures at { Some result.at ≡ option_map (λ (s : Stamped). s.at) (sent (joined parameters.now codel.old) now (get_or pool.old.queues flow [])) }
    ensures left { get_or pool.new.queues flow [] ≡ left (joined parameters.now codel.old) now (get_or pool.old.queues flow []) }
    ensures state { joined parameters.now codel.new ≡ after (joined parameters.now codel.old) now (get_or pool.old.queues flow []) }
    ensures lost { AreLost Cause.CoDel (take (drops (joined parameters.now codel.old) now (get_or pool.old.queues flow [])) (get_or pool.old.queues flow []))
        (S.state sink.old) (S.state sink.new) }
    ensures others { SameBeside flow pool.old.queues pool.new.queues }
    ensures places { pool.new.places ≡ pool.old.places }
    ensures kept { S.keeps sink.old sink.new }
{
    let mut queue = FlowQueue { pool, flow };
    codel.take_late_into(parameters, front, &mut queue, now, sink, out)
}

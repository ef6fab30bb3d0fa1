//! Since when the oldest packet of all flows waits.
ghost use Rattle.std.specs.Prelude.{◌≡◌};
ghost use Rattle.q_fqcodel.specs.FqState.{queue_of};
ghost use Rattle.q_fqcodel.specs.Oldest.{earlier, earliest, first_arrival, first_arrivals};

use crate::flows::Flows;
use q_packet::Moment;

impl Flows {
    /// When the packet arrived that has been queued longest, of those in front of a flow.
    pub(crate) fn oldest(&self) -> Option<Moment>
        ensures { result ≡ earliest (first_arrivals self.now.flows) }
    {
        let mut oldest = None;
        for flow in 0..self.len() {
            oldest = earlier(oldest, self.first_arrival(flow));
        }
        oldest
    }

    // When the packet in front of a flow arrived.
    fn first_arrival(&self, flow: u32) -> Option<Moment>
        ensures { result ≡ first_arrival (queue_of self.now.flows flow) }
    {
        self.pool.arrival_of(flow)
    }
}

// The earlier of two times, each of which may not be there.
fn earlier(a: Option<Moment>, b: Option<Moment>) -> Option<Moment>
    ensures { result ≡ earlier a b }
{
    let Some(first) = a else {
        return b;
    };
    let Some(second) = b else {
        return a;
    };
    Some(first.min(second))
}

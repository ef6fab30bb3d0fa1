//! Since when the oldest packet of an fq_codel waits.
ghost use Rattle.std.specs.Prelude.{◌≡◌};
ghost use Rattle.q_fqcodel.specs.Oldest.{earliest, first_arrivals};

use crate::fq_codel::FqCodel;
use q_packet::Moment;

impl FqCodel {
    /// When the packet arrived that has been queued longest, of those in front of a flow; `None` where every flow is empty. It looks at
    /// each flow once.
    pub fn oldest(&self) -> Option<Moment>
        ensures { result ≡ earliest (first_arrivals self.now.state.flows) }
    {
        self.flows.oldest()
    }
}

ghost use Rattle.std.specs.Prelude.{◌≡◌};
ghost use Rattle.q_fqcodel.specs.Links.{no_link};

use crate::entry::Entry;
use crate::place::Place;

/// What the lists of new and old flows keep of a flow: the one at the link's own index.
#[derive(Clone, Copy, Debug)]
pub(crate) struct Link {
    /// The bytes that the flow may still send in this round. They are read only where the flow is in a list.
    pub credits: i64,
    /// The flow behind it. It is read only where there is one.
    pub next: u32,
    pub place: Place,
}

const _: () = prove!(size_of::<Link>() <= 16);

impl Link {
    /// The link of a flow that is in no list.
    pub(crate) fn unlisted() -> Link
        ensures { result ≡ no_link }
    {
        Link {
            credits: 0,
            next: 0,
            place: Place::Unlisted,
        }
    }

    /// The link of a flow in the list at this place, with none behind it.
    pub(crate) fn last(place: Place, credits: i64) -> Link
        ensures { result ≡ record { credits = credits; next = 0; place = place } }
    {
        Link {
            credits,
            next: 0,
            place,
        }
    }

    /// The flow with its credits, where this is the link of the flow.
    pub(crate) fn entry(self, flow: u32) -> Entry
        ensures { result ≡ record { flow = flow; credits = self.credits } }
    {
        Entry {
            flow,
            credits: self.credits,
        }
    }
}

ghost use Rattle.std.specs.Prelude.{◌≡◌, ◌<◌, [], ◌∷◌, ◌++◌, None, Some, length};

use arrayvec::ArrayVec;
use q_packet::Cause;
use std::marker::Model;

/// The path of a packet from a node down: the place among its children that it goes to at each node, and the cause where it
/// is refused at the end.
///
/// A contract sees it as the record `Route`. A tree has at most eight levels, so that eight places are enough.
#[derive(Drop)]
pub(crate) struct NodeRoute {
    places: ArrayVec<usize, 8>,
    refusal: Option<Cause>,
}

impl Model for NodeRoute {
    ghost use Rattle.q_model.specs.Route.{Route};

    ghost Value = { Route };

    ghost view = { λ w. record { path = w.places.items; refusal = w.refusal } };
}

impl NodeRoute {
    /// Returns a path that ends where it begins, and in no refusal.
    pub(crate) fn new() -> NodeRoute
        ensures { result ≡ record { path = []; refusal = None } }
    {
        NodeRoute {
            places: ArrayVec::new(),
            refusal: None,
        }
    }

    /// Makes the path go on to the child in this place, counted from 0 in class order.
    pub(crate) fn push(&mut self, place: usize)
        requires { length self.old.path < 8 }
        ensures { self.new ≡ record self.old { path = self.old.path ++ place ∷ [] } }
    {
        self.places.push(place);
    }

    /// Makes the path end in a refusal with this cause.
    pub(crate) fn refuse(&mut self, cause: Cause)
        ensures { self.new ≡ record self.old { refusal = Some cause } }
    {
        self.refusal = Some(cause);
    }

    /// Returns, for each node of the path, the place of the child to which it goes, counted from 0 in class order.
    pub(crate) fn places(&self) -> &[usize]
        ensures { result.now ≡ self.now.path }
    {
        &self.places
    }

    /// Returns the cause where the path ends in a refusal, and `None` where it does not.
    pub(crate) fn refusal(&self) -> Option<Cause>
        ensures { result ≡ self.now.refusal }
    {
        self.refusal
    }
}

ghost use Rattle.std.specs.Prelude.{◌≡◌};
ghost use Rattle.q_tree.specs.route.RouteSeen.{path_seen, refusal_seen};

pub(crate) mod choice;
pub(crate) mod node_route;

use crate::route::node_route::NodeRoute;
use q_packet::Cause;
use std::marker::Model;

/// The route of a packet, as [`Tree::route`](crate::Tree::route) found it in the tree as it was then.
///
/// In contracts it is the packet's length and the model's route, which is none if the packet is longer than the mtu: such a packet never reaches
/// the root.
#[derive(Drop)]
pub struct Route {
    pub(crate) way: NodeRoute,
    /// The packet's length in bytes.
    pub(crate) len: u16,
    pub(crate) is_too_long: bool,
}

impl Model for Route {
    ghost use Rattle.std.specs.Prelude.{Some, None, if◌then◌else◌};
    ghost use Rattle.q_tree.specs.route.RouteSeen.{RouteSeen};

    ghost Value = { RouteSeen };

    ghost view = { λ r. record { len = r.len; route = if r.is_too_long then None else Some r.way } };
}

impl Route {
    /// Returns, for each node from the root down, the index of the child to which the packet goes, in class order: at most eight. The path is empty
    /// if the packet is longer than the mtu.
    pub fn path(&self) -> &[usize]
        ensures { result.now ≡ path_seen self.now.route }
    {
        if self.is_too_long {
            return &[];
        }
        self.way.places()
    }

    /// Returns why the packet is refused: [`Cause::TooLong`] above the root, or what applies at the node where the path ends. Returns `None` if the
    /// packet is queued there.
    pub fn refusal(&self) -> Option<Cause>
        ensures { result ≡ refusal_seen self.now.route }
    {
        if self.is_too_long {
            return Some(Cause::TooLong);
        }
        self.way.refusal()
    }
}

//! How long a packet of a fifo waits at most, and by when the packet that is last there has left.
ghost use Rattle.std.specs.Prelude.{◌≡◌, IfSome};
ghost use Rattle.q_model.specs.Tally.{totals};
ghost use Rattle.q_tree.specs.answers.Lanes.{lane_to};
ghost use Rattle.q_tree.specs.answers.Turns.{turn_to};
ghost use Rattle.q_tree.specs.answers.Ways.{IsShare};
ghost use Rattle.q_device.specs.promises.Latest.{latest_at_turn, latest_below, latest_of};
ghost use Rattle.q_device.specs.promises.Worst.{worst_of};

use crate::device::Device;
use crate::promises::latest::{Latest, latest_in, latest_on};
use crate::promises::worst::{Worst, worst_in, worst_in_turn};
use q_model::Place;
use q_tree::{Lane, Link, Turn};

impl Device {
    /// Computes how long a packet waits at most in the pfifo or bfifo in this place. The place is the root, a class that is reached by the first
    /// bands of prios alone, or a class of a drr at the root; or a tbf is at the root, and the place is such a one below it. [`Worst`] says what the
    /// numbers are, and what they promise.
    ///
    /// Returns `None` if nothing is promised: the place has another qdisc or none; it is reached in another way, as by two drrs, or by a prio and a
    /// drr; a tbf is below the root, and the root is no drr; the burst of a tbf at the root is too small, as for [`Device::service`]; or a number
    /// would be too large, which is so from 2^64 bytes on, and above 2^62 nanoseconds. Allocates nothing.
    pub fn worst(&self, place: Place) -> Option<Worst>
        ensures { result ≡ worst_of place self.now.settings.mtu self.now.device.tree.root }
    {
        if let Some(lane) = self.lane_at(&place) {
            return worst_in(lane, self.settings);
        }
        let Some(turn) = self.turn_at(&place) else {
            return None;
        };
        worst_in_turn(&turn, self.settings)
    }

    // The class of a drr in a place that is used again.
    fn turn_at(&self, place: &Place) -> Option<Turn>
        ensures value { result ≡ turn_to place.now self.now.device.tree.root }
        ensures ranges { IfSome result (λ t. IsShare t.share) }
    {
        self.tree.turn_to(*place)
    }

    /// Computes by when a packet of `len` bytes has left, if the next event of the device is that it comes to the pfifo or bfifo in this place and is
    /// kept. With a `len` of 0, computes by when the packet has left that was queued there last; in a class of a drr with nothing queued, when its
    /// turn would come. Returns `None` if [`Device::worst`] would do so with any limit of the fifo, or if a number would be too large. Allocates
    /// nothing.
    pub fn latest(&self, place: Place, len: u16) -> Option<Latest>
        ensures { result ≡ latest_of totals place len self.now.settings.mtu self.now.device }
    {
        if let Some(lane) = self.lane_at(&place) {
            return self.latest_below(lane.link, &place, len);
        }
        let Some(turn) = self.turn_at(&place) else {
            return None;
        };
        self.latest_at_turn(&turn, place, len)
    }

    // The same for the fifo of the class of a drr in this place.
    fn latest_at_turn(&self, turn: &Turn, place: Place, len: u16) -> Option<Latest>
        ensures { result ≡ latest_at_turn place len self.now.settings.mtu self.now.device turn.now }
    {
        let Place::Class(class) = place else {
            return None;
        };
        let bytes = self.tree.bytes_before(class, len)?;
        let (level, now) = (self.tree.level(), self.tree.clock());
        latest_on(turn.link, bytes, level, now, self.settings)
    }

    // The lane to a place that is used again.
    fn lane_at(&self, place: &Place) -> Option<Lane>
        ensures { result ≡ lane_to place.now self.now.device.tree.root }
    {
        self.tree.lane_to(*place)
    }

    // The same for the fifo in this place, below this link.
    fn latest_below(&self, link: Option<Link>, place: &Place, len: u16) -> Option<Latest>
        ensures { result ≡ latest_below totals place.now len self.now.settings.mtu self.now.device link }
    {
        let Some(row) = self.tree.stats(*place) else {
            return None;
        };
        let queued = row.queued.bytes;
        let (level, now) = (self.tree.level(), self.tree.clock());
        latest_in(link, queued, len, level, now, self.settings)
    }
}

ghost use Rattle.std.specs.Prelude.{◌≡◌, ◌≤◌, ◌<◌, false, length, map, IfOk, IfErr, IfSome, IfNone, OnOk, OnErr};
ghost use Rattle.q_ports.specs.Collected.{CollectedBySome, HasReceived};
ghost use Rattle.q_ports.specs.Placed.{placed_by, ring_of_port, share_of};
ghost use Rattle.q_ports.specs.Rings.{received_from, ring_id, AreBeginnings, AreSeenEmpty};
ghost use Rattle.q_ports.specs.Rows.{shown_on};
ghost use Rattle.q_ports.specs.Stopped.{StoppedAtSome};
ghost use Rattle.q_ports.specs.Turned.{PublishesSome, TurnedSome, WithholdsSome};

use crate::booked::Booked;
use crate::intake::Intake;
use crate::port::Port;
use crate::publisher::Publisher;
use crate::settled::Settled;
use crate::settling::settle_on;
use crate::turn::{Turn, turn_on};
use crate::unsettled::Unsettled;
use q_packet::Moment;
use std::alloc::{AllocError, Global};
use std::marker::Model;
use std::sync::ledger::Ledger;
use std::sync::{Mutex, Wait};

/// Feeds the device from the rings: it has the receiver's ends of all rings, the whole permit, and the writer for the gauges.
///
/// It is not `Drop`: [`Drain::settle`] or [`Drain::end`] ends it. In contracts a drain is its rings, with what it received from each, and its
/// board: the rows that it handed over to be published, and those that gauges see.
pub struct Drain<P: Ledger, B: Ledger> {
    pub(crate) intake: Intake<P, B>,
    pub(crate) publisher: Publisher,
}

impl<P: Ledger, B: Ledger> Model for Drain<P, B> {
    ghost use Rattle.q_ports.specs.Turned.{drain_seen, DrainSeen};

    ghost Value = { DrainSeen };

    ghost view = { λ d. drain_seen d.intake d.publisher };
}

impl<P: Ledger, B: Ledger> Drain<P, B> {
    /// Takes a turn: with the lock taken once, packets leave the rings and arrive at the device, and then the device is polled. May wait for the
    /// lock and for gauges.
    ///
    /// `now` is the time of all arrivals and polls. `most` is how many packets arrive at most, and how many polls there are at most, 1 to 1024. The
    /// drain takes one packet from each ring in turn, and goes on behind the ring that it took one from last. Each packet leaves its ring only when
    /// it has arrived. The first poll that gives no packet is the last.
    ///
    /// # Errors
    ///
    /// Returns `AllocError` if the list of the sent packets cannot be allocated. Nothing has changed then. An allocation that fails for a packet is
    /// no error: [`Turn::memory`] tells of it.
    pub fn turn<R: Wait>(
        &mut self,
        rt: &R,
        alloc: Global,
        booked: &Mutex<Booked<P, B>>,
        now: Moment,
        most: usize,
    ) -> Result<Turn, AllocError>
        requires { (1 ≤ most) × (most ≤ 1024) }
        ensures rings { map ring_id self.new.rings ≡ map ring_id self.old.rings }
        ensures few { IfOk result (λ t. t.taken ≤ most) }
        ensures received { IfOk result (λ t. HasReceived (map received_from self.old.rings) (map received_from self.new.rings) t.taken) }
        ensures whole { IfOk result (λ t. t.memory ≡ false → t.taken < most → AreSeenEmpty self.new.rings) }
        ensures few_sent { IfOk result (λ t. length t.sent.items ≤ most) }
        ensures book { self.new.board.book ≡ self.old.board.book }
        ensures told { IfOk result (λ t. IfSome t.told (λ f. f ≡ shown_on self.new.board)) }
        ensures published { IfOk result (λ t. IfSome t.told (λ f. PublishesSome self.old.board self.new.board)) }
        ensures untold { IfOk result (λ t. IfNone t.told (WithholdsSome self.old.board self.new.board)) }
        ensures turned { IfOk result (λ t. TurnedSome now most self.old self.new t) }
        ensures same { OnErr result (self.new ≡ self.old) }
    {
        let mut locked = booked.lock(rt);
        turn_on(self, rt, alloc, &mut *locked, now, most)
    }

    /// Takes in all that is left in the rings, and gives up the permit. May wait for the lock and for gauges.
    ///
    /// `ports` are exactly the ports of this drain, in the order of their indexes. `now` is the time of all arrivals.
    ///
    /// # Errors
    ///
    /// Returns the drain and its ports if an allocation fails. What was taken in stays taken in, and `settle` may be called again.
    pub fn settle<R: Wait>(
        self,
        rt: &R,
        booked: &Mutex<Booked<P, B>>,
        ports: Vec<Port>,
        now: Moment,
    ) -> Result<Settled<P, B>, Unsettled<P, B>>
        requires parts { (P.parts ≡ 65) × (B.parts ≡ 65) }
        requires ports { map ring_of_port ports.items ≡ map ring_id self.rings }
        ensures share { IfOk result (λ s. s ≡ share_of (map placed_by ports.items)) }
        ensures collected { OnOk result (CollectedBySome now (map received_from self.rings) (map placed_by ports.items)) }
        ensures rings { IfErr result (λ u. map ring_id u.drain.rings ≡ map ring_id self.rings) }
        ensures ports { IfErr result (λ u. u.ports.items ≡ ports.items) }
        ensures beginnings { IfErr result (λ u. AreBeginnings (map received_from u.drain.rings) (map placed_by ports.items)) }
        ensures stopped { IfErr result (λ u. StoppedAtSome now (map received_from self.rings) u.drain.rings) }
        ensures board { IfErr result (λ u. u.drain.board ≡ self.board) }
    {
        let mut locked = booked.lock(rt);
        settle_on(self, rt, &mut *locked, ports, now)
    }

    /// Ends the drain without settling. Packets that are left in the rings do not arrive. From then on gauges may read nothing. May wait for
    /// gauges.
    pub fn end<R: Wait>(self, rt: &R) {
        let Drain {
            intake: _intake,
            publisher,
        } = self;
        publisher.end(rt);
    }
}

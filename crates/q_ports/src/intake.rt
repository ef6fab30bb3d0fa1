ghost use Rattle.std.specs.Prelude.{◌≡◌, ◌≢◌, ◌≤◌, ◌<◌, ℕ, true, false, [], length, get_or, map, replicate, IfOk, IfSome, IfNone, OnOk, OnErr};
ghost use Rattle.q_ports.specs.Collected.{Collects, CollectsOnly, CollectsSome};
ghost use Rattle.q_ports.specs.Held.{held};
ghost use Rattle.q_ports.specs.Placed.{placed_by, ring_of_port, share_of};
ghost use Rattle.q_ports.specs.Rings.{all_of, ring_id, received_from, ring_seen, AreEmptyWithin, AreSameFrom, AreSeenEmpty, Looks, LooksBeside, RingSeen};
ghost use Rattle.q_device.specs.device.Room.{StaysButForPlaces};
ghost use Rattle.q_ports.specs.Stopped.{HasNoRoomForNext, Stops, StopsSome};
ghost use Rattle.q_ports.specs.TakenAt.{HasTried, TakesAt, TakesKnown};

use crate::booked::Booked;
use crate::laws::booked_has_its_memory;
use crate::port::Port;
use crate::ring_rule::PacketConsumer;
use crate::seat::Seat;
use crate::settled::Settled;
use q_packet::Moment;
use std::alloc::AllocError;
use std::marker::Model;
use std::sync::ledger::Ledger;

/// The drain's ends of the rings, with the whole permit, with which all that was received from them was let in.
///
/// A contract sees it as the list of its rings.
#[derive(Drop)]
pub struct Intake<P: Ledger, B: Ledger> {
    seat: Seat<P, B>,
    rings: Vec<PacketConsumer>,
    /// The ring after the one that a packet was taken from last.
    next: usize,
}

impl<P: Ledger, B: Ledger> Model for Intake<P, B> {
    ghost use Rattle.std.specs.Prelude.{◌≡◌, ◌<◌, ◌≤◌, List, length, map};
    ghost use Rattle.q_ports.specs.Rings.{ring_seen, seat_for, RingSeen};

    ghost Value = { List RingSeen };

    ghost view = { λ d. map ring_seen d.rings.items };

    ghost invariant = { λ d. (d.seat ≡ seat_for (map ring_seen d.rings.items)) × (d.next < length d.rings.items) × (length d.rings.items ≤ 64) };
}

impl<P: Ledger, B: Ledger> Intake<P, B> {
    /// The ends of rings from which nothing was received, with a whole permit.
    pub(crate) fn new(seat: Seat<P, B>, rings: Vec<PacketConsumer>) -> Intake<P, B>
        requires seat { seat ≡ held 65 0 0 }
        requires count { (1 ≤ length rings.items) × (length rings.items ≤ 64) }
        requires received { map received_from (map ring_seen rings.items) ≡ replicate (length rings.items) [] }
        ensures { result ≡ map ring_seen rings.items }
    {
        Intake {
            seat,
            rings,
            next: 0,
        }
    }

    // The number of rings.
    fn count(&self) -> usize
        ensures count { result ≡ length self.now }
        ensures few { length self.now ≤ 64 }
    {
        self.rings.len()
    }

    // Whether nothing waits in a ring.
    fn is_empty(&mut self, at: usize) -> bool
        requires { at < length self.old }
        ensures { Looks at self.old self.new result }
    {
        self.rings[at].is_empty()
    }

    // Lets the first packet that is known to wait in a ring arrive, and only then takes it out of the ring.
    fn take_known(
        &mut self,
        at: usize,
        booked: &mut Booked<P, B>,
        now: Moment,
    ) -> Result<(), AllocError>
        requires at { at < length self.old }
        requires known { (d : RingSeen) → 0 < length (get_or self.old at d).known }
        ensures taken { OnOk result (TakesKnown at now self.old self.new booked.old booked.new) }
        ensures same { OnErr result (self.new ≡ self.old) }
        ensures same_device { OnErr result (StaysButForPlaces booked.old booked.new) }
        ensures refused { OnErr result (HasNoRoomForNext booked.old self.new) }
    {
        let Intake { seat, rings, .. } = self;
        let ring = &mut rings[at];
        let packet = ring.peek_known();
        booked_has_its_memory(booked);
        let Ok(_) = booked.arrive_kept(seat, packet, now) else {
            return Err(AllocError);
        };
        ring.pop_known();
        Ok(())
    }

    // Takes a packet from a ring, if one waits there, and answers whether it did.
    #[inline(always)]
    fn take_at(
        &mut self,
        at: usize,
        booked: &mut Booked<P, B>,
        now: Moment,
    ) -> Result<bool, AllocError>
        requires at { at < length self.old }
        ensures rings { map ring_id self.new ≡ map ring_id self.old }
        ensures others { (k : ℕ) (d : RingSeen) → k ≢ at → get_or self.new k d ≡ get_or self.old k d }
        ensures some { IfOk result (λ taken. taken ≡ true → TakesAt at now (map received_from self.old) (map received_from self.new) booked.old booked.new) }
        ensures none { IfOk result (λ taken. taken ≡ false → map received_from self.new ≡ map received_from self.old) }
        ensures empty { IfOk result (λ taken. taken ≡ false → (d : RingSeen) → (get_or self.new at d).known ≡ []) }
        ensures none_device { IfOk result (λ taken. taken ≡ false → booked.new ≡ booked.old) }
        ensures err { OnErr result (map received_from self.new ≡ map received_from self.old) }
        ensures err_device { OnErr result (StaysButForPlaces booked.old booked.new) }
        ensures refused { OnErr result (HasNoRoomForNext booked.old self.new) }
    {
        if self.is_empty(at) {
            return Ok(false);
        }
        match self.take_known(at, booked, now) {
            Ok(()) => Ok(true),
            Err(error) => Err(error),
        }
    }

    // Takes a packet from the first of some rings in which one waits, and answers which ring that was.
    #[inline(always)]
    fn take_within(
        &mut self,
        from: usize,
        to: usize,
        booked: &mut Booked<P, B>,
        now: Moment,
    ) -> Result<Option<usize>, AllocError>
        requires { to ≤ length self.old }
        ensures tried { HasTried now self.old self.new booked.old booked.new result }
        ensures others { AreSameFrom to self.old self.new }
        ensures empty { IfOk result (λ taken. IfNone taken (AreEmptyWithin from to self.new)) }
    {
        for at in from..to {
            let is_taken = self.take_at(at, booked, now)?;
            if is_taken {
                return Ok(Some(at));
            }
        }
        Ok(None)
    }

    // The ring at which the drain goes on.
    fn start(&self) -> usize
        ensures { result < length self.now }
    {
        self.next
    }

    // The drain goes on after this ring.
    fn go_on_after(&mut self, ring: usize)
        requires { ring < length self.old }
        ensures { self.new ≡ self.old }
    {
        let count = self.count();
        self.next = if ring + 1 < count { ring + 1 } else { 0 };
    }

    // Takes a packet from the first ring in which one waits, from the one after the ring that was taken from last, and answers which
    // ring that was.
    fn take_next(
        &mut self,
        booked: &mut Booked<P, B>,
        now: Moment,
    ) -> Result<Option<usize>, AllocError>
        ensures tried { HasTried now self.old self.new booked.old booked.new result }
        ensures empty { IfOk result (λ taken. IfNone taken (AreSeenEmpty self.new)) }
    {
        let start = self.start();
        let count = self.count();
        if let Some(at) = self.take_within(start, count, booked, now)? {
            self.go_on_after(at);
            return Ok(Some(at));
        }
        if let Some(at) = self.take_within(0, start, booked, now)? {
            self.go_on_after(at);
            return Ok(Some(at));
        }
        Ok(None)
    }

    /// Takes up to `most` packets, one from each ring in turn, and answers how many; and whether an allocation was refused, which
    /// ends it.
    pub(crate) fn collect(
        &mut self,
        booked: &mut Booked<P, B>,
        now: Moment,
        most: usize,
    ) -> (usize, bool)
        ensures rings { map ring_id self.new ≡ map ring_id self.old }
        ensures collected { Collects now (map received_from self.old) (map received_from self.new) booked.old booked.new result.0 }
        ensures few { result.0 ≤ most }
        ensures whole { result.1 ≡ false → result.0 < most → AreSeenEmpty self.new }
        ensures stopped { result.1 ≡ true → Stops now (map received_from self.old) self.new booked.old booked.new result.0 }
    {
        for taken in 0..most {
            match self.take_next(booked, now) {
                Ok(Some(_)) => {}
                Ok(None) => return (taken, false),
                Err(_) => return (taken, true),
            }
        }
        (most, false)
    }

    // Checks a ring with its port in hand.
    fn look_beside(&mut self, at: usize, port: &mut Port)
        requires at { at < length self.old }
        requires port { (d : RingSeen) → ring_of_port port.old ≡ ring_id (get_or self.old at d) }
        ensures port { port.new ≡ port.old }
        ensures looked { LooksBeside at self.old self.new (placed_by port.old) }
    {
        port.look(&mut self.rings[at]);
    }

    /// Checks every ring with its port in hand: all that is left there is then known.
    pub(crate) fn look_all(&mut self, ports: &mut Vec<Port>)
        requires { map ring_of_port ports.old.items ≡ map ring_id self.old }
        ensures rings { map ring_id self.new ≡ map ring_id self.old }
        ensures received { map received_from self.new ≡ map received_from self.old }
        ensures ports { ports.new.items ≡ ports.old.items }
        ensures all { map all_of self.new ≡ map placed_by ports.old.items }
    {
        for at in 0..ports.len() {
            self.look_beside(at, &mut ports[at]);
        }
    }

    // How many packets are known to wait in a ring.
    fn known(&self, at: usize) -> usize
        requires { at < length self.now }
        ensures { (d : RingSeen) → result ≡ length (get_or self.now at d).known }
    {
        self.rings[at].cached_slots()
    }

    // Takes all packets that are known to wait in a ring.
    fn empty_at(
        &mut self,
        at: usize,
        booked: &mut Booked<P, B>,
        now: Moment,
    ) -> Result<(), AllocError>
        requires { at < length self.old }
        ensures rings { map ring_id self.new ≡ map ring_id self.old }
        ensures all { map all_of self.new ≡ map all_of self.old }
        ensures others { (k : ℕ) (d : RingSeen) → k ≢ at → get_or self.new k d ≡ get_or self.old k d }
        ensures collected { CollectsSome now (map received_from self.old) (map received_from self.new) booked.old booked.new }
        ensures empty { OnOk result ((d : RingSeen) → (get_or self.new at d).known ≡ []) }
        ensures only { OnOk result (CollectsOnly now (map received_from self.old) (map received_from self.new) booked.old booked.new) }
        ensures stopped { OnErr result (StopsSome now (map received_from self.old) self.new booked.old booked.new) }
    {
        for _left in 0..self.known(at) {
            self.take_known(at, booked, now)?;
        }
        Ok(())
    }

    /// Takes all packets that are known to wait in the rings. Those that were taken before an allocation failed stay taken.
    pub(crate) fn empty_all(
        &mut self,
        booked: &mut Booked<P, B>,
        now: Moment,
    ) -> Result<(), AllocError>
        ensures rings { map ring_id self.new ≡ map ring_id self.old }
        ensures all { map all_of self.new ≡ map all_of self.old }
        ensures collected { CollectsSome now (map received_from self.old) (map received_from self.new) booked.old booked.new }
        ensures empty { OnOk result (AreSeenEmpty self.new) }
        ensures stopped { OnErr result (StopsSome now (map received_from self.old) self.new booked.old booked.new) }
    {
        for at in 0..self.count() {
            self.empty_at(at, booked, now)?;
        }
        Ok(())
    }

    /// The whole permit, with all that was received.
    pub(crate) fn settle(self, booked: &mut Booked<P, B>) -> Settled<P, B>
        requires { (P.parts ≡ 65) × (B.parts ≡ 65) }
        ensures share { result ≡ share_of (map received_from self) }
        ensures same { booked.new ≡ booked.old }
    {
        let Intake {
            mut seat,
            rings: _rings,
            next: _,
        } = self;
        booked.audit(&mut seat);
        let share = booked.totals().arrived;
        Settled { seat, share }
    }
}

ghost use Rattle.std.specs.Prelude.{◌≡◌, ◌≤◌, ◌<◌, ◌∷◌, ◌++◌, [], true, false, drop, length, OnOk, OnErr};
ghost use mathlib.Core.List.{IsPrefix};
ghost use Rattle.q_model.specs.Beneath.{totals_in};
ghost use Rattle.q_model.specs.Step.{counts_at};
ghost use Rattle.q_ports.specs.Placed.{placed_by, ring_of_port};
ghost use Rattle.q_ports.specs.Rings.{ring_seen, with_known};
ghost use Rattle.q_device.specs.device.Room.{StaysButForPlaces};
ghost use Rattle.q_ports.specs.TakenIn.{HasNoRoomForFirst, StopsAtFirst, TakesFirst, TakesIn};
ghost use Rattle.rtrb.specs.Ring.{received};

use crate::port::Port;
use crate::ring_rule::PacketConsumer;
use crate::taken_in::TakenIn;
use q_device::laws::device_has_its_memory;
use q_device::{Device, Totals as Share};
use q_packet::{KeptPacket, Moment};
use std::alloc::AllocError;
use std::marker::Model;

/// The receiver's end of a ring, for a program that feeds a device and may not wait. It may be moved to another thread.
///
/// In contracts an outlet is the record `RingSeen`: its ring, the packets that were taken in, in order, and those that are known to wait.
#[derive(Drop)]
pub struct Outlet {
    ring: PacketConsumer,
    /// What was taken in.
    share: Share,
}

impl Model for Outlet {
    ghost use Rattle.std.specs.Prelude.{◌≡◌};
    ghost use Rattle.rtrb.specs.Ring.{received};
    ghost use Rattle.q_model.specs.Beneath.{totals_in};
    ghost use Rattle.q_ports.specs.Rings.{ring_seen, RingSeen};

    ghost Value = { RingSeen };

    ghost view = { λ o. ring_seen o.ring };

    ghost invariant = { λ o. o.share ≡ totals_in (received o.ring) };
}

impl Outlet {
    /// The end of a ring from which nothing was taken in.
    pub(crate) fn new(ring: PacketConsumer) -> Outlet
        requires { received ring ≡ [] }
        ensures { result ≡ ring_seen ring }
    {
        Outlet {
            ring,
            share: Share {
                packets: 0,
                bytes: 0,
            },
        }
    }

    /// Takes packets out of the ring, oldest first: each arrives at the device as by [`Device::arrive_kept`], and leaves the ring only then. Waits
    /// for no thread, and allocates only as the arrivals do.
    ///
    /// `now` is the time of all arrivals, and `most` is how many packets are taken at most.
    ///
    /// Returns how many packets arrived. If they are fewer than `most`, the ring was empty when the call looked last, or an allocation failed. In
    /// the second case the packet stays first in the ring, nothing more is taken, and the field `memory` is true.
    pub fn take_in(&mut self, device: &mut Device, now: Moment, most: usize) -> TakenIn
        ensures few { result.taken ≤ most }
        ensures taken { TakesIn now self.old self.new device.old device.new result.taken }
        ensures whole { result.memory ≡ false → result.taken < most → self.new.known ≡ [] }
        ensures stopped { result.memory ≡ true → StopsAtFirst now self.old self.new device.old device.new result.taken }
    {
        for taken in 0..most {
            if self.is_empty() {
                return TakenIn {
                    taken,
                    memory: false,
                };
            }
            match self.take_first(device, now) {
                Ok(()) => {}
                Err(_) => {
                    return TakenIn {
                        taken,
                        memory: true,
                    };
                }
            }
        }
        TakenIn {
            taken: most,
            memory: false,
        }
    }

    /// Returns how many packets and bytes were taken in so far.
    pub fn share(&self) -> Share
        ensures { result ≡ totals_in self.now.received }
    {
        self.share
    }

    /// Checks the ring with its port in hand, and answers how many packets wait there.
    pub(crate) fn look_beside(&mut self, port: &mut Port) -> usize
        requires { ring_of_port port.old ≡ self.old.ring }
        ensures same { port.new ≡ port.old }
        ensures looked { self.new ≡ with_known self.new.known self.old }
        ensures whole { self.old.received ++ self.new.known ≡ placed_by port.old }
        ensures waiting { result ≡ length self.new.known }
    {
        port.look(&mut self.ring);
        self.ring.cached_slots()
    }

    /// Whether nothing waits in the ring.
    pub(crate) fn is_empty(&mut self) -> bool
        ensures looked { self.new ≡ with_known self.new.known self.old }
        ensures longer { IsPrefix self.old.known self.new.known }
        ensures empty { result ≡ true → self.new.known ≡ [] }
        ensures some { result ≡ false → 0 < length self.new.known }
    {
        self.ring.is_empty()
    }

    /// The first packet that is known to wait.
    pub(crate) fn first(&self) -> KeptPacket
        requires { 0 < length self.now.known }
        ensures { self.now.known ≡ result ∷ drop 1 self.now.known }
    {
        *self.ring.peek_known()
    }

    /// Lets the first packet that is known to wait arrive, and only then takes it out of the ring.
    pub(crate) fn take_first(&mut self, device: &mut Device, now: Moment) -> Result<(), AllocError>
        requires { 0 < length self.old.known }
        ensures taken { OnOk result (TakesFirst now self.old self.new device.old device.new) }
        ensures same { OnErr result (self.new ≡ self.old) }
        ensures same_device { OnErr result (StaysButForPlaces device.old device.new) }
        ensures refused { OnErr result (HasNoRoomForFirst device.old self.old) }
        ensures clock { OnOk result (device.new.device.clock ≡ counts_at now device.old.device) }
    {
        let packet = self.ring.peek_known();
        let len = u64::from(packet.len());
        device_has_its_memory(device);
        let Ok(_) = device.arrive_kept(packet, now) else {
            return Err(AllocError);
        };
        self.ring.pop_known();
        self.share.packets += 1;
        self.share.bytes += len;
        Ok(())
    }
}

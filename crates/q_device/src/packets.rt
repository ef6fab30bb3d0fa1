//! Arrivals and polls in the forms in which callers have their packets: a packet is converted, or already has the form in which queues keep it.
ghost use Rattle.std.specs.Prelude.{◌≡◌, ◌≤◌, IfErr, IfOk, IsOk, OnErr, OnOk, unwrap_or};
ghost use Rattle.q_model.specs.Step.{step};
ghost use Rattle.q_model.specs.Tally.{totals, with_packet};
ghost use Rattle.q_model.specs.TreeState.{given};
ghost use Rattle.q_model.specs.declared.event.Event.TheVariants as event;
ghost use Rattle.q_model.specs.declared.reply.Reply.TheVariants as reply;
ghost use Rattle.q_packet.specs.Descriptor.{Descriptor};
ghost use Rattle.q_device.specs.Counters.{HasNotFallen};
ghost use Rattle.q_device.specs.device.DeviceSeen.{HasNoFewerPlaces, HasRoomFor, as_counted, polled_memory, with_event};
ghost use Rattle.q_device.specs.device.Giving.{polled_in};

use crate::device::Device;
use crate::given::Given;
use q_model::{Fate, Polled};
use q_packet::{KeptPacket, Moment, Packet, SOME_KEPT};
use std::alloc::AllocError;

impl Device {
    /// A packet arrives at the device, which queues it or loses it. A lost packet is also handed out by [`Device::reap`]. An arrival at a full
    /// fq_codel may lose other packets, which then wait to be reaped too. All memory is allocated first: a place in the packet's queue, and one for
    /// its loss.
    ///
    /// `now` is the time. A time before the device's clock counts as the clock. The event is recorded with the time that the clock shows after it.
    ///
    /// Returns [`Fate::Kept`] if the packet is queued, and otherwise [`Fate::Lost`] with the cause.
    ///
    /// # Errors
    ///
    /// Returns the packet and `AllocError` if an allocation fails, or if the counters of what arrived could overflow with one more packet. This
    /// does not happen if there is room for the packet already. On an error the packet has not arrived, and nothing has changed, except that there
    /// may be more places in memory: what there was room for, there still is room for.
    #[inline(always)]
    pub fn arrive(&mut self, packet: Packet, now: Moment) -> Result<Fate, (Packet, AllocError)>
        ensures event { OnOk result (self.new ≡ record (with_event (event.Arrive packet now) self.old) { memory = self.new.memory }) }
        ensures moment { OnOk result (as_counted self.old.device (event.Arrive packet now) ≡ event.Arrive packet self.new.device.clock) }
        ensures fate { IfOk result (λ fate. reply.Fate fate ≡ (step totals self.old.device (event.Arrive packet now)).reply) }
        ensures arrived { OnOk result (self.new.device.tree.top.arrived ≡ with_packet self.old.device.tree.top.arrived packet) }
        ensures same { OnErr result (self.new ≡ record self.old { memory = self.new.memory }) }
        ensures succeeds { HasRoomFor packet self.old → IsOk result }
        ensures places { self.old.memory.losses ≤ self.new.memory.losses }
        ensures queues { HasNoFewerPlaces self.old.memory self.new.memory }
        ensures keeps { OnErr result ((other : Descriptor) → HasRoomFor other self.old → HasRoomFor other self.new) }
        ensures recorder { self.new.memory.events ≡ self.old.memory.events }
        ensures back { IfErr result (λ refused. refused.0 ≡ packet) }
        ensures counters { HasNotFallen self.old.device.tree.top self.new.device.tree.top }
    {
        match self.arrive_at(&packet, now) {
            Ok(fate) => Ok(fate),
            Err(refused) => Err((packet, refused)),
        }
    }

    /// Does what [`Device::arrive`] does, for a packet that stays where it is.
    ///
    /// # Errors
    ///
    /// Returns `AllocError` where [`Device::arrive`] does. On an error the packet has not arrived, and nothing has changed, except that there may
    /// be more places in memory: what there was room for, there still is room for.
    #[inline(always)]
    pub fn arrive_at(&mut self, packet: &Packet, now: Moment) -> Result<Fate, AllocError>
        ensures event { OnOk result (self.new ≡ record (with_event (event.Arrive packet.now now) self.old) { memory = self.new.memory }) }
        ensures moment { OnOk result (as_counted self.old.device (event.Arrive packet.now now) ≡ event.Arrive packet.now self.new.device.clock) }
        ensures fate { IfOk result (λ fate. reply.Fate fate ≡ (step totals self.old.device (event.Arrive packet.now now)).reply) }
        ensures arrived { OnOk result (self.new.device.tree.top.arrived ≡ with_packet self.old.device.tree.top.arrived packet.now) }
        ensures same { OnErr result (self.new ≡ record self.old { memory = self.new.memory }) }
        ensures succeeds { HasRoomFor packet.now self.old → IsOk result }
        ensures places { self.old.memory.losses ≤ self.new.memory.losses }
        ensures queues { HasNoFewerPlaces self.old.memory self.new.memory }
        ensures keeps { OnErr result ((other : Descriptor) → HasRoomFor other self.old → HasRoomFor other self.new) }
        ensures recorder { self.new.memory.events ≡ self.old.memory.events }
        ensures counters { HasNotFallen self.old.device.tree.top self.new.device.tree.top }
    {
        self.arrive_kept(&KeptPacket::of(packet), now)
    }

    /// Does what [`Device::arrive`] does, for a packet in the form in which queues keep it. The packet stays where it is, and is copied from there
    /// into its queue.
    ///
    /// # Errors
    ///
    /// Returns `AllocError` where [`Device::arrive`] does. On an error the packet has not arrived, and nothing has changed, except that there may
    /// be more places in memory: what there was room for, there still is room for.
    #[inline(always)]
    pub fn arrive_kept(&mut self, packet: &KeptPacket, now: Moment) -> Result<Fate, AllocError>
        ensures event { OnOk result (self.new ≡ record (with_event (event.Arrive packet.now now) self.old) { memory = self.new.memory }) }
        ensures moment { OnOk result (as_counted self.old.device (event.Arrive packet.now now) ≡ event.Arrive packet.now self.new.device.clock) }
        ensures fate { IfOk result (λ fate. reply.Fate fate ≡ (step totals self.old.device (event.Arrive packet.now now)).reply) }
        ensures arrived { OnOk result (self.new.device.tree.top.arrived ≡ with_packet self.old.device.tree.top.arrived packet.now) }
        ensures same { OnErr result (self.new ≡ record self.old { memory = self.new.memory }) }
        ensures succeeds { HasRoomFor packet.now self.old → IsOk result }
        ensures places { self.old.memory.losses ≤ self.new.memory.losses }
        ensures queues { HasNoFewerPlaces self.old.memory self.new.memory }
        ensures keeps { OnErr result ((other : Descriptor) → HasRoomFor other self.old → HasRoomFor other self.new) }
        ensures recorder { self.new.memory.events ≡ self.old.memory.events }
        ensures counters { HasNotFallen self.old.device.tree.top self.new.device.tree.top }
    {
        self.arrive_stored(&packet.stored, now)
    }

    /// Takes the packet whose turn it is. CoDel may lose other packets in a poll, which then wait for [`Device::reap`].
    ///
    /// `now` is the time. A time before the device's clock counts as the clock. The event is recorded with the time that the clock shows after it.
    ///
    /// Returns the packet. If there is none to send, returns `Idle` if nothing is queued, and `Later` if packets are queued. Allocates nothing.
    #[inline(always)]
    pub fn poll(&mut self, now: Moment) -> Polled
        ensures event { self.new ≡ record (with_event (event.Poll now) self.old) { memory = self.new.memory } }
        ensures memory { self.new.memory ≡ polled_memory self.new.device.clock self.old.memory }
        ensures moment { as_counted self.old.device (event.Poll now) ≡ event.Poll self.new.device.clock }
        ensures reply { reply.Polled result ≡ (step totals self.old.device (event.Poll now)).reply }
        ensures arrived { self.new.device.tree.top.arrived ≡ self.old.device.tree.top.arrived }
        ensures counters { HasNotFallen self.old.device.tree.top self.new.device.tree.top }
    {
        let mut out = SOME_KEPT;
        match self.poll_kept(now, &mut out) {
            Given::Packet => Polled::Packet(out.packet()),
            Given::Idle => Polled::Idle,
            Given::Later => Polled::Later,
        }
    }

    /// Does what [`Device::poll`] does, and writes the packet to `out`. If no packet is given, `out` stays as it is. Allocates nothing.
    #[inline(always)]
    pub fn poll_into(&mut self, now: Moment, out: &mut Packet) -> Given
        ensures event { self.new ≡ record (with_event (event.Poll now) self.old) { memory = self.new.memory } }
        ensures memory { self.new.memory ≡ polled_memory self.new.device.clock self.old.memory }
        ensures moment { as_counted self.old.device (event.Poll now) ≡ event.Poll self.new.device.clock }
        ensures reply { reply.Polled (polled_in out.new result) ≡ (step totals self.old.device (event.Poll now)).reply }
        ensures packet { out.new ≡ unwrap_or (given self.new.device.clock self.old.device.tree) out.old }
        ensures arrived { self.new.device.tree.top.arrived ≡ self.old.device.tree.top.arrived }
        ensures counters { HasNotFallen self.old.device.tree.top self.new.device.tree.top }
    {
        let mut kept = SOME_KEPT;
        match self.poll_kept(now, &mut kept) {
            Given::Packet => {
                *out = kept.packet();
                Given::Packet
            }
            Given::Idle => Given::Idle,
            Given::Later => Given::Later,
        }
    }
}

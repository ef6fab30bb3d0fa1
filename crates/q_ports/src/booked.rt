ghost use Rattle.std.specs.Prelude.{ℕ, ◌≡◌, ◌<◌, ◌≤◌, ◌^◌, true, None, IfNone, IfSome, IsSome, Ok, IsOk, IfOk, OnOk, OnErr, IfErr, slice_get, unwrap_or};
ghost use Rattle.q_packet.specs.Descriptor.{Descriptor};
ghost use Rattle.q_model.specs.Conserved.{IsBalanced};
ghost use Rattle.q_model.specs.Tally.{no_totals};
ghost use Rattle.q_model.specs.TreeState.{given, stats};
ghost use Rattle.q_model.specs.Tally.{totals, with_packet};
ghost use Rattle.q_model.specs.declared.event.Event.TheVariants as event;
ghost use Rattle.q_model.specs.declared.reply.Reply.TheVariants as reply;
ghost use Rattle.q_device.specs.Counters.{HasNotFallen};
ghost use Rattle.q_device.specs.device.DeviceSeen.{as_counted, polled_memory, reaped, HasNoFewerPlaces, HasRoomFor, IsCommanded, IsRefusal, IsRefusedAt};
ghost use Rattle.q_device.specs.device.Giving.{polled_in};
ghost use Rattle.q_tree.specs.answers.ReadyAt.{is_sure, ready_at};
ghost use Rattle.q_tree.specs.commands.Commanding.{MayTakeMemory};
ghost use Rattle.q_device.specs.Events.{after_event, device_row, reply_to, with_memory};
ghost use Rattle.q_ports.specs.Held.{booking, held};

use crate::seat::Seat;
use q_device::laws::device_is_lawful;
use q_device::{Command, Device, Event, Fate, Given, Lost, Place, Polled, Refusal, Row};
use q_packet::{KeptPacket, Moment, Packet};
use std::alloc::AllocError;
use std::marker::Model;
use std::sync::ledger::{Blank, Book, Ledger};

/// A device with a book of its arrivals, in packets and in bytes. It is the value behind the lock.
///
/// In contracts it is its device. Its invariant says that the book is what the device counts as arrived. `P` is the book's ledger of packets, and
/// `B` that of bytes, each of 65 parts.
#[derive(Drop)]
pub struct Booked<P: Ledger, B: Ledger> {
    device: Device,
    packets: Book<P>,
    bytes: Book<B>,
}

impl<P: Ledger, B: Ledger> Model for Booked<P, B> {
    ghost use Rattle.std.specs.Prelude.{◌≡◌};
    ghost use Rattle.q_device.specs.device.DeviceCode.{device_code};
    ghost use Rattle.q_device.specs.device.DeviceSeen.{DeviceSeen};

    ghost Value = { DeviceSeen };

    ghost coded = { device_code };

    ghost view = { λ b. b.device };

    ghost invariant = { λ b. (b.packets.total ≡ b.device.device.tree.top.arrived.packets) × (b.bytes.total ≡ b.device.device.tree.top.arrived.bytes) };
}

impl<P: Ledger, B: Ledger> Booked<P, B> {
    /// Opens the book of a device at which nothing has arrived. Returns both, and the permit, which has all 65 parts of the book.
    ///
    /// `packets` and `bytes` are the blanks of the two ledgers.
    pub fn new(device: Device, packets: Blank, bytes: Blank) -> (Booked<P, B>, Seat<P, B>)
        requires nothing { device.device.tree.top.arrived ≡ no_totals }
        requires packets { (packets.name ≡ P.name) × (packets.parts ≡ P.parts) × (P.parts ≡ 65) }
        requires bytes { (bytes.name ≡ B.name) × (bytes.parts ≡ B.parts) × (B.parts ≡ 65) }
        ensures device { result.0 ≡ device }
        ensures seat { result.1 ≡ held 65 0 0 }
    {
        let (packets, packets_share) = packets.open::<P>();
        let (bytes, bytes_share) = bytes.open::<B>();
        let booked = Booked {
            device,
            packets,
            bytes,
        };
        let seat = Seat {
            parts: 65,
            packets: packets_share,
            bytes: bytes_share,
        };
        (booked, seat)
    }

    /// A packet arrives, as by [`Device::arrive`], and is booked with the permit. Packets arrive only by this function, [`Booked::arrive_at`] and
    /// [`Booked::arrive_kept`].
    ///
    /// # Errors
    ///
    /// Returns the packet and `AllocError` where [`Device::arrive`] does. On an error the packet has not arrived, and nothing has changed, except
    /// that there may be more places in memory: what there was room for, there still is room for.
    pub fn arrive(
        &mut self,
        seat: &mut Seat<P, B>,
        packet: Packet,
        now: Moment,
    ) -> Result<Fate, (Packet, AllocError)>
        ensures event { OnOk result (self.new ≡ with_memory self.new.memory (after_event (event.Arrive packet now) self.old)) }
        ensures moment { OnOk result (as_counted self.old.device (event.Arrive packet now) ≡ event.Arrive packet self.new.device.clock) }
        ensures fate { IfOk result (λ fate. reply.Fate fate ≡ reply_to (event.Arrive packet now) self.old) }
        ensures arrived { OnOk result (self.new.device.tree.top.arrived ≡ with_packet self.old.device.tree.top.arrived packet) }
        ensures seat { OnOk result (seat.new ≡ booking seat.old packet) }
        ensures same { OnErr result (self.new ≡ with_memory self.new.memory self.old) }
        ensures same_seat { OnErr result (seat.new ≡ seat.old) }
        ensures back { IfErr result (λ refused. refused.0 ≡ packet) }
        ensures succeeds { HasRoomFor packet self.old → IsOk result }
        ensures places { self.old.memory.losses ≤ self.new.memory.losses }
        ensures queues { HasNoFewerPlaces self.old.memory self.new.memory }
        ensures keeps { OnErr result ((other : Descriptor) → HasRoomFor other self.old → HasRoomFor other self.new) }
        ensures recorder { self.new.memory.events ≡ self.old.memory.events }
        ensures counters { HasNotFallen self.old.device.tree.top self.new.device.tree.top }
    {
        match self.arrive_at(seat, &packet, now) {
            Ok(fate) => Ok(fate),
            Err(refused) => Err((packet, refused)),
        }
    }

    /// Does what [`Booked::arrive`] does, for a packet that stays where it is, as [`Device::arrive_at`].
    ///
    /// # Errors
    ///
    /// Returns `AllocError` where [`Device::arrive_at`] does, and leaves the device as that call does.
    pub fn arrive_at(
        &mut self,
        seat: &mut Seat<P, B>,
        packet: &Packet,
        now: Moment,
    ) -> Result<Fate, AllocError>
        ensures event { OnOk result (self.new ≡ with_memory self.new.memory (after_event (event.Arrive packet.now now) self.old)) }
        ensures moment { OnOk result (as_counted self.old.device (event.Arrive packet.now now) ≡ event.Arrive packet.now self.new.device.clock) }
        ensures fate { IfOk result (λ fate. reply.Fate fate ≡ reply_to (event.Arrive packet.now now) self.old) }
        ensures arrived { OnOk result (self.new.device.tree.top.arrived ≡ with_packet self.old.device.tree.top.arrived packet.now) }
        ensures seat { OnOk result (seat.new ≡ booking seat.old packet.now) }
        ensures same { OnErr result (self.new ≡ with_memory self.new.memory self.old) }
        ensures same_seat { OnErr result (seat.new ≡ seat.old) }
        ensures succeeds { HasRoomFor packet.now self.old → IsOk result }
        ensures places { self.old.memory.losses ≤ self.new.memory.losses }
        ensures queues { HasNoFewerPlaces self.old.memory self.new.memory }
        ensures keeps { OnErr result ((other : Descriptor) → HasRoomFor other self.old → HasRoomFor other self.new) }
        ensures recorder { self.new.memory.events ≡ self.old.memory.events }
        ensures counters { HasNotFallen self.old.device.tree.top self.new.device.tree.top }
    {
        self.arrive_kept(seat, &KeptPacket::of(packet), now)
    }

    /// Does what [`Booked::arrive`] does, for a packet in the form in which queues keep it, as [`Device::arrive_kept`].
    ///
    /// # Errors
    ///
    /// Returns `AllocError` where [`Device::arrive_kept`] does, and leaves the device as that call does.
    pub fn arrive_kept(
        &mut self,
        seat: &mut Seat<P, B>,
        packet: &KeptPacket,
        now: Moment,
    ) -> Result<Fate, AllocError>
        ensures event { OnOk result (self.new ≡ with_memory self.new.memory (after_event (event.Arrive packet.now now) self.old)) }
        ensures moment { OnOk result (as_counted self.old.device (event.Arrive packet.now now) ≡ event.Arrive packet.now self.new.device.clock) }
        ensures fate { IfOk result (λ fate. reply.Fate fate ≡ reply_to (event.Arrive packet.now now) self.old) }
        ensures arrived { OnOk result (self.new.device.tree.top.arrived ≡ with_packet self.old.device.tree.top.arrived packet.now) }
        ensures seat { OnOk result (seat.new ≡ booking seat.old packet.now) }
        ensures same { OnErr result (self.new ≡ with_memory self.new.memory self.old) }
        ensures same_seat { OnErr result (seat.new ≡ seat.old) }
        ensures succeeds { HasRoomFor packet.now self.old → IsOk result }
        ensures places { self.old.memory.losses ≤ self.new.memory.losses }
        ensures queues { HasNoFewerPlaces self.old.memory self.new.memory }
        ensures keeps { OnErr result ((other : Descriptor) → HasRoomFor other self.old → HasRoomFor other self.new) }
        ensures recorder { self.new.memory.events ≡ self.old.memory.events }
        ensures counters { HasNotFallen self.old.device.tree.top self.new.device.tree.top }
    {
        let fate = self.device.arrive_kept(packet, now)?;
        self.packets.add(&mut seat.packets, 1);
        self.bytes.add(&mut seat.bytes, u64::from(packet.len()));
        Ok(fate)
    }

    /// Takes the packet whose turn it is, as [`Device::poll`] does. Allocates nothing.
    pub fn poll(&mut self, now: Moment) -> Polled
        ensures event { self.new ≡ with_memory self.new.memory (after_event (event.Poll now) self.old) }
        ensures memory { self.new.memory ≡ polled_memory self.new.device.clock self.old.memory }
        ensures moment { as_counted self.old.device (event.Poll now) ≡ event.Poll self.new.device.clock }
        ensures reply { reply.Polled result ≡ reply_to (event.Poll now) self.old }
        ensures arrived { self.new.device.tree.top.arrived ≡ self.old.device.tree.top.arrived }
        ensures counters { HasNotFallen self.old.device.tree.top self.new.device.tree.top }
    {
        self.device.poll(now)
    }

    /// Does what [`Booked::poll`] does, and writes the packet to `out`. If no packet is given, `out` stays as it is.
    pub fn poll_into(&mut self, now: Moment, out: &mut Packet) -> Given
        ensures event { self.new ≡ with_memory self.new.memory (after_event (event.Poll now) self.old) }
        ensures memory { self.new.memory ≡ polled_memory self.new.device.clock self.old.memory }
        ensures moment { as_counted self.old.device (event.Poll now) ≡ event.Poll self.new.device.clock }
        ensures reply { reply.Polled (polled_in out.new result) ≡ reply_to (event.Poll now) self.old }
        ensures packet { out.new ≡ unwrap_or (given self.new.device.clock self.old.device.tree) out.old }
        ensures arrived { self.new.device.tree.top.arrived ≡ self.old.device.tree.top.arrived }
        ensures counters { HasNotFallen self.old.device.tree.top self.new.device.tree.top }
    {
        self.device.poll_into(now, out)
    }

    /// Returns the time before which no poll gives a packet, as [`Device::ready_at`] does. A poll at that time may still give none.
    pub fn ready_at(&self) -> Option<Moment>
        ensures value { result ≡ ready_at self.now.device.clock self.now.device.tree.root }
        ensures from { IfSome result (λ at. self.now.device.clock ≤ at) }
        ensures early { IfSome result (λ at. (t : ℕ) → self.now.device.clock ≤ t → t < at → given t self.now.device.tree ≡ None) }
        ensures some { is_sure self.now.device.clock self.now.device.tree.root ≡ true → IfSome result (λ at. IsSome (given at self.now.device.tree)) }
        ensures never { IfNone result ((t : ℕ) → self.now.device.clock ≤ t → t ≤ 2 ^ 62 → given t self.now.device.tree ≡ None) }
    {
        self.device.ready_at()
    }

    /// Carries out what a line of tc asks for, or refuses it, as [`Device::command`] does. No packet arrives by that.
    ///
    /// # Errors
    ///
    /// Returns what [`Device::command`] returns: the first refusal that applies to the command, or that an allocation failed. Nothing has changed
    /// then.
    pub fn command(&mut self, command: Command, now: Moment) -> Result<(), Refusal>
        ensures event { OnOk result (self.new ≡ with_memory self.new.memory (after_event (event.Command command now) self.old)) }
        ensures moment { OnOk result (as_counted self.old.device (event.Command command now) ≡ event.Command command self.new.device.clock) }
        ensures reply { OnOk result (reply.Done (Ok (record {})) ≡ reply_to (event.Command command now) self.old) }
        ensures refused { IfErr result (IsRefusal (MayTakeMemory command) (reply_to (event.Command command now) self.old)) }
        ensures memory { IfErr result (IsRefusedAt command now self.old) }
        ensures same { OnErr result (self.new ≡ self.old) }
        ensures places { self.new.memory.losses ≡ self.old.memory.losses }
        ensures queues { OnOk result (IsCommanded command self.new.device.clock self.old.memory self.new.memory) }
        ensures recorder { self.new.memory.events ≡ self.old.memory.events }
        ensures arrived { self.new.device.tree.top.arrived ≡ self.old.device.tree.top.arrived }
        ensures counters { HasNotFallen self.old.device.tree.top self.new.device.tree.top }
    {
        self.device.command(command, now)
    }

    /// Hands out the oldest loss that was not handed out yet, as [`Device::reap`] does. Allocates nothing, and is no event.
    pub fn reap(&mut self) -> Option<Lost>
        ensures oldest { result ≡ slice_get self.old.waiting 0 }
        ensures rest { self.new ≡ reaped self.old }
        ensures keeps { (packet : Descriptor) → HasRoomFor packet self.old → HasRoomFor packet self.new }
    {
        self.device.reap()
    }

    /// Returns the counters of the device itself, and what is queued in it now. The row is balanced: what arrived is what was sent, refused or
    /// dropped, or is queued.
    pub fn totals(&self) -> Row
        ensures row { result ≡ device_row self.now }
        ensures balanced { IsBalanced result }
    {
        device_is_lawful(&self.device);
        self.device.totals()
    }

    /// Returns the counters of the node in this place, and what is queued in it and below it now. Returns `None` if the place has no node.
    pub fn stats(&self, place: Place) -> Option<Row>
        ensures { result ≡ stats totals place self.now.device.tree }
    {
        self.device.stats(place)
    }

    /// Returns the recorded events: the first ones, as many as the recorder keeps, each with the time at which it counted.
    pub fn recorded(&self) -> &[Event]
        ensures { result.now ≡ self.now.recorded }
    {
        self.device.recorded()
    }

    /// Returns how many events there were, recorded or not. The number stays at 2^64 - 1 once it is that.
    pub fn events(&self) -> u64
        ensures { result ≡ self.now.events }
    {
        self.device.events()
    }

    /// Closes the book, and returns the device.
    pub fn into_device(self) -> Device
        ensures { result ≡ self }
    {
        let Booked {
            device,
            packets: _packets,
            bytes: _bytes,
        } = self;
        device
    }

    // The device, for the laws.
    pub(crate) fn device(&self) -> &Device
        ensures { result.now ≡ self.now }
    {
        &self.device
    }

    // Compares a permit with the book. Neither changes.
    pub(crate) fn audit(&mut self, seat: &mut Seat<P, B>)
        ensures same { self.new ≡ self.old }
        ensures seat { seat.new ≡ seat.old }
        ensures bound { (seat.old.packets ≤ self.old.device.tree.top.arrived.packets) × (seat.old.bytes ≤ self.old.device.tree.top.arrived.bytes) }
        ensures packets { seat.old.parts ≡ P.parts → seat.old.packets ≡ self.old.device.tree.top.arrived.packets }
        ensures bytes { seat.old.parts ≡ B.parts → seat.old.bytes ≡ self.old.device.tree.top.arrived.bytes }
    {
        self.packets.audit(&mut seat.packets);
        self.bytes.audit(&mut seat.bytes);
    }
}

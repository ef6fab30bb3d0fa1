ghost use Rattle.std.specs.Prelude.{ℕ, ◌≡◌, ◌+◌, ◌%◌, ◌<◌, nat_lt, ◌≤◌, ◌↔◌, ◌==◌, [], ◌∷◌, length, set, slice_get, option_map, pos, true, false, if◌then◌else◌, IsSome, IfSome, IsNone, IsOk, IfOk, OnOk, OnErr};
ghost use Rattle.std.specs.Option.{option_map_or};
ghost use Rattle.q_packet.specs.Totals.{count, size};
ghost use Rattle.q_packet.specs.Descriptor.{Descriptor};
ghost use Rattle.q_codel.specs.declared.front.Front.{Front as Read};
ghost use Rattle.q_codel.specs.declared.codel.Taken.{Taken};
ghost use Rattle.q_codel.specs.Losses.{AreLost};
ghost use Rattle.q_packet.specs.declared.stamped.Stamped.{Stamped};

mod oldest;
mod rounds;

use crate::active_lists::ActiveLists;
use crate::dropped::Dropped;
use crate::entry::Entry;
use crate::flow_list::FlowList;
use crate::flows::{Flows, Late};
use crate::link::Link;
use crate::sent::Sent;
use crate::settings::Settings;
use q_codel::{ControlState, Front, Sink, Taken};
use q_packet::{Cause, KeptPacket, Moment, Packet, SOME_KEPT};
use std::alloc::{AllocError, Global};
use std::marker::Model;

/// FQ-CoDel (RFC 8290): flows that share a link by quanta, each managed by CoDel.
///
/// A contract sees it as the record `FqView`: its state (`FqState`: the settings, the flows by index, and the lists of new
/// and old flows), and how many packets it has places for. Only [`FqCodel::reserve`] allocates memory for packets.
#[derive(Drop)]
pub struct FqCodel {
    settings: Settings,
    flows: Flows,
    // RFC 8290's new_flows and old_flows.
    lists: ActiveLists,
}

// What a flow takes: the list of its packets, what CoDel knows of it, its link, and its leaf and inner node of the tournament tree.
const _: () = prove!(
    size_of::<FlowList>() + size_of::<ControlState>() + size_of::<Link>() + 2 * size_of::<u64>()
        <= 96
);

impl Model for FqCodel {
    ghost use Rattle.std.specs.Prelude.{◌≡◌};
    ghost use Rattle.q_fqcodel.specs.FqState.{FqView};
    ghost use Rattle.q_fqcodel.specs.FlowsState.{state_of};
    ghost use Rattle.q_fqcodel.specs.Lawful.{IsLawful};

    ghost Value = { FqView };

    ghost view = { λ q. record { state = state_of q.settings q.flows q.lists.new_flows q.lists.old_flows; places = q.flows.places } };

    ghost invariant = { λ q.
        IsLawful (state_of q.settings q.flows q.lists.new_flows q.lists.old_flows)
        × (q.lists.room ≡ q.settings.flows) };
}

impl FqCodel {
    ghost use Rattle.std.specs.Prelude.{not};
    ghost use Rattle.std.specs.Prelude.{min};
    ghost use Rattle.q_fqcodel.specs.FqState.{packets_of, bytes_of, all_packets, first_state, after_change};
    ghost use Rattle.q_fqcodel.specs.Put.{after_put, lost_by_put, is_lost_itself};
    ghost use Rattle.q_fqcodel.specs.Take.{selected, front, head_sent, sent_from, dropped_from, after_sending, IsFrontLate};
    ghost use Rattle.q_fqcodel.specs.Lawful.{IsLawful};
    ghost use Rattle.q_fqcodel.specs.Turns.{GoesOn, IsSettled};

    /// Takes the next packet to send at the time `now`, and hands those that CoDel drops before it to `sink`. Returns
    /// `None` exactly if no flow has a packet. It allocates nothing.
    ///
    /// `sink` needs room for as many packets as all flows hold.
    pub fn take<S: Sink>(&mut self, now: Moment, sink: &mut S) -> Option<Taken>
        requires { packets_of self.old.state.flows ≤ (S.state sink.old).room }
        ensures sent { result ≡ sent_from now (selected self.old.state) }
        ensures some { IsSome result ↔ (0 < packets_of self.old.state.flows) }
        ensures after { self.new.state ≡ after_sending now (selected self.old.state) }
        ensures places { self.new.places ≡ self.old.places }
        ensures lost { AreLost Cause.CoDel (dropped_from now (selected self.old.state)) (S.state sink.old) (S.state sink.new) }
        ensures kept { S.keeps sink.old sink.new }
    {
        let mut packet = SOME_KEPT;
        let sent = self.take_into(now, &mut packet, sink);
        // A packet has a byte at least.
        let _ = &packet.stored.len;
        if sent.len == 0 {
            return None;
        }
        Some(Taken {
            packet: packet.packet(),
            marked: sent.marked,
        })
    }

    /// Does what [`FqCodel::take`] does, and writes the packet into `out`, so that it is copied once; `out` stays where no flow
    /// has a packet. The result has its length, and whether CoDel marked it or dropped packets before it.
    #[inline(always)]
    pub fn take_into<S: Sink>(&mut self, now: Moment, out: &mut KeptPacket, sink: &mut S) -> Sent
        requires { packets_of self.old.state.flows ≤ (S.state sink.old).room }
        ensures len { result.len ≡ option_map_or (λ (t : Taken). t.packet.len) (sent_from now (selected self.old.state)) 0 }
        ensures some { (0 < result.len) ↔ (0 < packets_of self.old.state.flows) }
        ensures packet { out.new ≡ option_map_or (λ (t : Taken). t.packet) (sent_from now (selected self.old.state)) out.old }
        ensures marked { result.marked ≡ option_map_or (λ (t : Taken). t.marked) (sent_from now (selected self.old.state)) false }
        ensures at { result.at ≡ option_map_or (λ (s : Stamped). s.at) (head_sent now (selected self.old.state)) 0 }
        ensures dropped { result.dropped ≡ not (count (dropped_from now (selected self.old.state)) == 0) }
        ensures after { self.new.state ≡ after_sending now (selected self.old.state) }
        ensures places { self.new.places ≡ self.old.places }
        ensures lost { AreLost Cause.CoDel (dropped_from now (selected self.old.state)) (S.state sink.old) (S.state sink.new) }
        ensures kept { S.keeps sink.old sink.new }
    {
        match self.pass_into(now, out) {
            Ok(None) => {
                return Sent {
                    len: 0,
                    marked: false,
                    dropped: false,
                    at: Moment::zero(),
                };
            }
            Ok(Some(front)) => {
                return Sent {
                    len: front.len,
                    marked: false,
                    dropped: false,
                    at: front.at,
                };
            }
            Err(_) => return self.take_late_into(now, out, sink),
        }
    }

    /// Does what [`FqCodel::take_into`] does where the packet in front goes as it is, and returns what CoDel read of it; `None` where no
    /// flow has a packet. So the usual take has no sink, and nothing to report of drops and marks.
    ///
    /// # Errors
    ///
    /// [`Late`] where CoDel finds that packet late, so that it has to drop or mark: the flow that sends is in front then, and
    /// [`FqCodel::take_late_into`] goes on.
    #[inline(always)]
    pub fn pass_into(&mut self, now: Moment, out: &mut KeptPacket) -> Result<Option<Front>, Late>
        ensures len { IfOk result (λ passed. option_map (λ (f : Read). f.len) passed ≡ option_map (λ (t : Taken). t.packet.len) (sent_from now (selected self.old.state))) }
        ensures at { IfOk result (λ passed. option_map (λ (f : Read). f.at) passed ≡ option_map (λ (s : Stamped). s.at) (head_sent now (selected self.old.state))) }
        ensures some { IfOk result (λ passed. IsSome passed ↔ (0 < packets_of self.old.state.flows)) }
        ensures positive { IfOk result (λ passed. IfSome passed (λ f. 0 < f.len)) }
        ensures packet { OnOk result (out.new ≡ option_map_or (λ (t : Taken). t.packet) (sent_from now (selected self.old.state)) out.old) }
        ensures marked { OnOk result (option_map_or (λ (t : Taken). t.marked) (sent_from now (selected self.old.state)) false ≡ false) }
        ensures dropped { OnOk result (dropped_from now (selected self.old.state) ≡ []) }
        ensures after { OnOk result (self.new.state ≡ after_sending now (selected self.old.state)) }
        ensures places { self.new.places ≡ self.old.places }
        ensures late { OnErr result (IsFrontLate now self.new.state) }
        ensures settled { OnErr result (IsSettled self.new.state) }
        ensures selected { OnErr result (self.new.state ≡ selected self.old.state) }
        ensures packets { OnErr result (packets_of self.new.state.flows ≡ packets_of self.old.state.flows) }
        ensures unwritten { OnErr result (out.new ≡ out.old) }
    {
        let first = self.select();
        self.pass_front_into(first, now, out)
    }

    /// Does what [`FqCodel::take_into`] does, once [`FqCodel::pass_into`] has found the packet in front late.
    #[inline(always)]
    pub fn take_late_into<S: Sink>(
        &mut self,
        now: Moment,
        out: &mut KeptPacket,
        sink: &mut S,
    ) -> Sent
        requires settled { IsSettled self.old.state }
        requires late { IsFrontLate now self.old.state }
        requires room { packets_of self.old.state.flows ≤ (S.state sink.old).room }
        ensures len { result.len ≡ option_map_or (λ (t : Taken). t.packet.len) (sent_from now self.old.state) 0 }
        ensures sends { 0 < result.len }
        ensures some { (0 < result.len) ↔ (0 < packets_of self.old.state.flows) }
        ensures packet { out.new ≡ option_map_or (λ (t : Taken). t.packet) (sent_from now self.old.state) out.old }
        ensures marked { result.marked ≡ option_map_or (λ (t : Taken). t.marked) (sent_from now self.old.state) false }
        ensures at { Some result.at ≡ option_map (λ (s : Stamped). s.at) (head_sent now self.old.state) }
        ensures dropped { result.dropped ≡ not (count (dropped_from now self.old.state) == 0) }
        ensures after { self.new.state ≡ after_sending now self.old.state }
        ensures places { self.new.places ≡ self.old.places }
        ensures lost { AreLost Cause.CoDel (dropped_from now self.old.state) (S.state sink.old) (S.state sink.new) }
        ensures kept { S.keeps sink.old sink.new }
    {
        let front = self.first().unwrap();
        let sent = self.flows.send_late_into(front.flow, now, out, sink);
        // CoDel's drops cost the flow nothing: only what is sent does.
        self.lists.write_front(front.charged(sent.len));
        sent
    }

    /// Puts a packet at the end of its flow, at the time `now`: the flow with the index `hash mod flows`.
    ///
    /// Where the flows then hold more than `limit` packets, the fat flow loses `drop_batch` packets from its front, but no
    /// more than it has, and one packet fewer than there are; they are handed to `sink`. The result says whether the packet
    /// that was put is itself among them. It takes no memory: [`FqCodel::reserve`] makes the place.
    pub fn put<S: Sink>(&mut self, packet: Packet, now: Moment, sink: &mut S) -> bool
        requires place { packets_of self.old.state.flows < self.old.places }
        requires room { min self.old.state.settings.drop_batch (packets_of self.old.state.flows + 1) ≤ (S.state sink.old).room }
        ensures answer { result ≡ is_lost_itself self.old.state packet now }
        ensures after { self.new.state ≡ after_put self.old.state packet now }
        ensures places { self.new.places ≡ self.old.places }
        ensures lost { AreLost Cause.FatFlow (lost_by_put self.old.state packet now) (S.state sink.old) (S.state sink.new) }
        ensures kept { S.keeps sink.old sink.new }
    {
        let packet = KeptPacket::of(&packet);
        self.put_from(&packet, now, sink)
    }

    /// Does what [`FqCodel::put`] does, with a packet that is read in the caller's memory.
    #[inline(always)]
    pub fn put_from<S: Sink>(&mut self, packet: &KeptPacket, now: Moment, sink: &mut S) -> bool
        requires place { packets_of self.old.state.flows < self.old.places }
        requires room { min self.old.state.settings.drop_batch (packets_of self.old.state.flows + 1) ≤ (S.state sink.old).room }
        ensures answer { result ≡ is_lost_itself self.old.state packet.now now }
        ensures after { self.new.state ≡ after_put self.old.state packet.now now }
        ensures places { self.new.places ≡ self.old.places }
        ensures lost { AreLost Cause.FatFlow (lost_by_put self.old.state packet.now now) (S.state sink.old) (S.state sink.new) }
        ensures kept { S.keeps sink.old sink.new }
    {
        self.put_counted(packet, now, sink).itself
    }

    /// Does what [`FqCodel::put_from`] does, and returns how much the fat flow lost, so that no caller counts before and after.
    #[inline(always)]
    pub fn put_counted<S: Sink>(
        &mut self,
        packet: &KeptPacket,
        now: Moment,
        sink: &mut S,
    ) -> Dropped
        requires place { packets_of self.old.state.flows < self.old.places }
        requires room { min self.old.state.settings.drop_batch (packets_of self.old.state.flows + 1) ≤ (S.state sink.old).room }
        ensures itself { result.itself ≡ is_lost_itself self.old.state packet.now now }
        ensures packets { result.packets ≡ count (lost_by_put self.old.state packet.now now) }
        ensures bytes { result.bytes ≡ size (lost_by_put self.old.state packet.now now) }
        ensures after { self.new.state ≡ after_put self.old.state packet.now now }
        ensures places { self.new.places ≡ self.old.places }
        ensures lost { AreLost Cause.FatFlow (lost_by_put self.old.state packet.now now) (S.state sink.old) (S.state sink.new) }
        ensures kept { S.keeps sink.old sink.new }
    {
        // Before the lists are written, so that the compiler asks once where the caller has asked `fits`.
        let fits = self.fits();
        let settings = self.settings;
        let flow = flow_by_hash(packet.stored.hash, settings.flows);
        self.lists.enlist(flow, settings.quantum);
        if fits {
            self.flows.push(flow, packet, now);
            return Dropped {
                packets: 0,
                bytes: 0,
                itself: false,
            };
        }
        let packets = self.flows.count() + 1;
        let bytes = self.flows.bytes() + packet.stored.len as u64;
        let batch = settings.drop_batch;
        let itself = self.flows.push_over(flow, packet, now, batch, sink);
        let packets_after = self.flows.count();
        let bytes_after = self.flows.bytes();
        Dropped {
            packets: packets - packets_after,
            bytes: bytes - bytes_after,
            itself,
        }
    }

    /// Whether one packet more stays within the limit: nothing is lost by a put then.
    pub fn fits(&self) -> bool
        ensures value { result ≡ nat_lt (packets_of self.now.state.flows) self.now.state.settings.limit }
        ensures none_lost { result ≡ true → (packet : Descriptor) (now : ℕ) → lost_by_put self.now.state packet now ≡ [] }
        ensures stays { result ≡ true → (packet : Descriptor) (now : ℕ) → is_lost_itself self.now.state packet now ≡ false }
    {
        let settings = self.settings;
        self.flows.count() < settings.limit as u64
    }

    /// Makes a place for one packet more; if there is one, nothing changes.
    pub fn reserve(&mut self) -> Result<(), AllocError>
        ensures had_room { packets_of self.old.state.flows < self.old.places → self.new ≡ self.old }
        ensures ok { OnOk result (packets_of self.new.state.flows < self.new.places) }
        ensures state { self.new.state ≡ self.old.state }
        ensures grows { self.old.places ≤ self.new.places }
        ensures err { OnErr result (self.new ≡ self.old) }
        ensures succeeds { packets_of self.old.state.flows < self.old.places → IsOk result }
    {
        self.flows.reserve()
    }

    /// An fq_codel with these settings and without packets. It allocates all memory but the places for packets, of which it has none.
    pub fn new(alloc: Global, settings: Settings) -> Result<FqCodel, AllocError>
        ensures state { IfOk result (λ q. q.state ≡ first_state settings) }
        ensures places { IfOk result (λ q. q.places ≡ 0) }
    {
        let flows = Flows::new(alloc, settings)?;
        let lists = ActiveLists::new(alloc, settings.flows)?;
        Ok(FqCodel {
            settings,
            flows,
            lists,
        })
    }

    /// Changes the settings, all but the number of flows and the mtu. It loses nothing; credits and CoDel's states stay.
    pub fn change(&mut self, settings: Settings)
        requires flows { settings.flows ≡ self.old.state.settings.flows }
        requires mtu { settings.mtu ≡ self.old.state.settings.mtu }
        ensures after { self.new.state ≡ after_change self.old.state settings }
        ensures places { self.new.places ≡ self.old.places }
    {
        self.settings = settings;
        self.flows
            .set_params(settings.target, settings.interval, settings.ecn);
    }

    /// Loses every packet, flow by flow, each from its front. The flows, the lists and their credits are then as at first.
    pub fn purge<S: Sink>(&mut self, sink: &mut S)
        requires { packets_of self.old.state.flows ≤ (S.state sink.old).room }
        ensures after { self.new.state ≡ first_state self.old.state.settings }
        ensures places { self.new.places ≡ self.old.places }
        ensures lost { AreLost Cause.Purged (all_packets self.old.state.flows) (S.state sink.old) (S.state sink.new) }
        ensures kept { S.keeps sink.old sink.new }
    {
        self.flows.purge(self.settings, sink);
        self.lists.clear();
    }

    /// The packets in all flows, and their bytes.
    ///
    /// Every fq_codel is lawful: no flow is listed twice, in one list or over both, and every flow with a packet is listed.
    pub fn queued(&self) -> (u64, u64)
        ensures packets { result.0 ≡ packets_of self.now.state.flows }
        ensures bytes { result.1 ≡ bytes_of self.now.state.flows }
        ensures lawful { IsLawful self.now.state }
    {
        (self.flows.count(), self.flows.bytes())
    }

    /// How many flows are listed as new, and how many as old (RFC 8290, section 4.2). It walks no list.
    pub fn listed(&self) -> (usize, usize)
        ensures new { result.0 ≡ length self.now.state.new_flows }
        ensures old { result.1 ≡ length self.now.state.old_flows }
    {
        self.lists.lengths()
    }

    /// The settings as they are now.
    pub fn settings(&self) -> Settings
        ensures { result ≡ self.now.state.settings }
    {
        self.settings
    }

    // Brings the flow that sends next to the front of its list, and answers it: it is not read again.
    #[inline(always)]
    fn select(&mut self) -> Option<Entry>
        ensures first { result ≡ front self.new.state }
        ensures state { self.new.state ≡ selected self.old.state }
        ensures places { self.new.places ≡ self.old.places }
        ensures settled { IsSettled self.new.state }
        ensures packets { packets_of self.new.state.flows ≡ packets_of self.old.state.flows }
    {
        // New flows go before old ones, so that a sparse flow waits for no bulk flow (RFC 8290, section 4.2).
        while self.has_new() {
            if let Some(first) = self.turn_new() {
                return Some(first);
            }
        }
        while self.has_old() {
            let visit = self.visit_old();
            if let Some(first) = visit.first {
                return Some(first);
            }
            // A quantum that is too small for its packet: rounds may follow in which no flow sends.
            if visit.short {
                self.skip_rounds();
            }
        }
        None
    }

    fn has_new(&self) -> bool
        ensures { result ≡ not (length self.now.state.new_flows == 0) }
    {
        self.lists.has_new()
    }

    fn has_old(&self) -> bool
        ensures { result ≡ not (length self.now.state.old_flows == 0) }
    {
        self.lists.has_old()
    }

    // The flow in front of the new list, if it sends; where it does not, it goes to the end of the old list.
    #[inline(always)]
    fn turn_new(&mut self) -> Option<Entry>
        requires { 0 < length self.old.state.new_flows }
        ensures first { IsSome result → result ≡ front self.old.state }
        ensures stays { IsSome result → self.new ≡ self.old }
        ensures settled { IsSome result → IsSettled self.new.state }
        ensures on { IsNone result → GoesOn self.old.state self.new.state }
        ensures places { self.new.places ≡ self.old.places }
    {
        let settings = self.settings;
        let entry = self.lists.first_new().unwrap();
        // Its quantum is spent: it is given the next, and is new no longer.
        if entry.credits <= 0 {
            self.lists.move_to_old(entry.granted(settings.quantum));
            return None;
        }
        // Emptied: it becomes old, since a flow forgotten here would be new again with its next packet, before all old ones.
        if self.flows.is_idle(entry.flow) {
            self.flows.rest(entry.flow);
            self.lists.move_to_old(entry);
            return None;
        }
        Some(entry)
    }

    // The flow in front: of the new list, or of the old one where the new one is empty.
    fn first(&self) -> Option<Entry>
        ensures { result ≡ front self.now.state }
    {
        if self.has_new() {
            return self.lists.first_new();
        }
        self.lists.first_old()
    }

    // Sends the packet of the flow in front into `out`, where CoDel lets it go as it is, and lets the flow pay for it.
    #[inline(always)]
    fn pass_front_into(
        &mut self,
        first: Option<Entry>,
        now: Moment,
        out: &mut KeptPacket,
    ) -> Result<Option<Front>, Late>
        requires first { first ≡ front self.old.state }
        requires settled { IsSettled self.old.state }
        ensures len { IfOk result (λ passed. option_map (λ (f : Read). f.len) passed ≡ option_map (λ (t : Taken). t.packet.len) (sent_from now self.old.state)) }
        ensures at { IfOk result (λ passed. option_map (λ (f : Read). f.at) passed ≡ option_map (λ (s : Stamped). s.at) (head_sent now self.old.state)) }
        ensures some { IfOk result (λ passed. IsSome passed ↔ (0 < packets_of self.old.state.flows)) }
        ensures positive { IfOk result (λ passed. IfSome passed (λ f. 0 < f.len)) }
        ensures packet { OnOk result (out.new ≡ option_map_or (λ (t : Taken). t.packet) (sent_from now self.old.state) out.old) }
        ensures marked { OnOk result (option_map_or (λ (t : Taken). t.marked) (sent_from now self.old.state) false ≡ false) }
        ensures dropped { OnOk result (dropped_from now self.old.state ≡ []) }
        ensures after { OnOk result (self.new.state ≡ after_sending now self.old.state) }
        ensures places { self.new.places ≡ self.old.places }
        ensures late { OnErr result (IsFrontLate now self.old.state) }
        ensures stays { OnErr result (self.new.state ≡ self.old.state) }
        ensures unwritten { OnErr result (out.new ≡ out.old) }
    {
        let Some(front) = first else {
            // An fq_codel with no flow in front holds no packet, as its state is lawful.
            let _ = self.queued();
            return Ok(None);
        };
        let passed = self.flows.pass_into(front.flow, now, out)?;
        self.lists.write_front(front.charged(passed.len));
        Ok(Some(passed))
    }
}

// The flow of a packet with this hash: by a mask where the number of flows is a power of two, since a division takes longer.
#[inline(always)]
fn flow_by_hash(hash: u32, flows: u32) -> u32
    requires { 1 ≤ flows }
    ensures { result ≡ hash % flows }
{
    let mask = flows - 1;
    // A power of two alone has no bit in common with the number before it.
    let is_power = flows & mask == 0;
    if is_power {
        return hash & mask;
    }
    hash % flows
}

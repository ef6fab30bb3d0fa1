//! All flows by index: where a flow's packets are, what CoDel knows of it, and how its list is told of both.
ghost use Rattle.std.specs.Prelude.{◌≡◌, ◌+◌, ◌<◌, ◌≤◌, ◌%◌, ◌^◌, [], ◌&&◌, ◌==◌, not, true, false, nat_le, length, map, replicate, take, drop, set, slice_get, get_or, ◌↔◌, Some, option_map, IsSome, IfSome, IsOk, IfOk, OnOk, OnErr};
ghost use Rattle.q_packet.specs.Totals.{count};
ghost use Rattle.q_packet.specs.declared.stamped.Stamped.{Stamped};
ghost use Rattle.q_codel.specs.Codel.{is_late, sent};
ghost use Rattle.q_codel.specs.Front.{IsFront};
ghost use Rattle.q_codel.specs.Losses.{AreLost};
ghost use Rattle.q_fqcodel.specs.Cleared.{adjust};
ghost use Rattle.q_fqcodel.specs.FqState.{queue_of, is_idle, packets_of, bytes_of, rested_flow, retuned, all_packets, first_flow};
ghost use Rattle.q_fqcodel.specs.Put.{joined, shortened, fattest, shed_count};
ghost use Rattle.q_fqcodel.specs.Take.{taken_as, packet_sent, packets_dropped, flow_after};
ghost use Rattle.q_fqcodel.specs.Pool.{stamp, cleared};

mod oldest;

use crate::course::Course;
use crate::flow_queue::send_late_from;
use crate::pool::Pool;
use crate::sent::Sent;
use crate::settings::Settings;
use crate::winners::Winners;
use q_codel::{ControlState, Front, Parameters, Sink};
use q_packet::{Cause, KeptPacket, Moment};
use std::alloc::{AllocError, Global};
use std::marker::Model;

/// All flows, by index: their packets, and CoDel for each, with the same settings.
#[derive(Drop)]
pub(crate) struct Flows {
    pool: Pool,
    // What CoDel knows of each flow.
    states: Vec<ControlState>,
    // CoDel's settings, which all flows have.
    parameters: Parameters,
    // The mtu, which is one of these settings, but which they do not show.
    mtu: u16,
    winners: Winners,
}

impl Model for Flows {
    ghost use Rattle.std.specs.Prelude.{◌≡◌, length, ◌≤◌};
    ghost use Rattle.q_fqcodel.specs.FlowsState.{FlowsState};
    ghost use Rattle.q_fqcodel.specs.Pool.{flows_from, codels_in, sizes};

    ghost Value = { FlowsState };

    ghost view = { λ f. record { flows = flows_from f.pool.queues (codels_in f.parameters f.states.items); places = f.pool.places } };

    ghost invariant = { λ f.
        (length f.pool.queues ≡ length (codels_in f.parameters f.states.items))
        × (length f.states.items ≤ 65536)
        × (f.winners ≡ sizes f.pool.queues)
        × (f.parameters.mtu ≡ f.mtu) };
}

/// CoDel finds the packet in front late, so that it has to drop or to mark: nothing was sent.
#[derive(Clone, Copy, Debug)]
pub struct Late;

impl Flows {
    /// Empty flows, as many as the settings say, and with their settings of CoDel.
    pub(crate) fn new(alloc: Global, settings: Settings) -> Result<Flows, AllocError>
        ensures flows { IfOk result (λ f. f.flows ≡ replicate settings.flows (first_flow settings)) }
        ensures places { IfOk result (λ f. f.places ≡ 0) }
    {
        let pool = Pool::new(alloc, settings.flows)?;
        let states = vec![in alloc; ControlState::new(); settings.flows as usize]?;
        let winners = Winners::new(alloc, settings.flows)?;
        Ok(Flows {
            pool,
            states,
            parameters: parameters_of(settings),
            mtu: settings.mtu,
            winners,
        })
    }

    /// Makes a place for one packet more, where there is none.
    pub(crate) fn reserve(&mut self) -> Result<(), AllocError>
        ensures had_room { packets_of self.old.flows < self.old.places → self.new ≡ self.old }
        ensures flows { self.new.flows ≡ self.old.flows }
        ensures grows { self.old.places ≤ self.new.places }
        ensures ok { OnOk result (packets_of self.new.flows < self.new.places) }
        ensures err { OnErr result (self.new ≡ self.old) }
        ensures succeeds { packets_of self.old.flows < self.old.places → IsOk result }
    {
        self.pool.reserve()
    }

    /// The packets in all flows.
    pub(crate) fn count(&self) -> u64
        ensures { result ≡ packets_of self.now.flows }
    {
        self.pool.count()
    }

    /// Their bytes.
    pub(crate) fn bytes(&self) -> u64
        ensures value { result ≡ bytes_of self.now.flows }
        ensures few { result < 2 ^ 48 }
    {
        self.pool.bytes()
    }

    /// Whether a flow is empty.
    pub(crate) fn is_idle(&self, flow: u32) -> bool
        requires { flow < length self.now.flows }
        ensures { result ≡ is_idle self.now.flows flow }
    {
        self.pool.count_at(flow) == 0
    }

    /// The packets in a flow.
    pub(crate) fn count_of(&self, flow: u32) -> u64
        ensures { result ≡ count (queue_of self.now.flows flow) }
    {
        self.pool.count_of(flow)
    }

    /// Appends a packet to a flow.
    #[inline(always)]
    pub(crate) fn push(&mut self, flow: u32, packet: &KeptPacket, now: Moment)
        requires in_range { flow < length self.old.flows }
        requires own { packet.now.hash % length self.old.flows ≡ flow }
        requires place { packets_of self.old.flows < self.old.places }
        requires few { packets_of self.old.flows < 2 ^ 32 }
        ensures flows { self.new.flows ≡ adjust (joined (stamp packet.now now)) flow self.old.flows }
        ensures places { self.new.places ≡ self.old.places }
    {
        let held = self.pool.push(packet, now, flow);
        self.winners.renew(flow, held, Course::Rose);
    }

    /// Notes that a flow was met empty, with credits.
    pub(crate) fn rest(&mut self, flow: u32)
        requires { flow < length self.old.flows }
        ensures flows { self.new.flows ≡ adjust rested_flow flow self.old.flows }
        ensures places { self.new.places ≡ self.old.places }
    {
        self.states[flow as usize].rest();
    }

    /// Sends the head of a flow, which has one, into `out` as it is, and returns what CoDel read of it.
    ///
    /// # Errors
    ///
    /// [`Late`] where CoDel finds the head late, so that [`Flows::send_late_into`] has to drop or mark it; nothing has changed then.
    #[inline(always)]
    pub(crate) fn pass_into(
        &mut self,
        flow: u32,
        now: Moment,
        out: &mut KeptPacket,
    ) -> Result<Front, Late>
        requires in_range { flow < length self.old.flows }
        requires some { 0 < count (queue_of self.old.flows flow) }
        ensures sent { OnOk result (IfSome (slice_get self.old.flows flow) (λ f. taken_as out.new false ≡ packet_sent now f)) }
        ensures at { IfOk result (λ front. IfSome (slice_get self.old.flows flow) (λ f. Some front.at ≡ option_map (λ (s : Stamped). s.at) (sent f.codel now f.queue))) }
        ensures len { IfOk result (λ front. front.len ≡ out.new.len) }
        ensures some { IfOk result (λ front. 0 < front.len) }
        ensures dropped { OnOk result (IfSome (slice_get self.old.flows flow) (λ f. packets_dropped now f ≡ [])) }
        ensures flows { OnOk result (self.new.flows ≡ adjust (flow_after now) flow self.old.flows) }
        ensures places { self.new.places ≡ self.old.places }
        ensures late { OnErr result (IfSome (slice_get self.old.flows flow) (λ f. is_late f.codel now f.queue ≡ true)) }
        ensures stays { OnErr result (self.new.flows ≡ self.old.flows) }
        ensures unwritten { OnErr result (out.new ≡ out.old) }
    {
        let (front, bytes) = self.pool.peek(flow);
        let behind = bytes - front.len as u64;
        let codel = &self.states[flow as usize];
        let Some(after) = codel.passed(&self.parameters, &front, behind, now) else {
            return Err(Late);
        };
        self.pool.take_of_into(flow, out);
        self.states[flow as usize].pass(after);
        self.winners.renew(flow, behind, Course::Fell);
        Ok(front)
    }

    /// Lets a flow whose head CoDel found late send by its law into `out`. The head is not judged again.
    #[inline(always)]
    pub(crate) fn send_late_into<S: Sink>(
        &mut self,
        flow: u32,
        now: Moment,
        out: &mut KeptPacket,
        sink: &mut S,
    ) -> Sent
        requires in_range { flow < length self.old.flows }
        requires some { 0 < count (queue_of self.old.flows flow) }
        requires late { IfSome (slice_get self.old.flows flow) (λ f. is_late f.codel now f.queue ≡ true) }
        requires room { count (queue_of self.old.flows flow) ≤ (S.state sink.old).room }
        ensures sent { IfSome (slice_get self.old.flows flow) (λ f. taken_as out.new result.marked ≡ packet_sent now f) }
        ensures at { IfSome (slice_get self.old.flows flow) (λ f. Some result.at ≡ option_map (λ (s : Stamped). s.at) (sent f.codel now f.queue)) }
        ensures len { result.len ≡ out.new.len }
        ensures some { 0 < result.len }
        ensures dropped { IfSome (slice_get self.old.flows flow) (λ f. result.dropped ≡ not (count (packets_dropped now f) == 0)) }
        ensures flows { self.new.flows ≡ adjust (flow_after now) flow self.old.flows }
        ensures places { self.new.places ≡ self.old.places }
        ensures lost { IfSome (slice_get self.old.flows flow)
            (λ f. AreLost Cause.CoDel (packets_dropped now f) (S.state sink.old) (S.state sink.new)) }
        ensures kept { S.keeps sink.old sink.new }
    {
        let (front, _) = self.pool.peek(flow);
        let held = self.pool.count_at(flow);
        let codel = &mut self.states[flow as usize];
        let leaving = send_late_from(
            &mut self.pool,
            codel,
            &self.parameters,
            flow,
            front,
            now,
            out,
            sink,
        );
        let rest = self.pool.count_at(flow);
        let bytes = self.pool.bytes_at(flow);
        self.winners.renew(flow, bytes, Course::Either);
        Sent {
            len: out.stored.len,
            marked: leaving.marked,
            dropped: held - rest > 1,
            at: leaving.at,
        }
    }

    // The fat flow, once a packet with so many bytes has joined a flow.
    fn fattest_with(&self, flow: u32, len: u16) -> u32
        requires within { flow < length self.now.flows }
        requires few { packets_of self.now.flows < 2 ^ 32 }
        requires some { 1 ≤ len }
        ensures value { (s : Stamped) → s.packet.len ≡ len → result ≡ fattest (adjust (joined s) flow self.now.flows) }
        ensures some { (s : Stamped) → s.packet.len ≡ len → 0 < count (queue_of (adjust (joined s) flow self.now.flows) result) }
    {
        self.pool.each_has_bytes();
        let held = self.pool.bytes_at(flow) + len as u64;
        self.winners.top_with(flow, held)
    }

    /// Loses the first `lost` packets of a flow.
    pub(crate) fn lose<S: Sink>(&mut self, flow: u32, lost: u64, cause: Cause, sink: &mut S)
        requires held { lost ≤ count (queue_of self.old.flows flow) }
        requires room { lost ≤ (S.state sink.old).room }
        ensures flows { self.new.flows ≡ adjust (shortened lost) flow self.old.flows }
        ensures places { self.new.places ≡ self.old.places }
        ensures lost { AreLost cause (take lost (queue_of self.old.flows flow)) (S.state sink.old) (S.state sink.new) }
        ensures kept { S.keeps sink.old sink.new }
    {
        if lost == 0 {
            return;
        }
        lose_from(&mut self.pool, flow, lost, cause, sink);
        // Once for the whole batch, and not for each packet.
        let rest = self.pool.bytes_of(flow);
        self.winners.renew(flow, rest, Course::Either);
    }

    // How many packets the fat flow loses where the limit is passed.
    fn shed_count(&self, fat: u32, batch: u32) -> u64
        requires fat { fat ≡ fattest self.now.flows }
        requires some { 0 < packets_of self.now.flows }
        ensures { result ≡ shed_count self.now.flows batch }
    {
        let most = self.count_of(fat).min(self.count() - 1);
        most.min(batch as u64)
    }

    // Appends a packet to a flow, which then loses the first `lost` of its packets.
    #[inline(always)]
    fn exchange<S: Sink>(
        &mut self,
        flow: u32,
        packet: &KeptPacket,
        now: Moment,
        lost: u64,
        sink: &mut S,
    )
        requires in_range { flow < length self.old.flows }
        requires own { packet.now.hash % length self.old.flows ≡ flow }
        requires place { packets_of self.old.flows < self.old.places }
        requires few { packets_of self.old.flows < 2 ^ 32 }
        requires held { lost ≤ count (queue_of (adjust (joined (stamp packet.now now)) flow self.old.flows) flow) }
        requires room { lost ≤ (S.state sink.old).room }
        ensures flows { self.new.flows ≡ adjust (shortened lost) flow (adjust (joined (stamp packet.now now)) flow self.old.flows) }
        ensures places { self.new.places ≡ self.old.places }
        ensures lost { AreLost Cause.FatFlow (take lost (queue_of (adjust (joined (stamp packet.now now)) flow self.old.flows) flow))
            (S.state sink.old) (S.state sink.new) }
        ensures kept { S.keeps sink.old sink.new }
    {
        let _ = self.pool.push(packet, now, flow);
        lose_from(&mut self.pool, flow, lost, Cause::FatFlow, sink);
        // Once for what it gains and loses.
        let kept = self.pool.bytes_of(flow);
        self.winners.renew(flow, kept, Course::Either);
    }

    // Whether a flow has a packet, and a batch is of one.
    fn sheds_one(&self, fat: u32, batch: u32) -> bool
        ensures one { result ≡ true → batch ≡ 1 }
        ensures held { result ≡ true → 0 < count (queue_of self.now.flows fat) }
        ensures comes { batch ≡ 1 → 0 < count (queue_of self.now.flows fat) → result ≡ true }
    {
        if batch != 1 {
            return false;
        }
        self.count_of(fat) > 0
    }

    // Appends a packet to a flow, and loses the first packet of the fat one, whose node is the first that a packet takes.
    #[inline(always)]
    fn swap<S: Sink>(&mut self, flow: u32, packet: &KeptPacket, now: Moment, fat: u32, sink: &mut S)
        requires in_range { flow < length self.old.flows }
        requires own { packet.now.hash % length self.old.flows ≡ flow }
        requires place { packets_of self.old.flows < self.old.places }
        requires few { packets_of self.old.flows < 2 ^ 32 }
        requires held { 0 < count (queue_of self.old.flows fat) }
        requires room { 1 ≤ (S.state sink.old).room }
        ensures flows { self.new.flows ≡ adjust (shortened 1) fat (adjust (joined (stamp packet.now now)) flow self.old.flows) }
        ensures places { self.new.places ≡ self.old.places }
        ensures lost { AreLost Cause.FatFlow (take 1 (queue_of (adjust (joined (stamp packet.now now)) flow self.old.flows) fat))
            (S.state sink.old) (S.state sink.new) }
        ensures kept { S.keeps sink.old sink.new }
    {
        let own = self.pool.replace(fat, flow, packet, now, sink);
        if fat == flow {
            self.winners.renew(flow, own, Course::Either);
            return;
        }
        self.winners.renew(flow, own, Course::Rose);
        let rest = self.pool.bytes_at(fat);
        self.winners.renew(fat, rest, Course::Fell);
    }

    /// Appends a packet to a flow where the limit is passed with it: the fat flow then loses packets from its front. Says
    /// whether the packet that was put is itself among them.
    #[inline(always)]
    pub(crate) fn push_over<S: Sink>(
        &mut self,
        flow: u32,
        packet: &KeptPacket,
        now: Moment,
        batch: u32,
        sink: &mut S,
    ) -> bool
        requires in_range { flow < length self.old.flows }
        requires own { packet.now.hash % length self.old.flows ≡ flow }
        requires place { packets_of self.old.flows < self.old.places }
        requires few { packets_of self.old.flows < 2 ^ 32 }
        requires room { shed_count (adjust (joined (stamp packet.now now)) flow self.old.flows) batch ≤ (S.state sink.old).room }
        ensures answer { result ≡ ((fattest (adjust (joined (stamp packet.now now)) flow self.old.flows) == flow)
            && nat_le (count (queue_of (adjust (joined (stamp packet.now now)) flow self.old.flows) flow)) (shed_count (adjust (joined (stamp packet.now now)) flow self.old.flows) batch)) }
        ensures flows { self.new.flows ≡ adjust (shortened (shed_count (adjust (joined (stamp packet.now now)) flow self.old.flows) batch))
            (fattest (adjust (joined (stamp packet.now now)) flow self.old.flows)) (adjust (joined (stamp packet.now now)) flow self.old.flows) }
        ensures places { self.new.places ≡ self.old.places }
        ensures some { 0 < count (queue_of (adjust (joined (stamp packet.now now)) flow self.old.flows) (fattest (adjust (joined (stamp packet.now now)) flow self.old.flows))) }
        ensures lost { AreLost Cause.FatFlow (take (shed_count (adjust (joined (stamp packet.now now)) flow self.old.flows) batch)
            (queue_of (adjust (joined (stamp packet.now now)) flow self.old.flows) (fattest (adjust (joined (stamp packet.now now)) flow self.old.flows))))
            (S.state sink.old) (S.state sink.new) }
        ensures kept { S.keeps sink.old sink.new }
    {
        let fat = self.fattest_with(flow, packet.stored.len);
        if self.sheds_one(fat, batch) {
            self.swap(flow, packet, now, fat, sink);
            return false;
        }
        if fat != flow {
            self.push(flow, packet, now);
            let lost = self.shed_count(fat, batch);
            self.lose(fat, lost, Cause::FatFlow, sink);
            return false;
        }
        let held = self.count_of(flow) + 1;
        let most = held.min(self.count());
        let lost = most.min(batch as u64);
        self.exchange(flow, packet, now, lost, sink);
        held <= lost
    }

    /// Changes the settings of CoDel for all flows.
    pub(crate) fn set_params(&mut self, target: u64, interval: u64, ecn: bool)
        requires target { target ≤ 10 ^ 12 }
        requires interval_low { 1000 ≤ interval }
        requires interval_high { interval ≤ 10 ^ 12 }
        ensures flows { self.new.flows ≡ map (retuned target interval ecn) self.old.flows }
        ensures places { self.new.places ≡ self.old.places }
    {
        self.parameters = Parameters::new(target, interval, self.mtu, ecn).unwrap();
    }

    /// Loses all packets of a flow, and forgets what CoDel knew of it.
    fn empty<S: Sink>(&mut self, flow: u32, sink: &mut S)
        requires in_range { flow < length self.old.flows }
        requires room { count (queue_of self.old.flows flow) ≤ (S.state sink.old).room }
        ensures flows { self.new.flows ≡ adjust cleared flow self.old.flows }
        ensures places { self.new.places ≡ self.old.places }
        ensures lost { AreLost Cause.Purged (queue_of self.old.flows flow) (S.state sink.old) (S.state sink.new) }
        ensures kept { S.keeps sink.old sink.new }
    {
        let count = self.count_of(flow);
        self.lose(flow, count, Cause::Purged, sink);
        self.states[flow as usize] = ControlState::new();
    }

    /// Loses every packet, flow by flow. The flows are then as at first, with the settings of CoDel from these settings.
    pub(crate) fn purge<S: Sink>(&mut self, settings: Settings, sink: &mut S)
        requires { packets_of self.old.flows ≤ (S.state sink.old).room }
        ensures flows { self.new.flows ≡ replicate (length self.old.flows) (first_flow settings) }
        ensures places { self.new.places ≡ self.old.places }
        ensures lost { AreLost Cause.Purged (all_packets self.old.flows) (S.state sink.old) (S.state sink.new) }
        ensures kept { S.keeps sink.old sink.new }
    {
        for flow in 0..self.len() {
            self.empty(flow, sink);
        }
        self.parameters = parameters_of(settings);
        self.mtu = settings.mtu;
    }

    // The number of flows.
    fn len(&self) -> u32
        ensures value { result ≡ length self.now.flows }
        ensures small { result ≤ 65536 }
    {
        self.states.len() as u32
    }
}

// What the settings of an fq_codel say of CoDel.
fn parameters_of(settings: Settings) -> Parameters
    ensures { result ≡ record { target = settings.target; interval = settings.interval; mtu = settings.mtu; ecn = settings.ecn } }
{
    Parameters::new(
        settings.target,
        settings.interval,
        settings.mtu,
        settings.ecn,
    )
    .unwrap()
}

// Loses the first `lost` packets of a flow.
#[inline(always)]
fn lose_from<S: Sink>(pool: &mut Pool, flow: u32, lost: u64, cause: Cause, sink: &mut S)
    requires held { lost ≤ count (get_or pool.old.queues flow []) }
    requires room { lost ≤ (S.state sink.old).room }
    ensures queues { pool.new.queues ≡ set pool.old.queues flow (drop lost (get_or pool.old.queues flow [])) }
    ensures places { pool.new.places ≡ pool.old.places }
    ensures lost { AreLost cause (take lost (get_or pool.old.queues flow [])) (S.state sink.old) (S.state sink.new) }
    ensures kept { S.keeps sink.old sink.new }
{
    for _i in 0..lost {
        let stamped = pool.take_of(flow).unwrap();
        sink.lost(stamped.packet, cause);
    }
}

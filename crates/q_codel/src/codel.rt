//! CoDel over a queue that it is lent, with its settings and its state together, as a caller with one queue uses it.
ghost use Rattle.std.specs.Prelude.{◌≡◌, ◌≤◌, ◌<◌, ◌^◌, ◌↔◌, take, IsSome};
ghost use Rattle.q_packet.specs.Totals.{count};
ghost use Rattle.q_codel.specs.Losses.{AreLost};

use crate::control_state::ControlState;
use crate::parameters::Parameters;
use crate::queue::Queue;
use crate::sink::Sink;
use q_packet::{Cause, Moment, Packet, SOME_KEPT};
use std::marker::Model;

/// The settings and the state of CoDel on one queue, put together (RFC 8289, section 5).
///
/// A contract sees it as the record `CodelState`. It holds no packet: [`Codel::take`] is lent the queue.
#[derive(Clone, Copy, PartialEq, Eq, Debug)]
pub struct Codel {
    parameters: Parameters,
    state: ControlState,
}

impl Model for Codel {
    ghost use Rattle.q_codel.specs.Codel.{CodelState, joined, params_of, vars_of};

    ghost Value = { CodelState };

    ghost view = { λ c. joined c.parameters c.state };

    ghost inverse = { λ s. record { parameters = params_of s; state = vars_of s } };
}

/// A packet that was taken for sending, and whether it was marked on its way out.
///
/// A marked packet has the codepoint `Ce`, also where it came in so.
#[derive(Clone, Copy, PartialEq, Eq, Debug)]
pub struct Taken {
    pub packet: Packet,
    pub marked: bool,
}

impl Codel {
    ghost use Rattle.q_codel.specs.Codel.{at_first, rested, taken, drops, left, after};

    /// The state of a queue that has not sent yet.
    ///
    /// `target` and `interval` are in nanoseconds: `target` is at most 10^12 (1000 s), `interval` 1000 (1 us) to 10^12.
    /// `mtu` is in bytes: no packet is dropped or marked with this many bytes or fewer behind it. With `ecn` a
    /// packet whose transport takes part in ECN is marked where it would be dropped.
    pub fn new(target: u64, interval: u64, mtu: u16, ecn: bool) -> Codel
        requires target { target ≤ 10 ^ 12 }
        requires interval_low { 1000 ≤ interval }
        requires interval_high { interval ≤ 10 ^ 12 }
        ensures { result ≡ at_first target interval mtu ecn }
    {
        Codel {
            parameters: Parameters {
                target,
                interval,
                mtu,
                ecn,
            },
            state: ControlState::new(),
        }
    }

    /// Changes the settings. The state stays, with what the old settings made of it.
    pub fn set_params(&mut self, target: u64, interval: u64, ecn: bool)
        requires target { target ≤ 10 ^ 12 }
        requires interval_low { 1000 ≤ interval }
        requires interval_high { interval ≤ 10 ^ 12 }
        ensures { self.new ≡ record self.old { target = target; interval = interval; ecn = ecn } }
    {
        self.parameters = Parameters {
            target,
            interval,
            mtu: self.parameters.mtu,
            ecn,
        };
    }

    /// What a take from an empty queue leaves: `first_above_time` is unset, and CoDel is not in the dropping state.
    pub fn rest(&mut self)
        ensures { self.new ≡ rested self.old }
    {
        self.state.rest();
    }

    /// The time of the next drop or mark while dropping, in nanoseconds; else the one of the last run of dropping.
    pub fn drop_next(&self) -> u64
        ensures { result ≡ self.now.drop_next }
    {
        self.state.drop_next()
    }

    /// The count by whose root the gaps shorten: the drops and marks since dropping began, of this time or the last, with
    /// what was resumed of the time before. It stays at 2^32 - 1 once there.
    pub fn count(&self) -> u32
        ensures { result ≡ self.now.count }
    {
        self.state.count()
    }

    /// Whether it is dropping.
    pub fn is_dropping(&self) -> bool
        ensures { result ≡ self.now.dropping }
    {
        self.state.is_dropping()
    }

    /// Takes the next packet to send, at the time `now`, and hands those that are dropped before it to `sink`, with the
    /// cause `CoDel`. Returns `None` exactly if the queue is empty. It allocates nothing.
    ///
    /// `sink` needs room for as many packets as the queue holds. [`ControlState::take_into`] says what late packets and marks do.
    pub fn take<Q: Queue, S: Sink>(
        &mut self,
        queue: &mut Q,
        now: Moment,
        sink: &mut S,
    ) -> Option<Taken>
        requires { count (Q.packets queue.old) ≤ (S.state sink.old).room }
        ensures taken { result ≡ taken self.old now (Q.packets queue.old) }
        ensures some { IsSome result ↔ (0 < count (Q.packets queue.old)) }
        ensures left { Q.packets queue.new ≡ left self.old now (Q.packets queue.old) }
        ensures state { self.new ≡ after self.old now (Q.packets queue.old) }
        ensures lost { let all = Q.packets queue.old in
            AreLost Cause.CoDel (take (drops self.old now all) all) (S.state sink.old) (S.state sink.new) }
        ensures kept { Q.keeps queue.old queue.new }
        ensures sink_kept { S.keeps sink.old sink.new }
    {
        let mut packet = SOME_KEPT;
        let marked = self
            .state
            .take_into(&self.parameters, queue, now, sink, &mut packet)?;
        Some(Taken {
            packet: packet.packet(),
            marked,
        })
    }
}

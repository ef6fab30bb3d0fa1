//! When a device next gives a packet.
ghost use Rattle.std.specs.Prelude.{◌≡◌, ◌<◌, ◌≤◌, ◌^◌, ℕ, true, None, IfNone, IfSome, IsSome};
ghost use Rattle.q_model.specs.TreeState.{given};
ghost use Rattle.q_tree.specs.answers.ReadyAt.{is_sure, ready_at};
ghost use Rattle.q_device.specs.Waiting.{ready};

use crate::device::Device;
use q_packet::Moment;

impl Device {
    /// Computes until when a program may sleep: the time before which no poll gives a packet, as long as no packet arrives and no command comes.
    ///
    /// Returns `None` if no poll will ever give a packet: none is queued, or no token bucket will ever hold enough for what waits. The time is
    /// never before the clock, and it is the clock if a poll may give a packet at once. Changes nothing, allocates nothing, and visits each node of
    /// the tree at most once.
    ///
    /// A poll at that time may still answer `Later`. It gives a packet if the tree is sure of the time (the clause `some`): every packet that the
    /// time depends on is known, and no drr has to grant a quantum first. If the tree is not sure, an fq_codel that was not asked yet may drop the
    /// packet that it would have sent, and a drr may pass its turn to another class. The next answer is then a later time.
    pub fn ready_at(&self) -> Option<Moment>
        ensures value { result ≡ ready_at self.now.device.clock self.now.device.tree.root }
        ensures from { IfSome result (λ at. self.now.device.clock ≤ at) }
        ensures early { IfSome result (λ at. (t : ℕ) → self.now.device.clock ≤ t → t < at → given t self.now.device.tree ≡ None) }
        ensures some { is_sure self.now.device.clock self.now.device.tree.root ≡ true → IfSome result (λ at. IsSome (given at self.now.device.tree)) }
        ensures never { IfNone result ((t : ℕ) → self.now.device.clock ≤ t → t ≤ 2 ^ 62 → given t self.now.device.tree ≡ None) }
    {
        self.tree.ready_at(self.tree.clock())
    }

    /// Computes what [`Device::ready_at`] does.
    pub(crate) fn ready_again(&mut self) -> Option<Moment>
        ensures again { result ≡ ready self.old.device }
        ensures same { self.new ≡ self.old }
    {
        self.ready_at()
    }
}

//! A turn of a program's loop: what is due is sent, what was lost is handed out, and the program learns when to come back.
ghost use Rattle.std.specs.Prelude.{◌≡◌, Some, max};
ghost use Rattle.q_tree.specs.answers.ReadyAt.{is_before};
ghost use Rattle.q_device.specs.device.Turning.{IsSent, IsTurn};
ghost use Rattle.q_device.specs.Waiting.{ready};

use crate::device::Device;
use crate::given::Given;
use crate::told_loss::ToldLoss;
use q_codel::Told;
use q_packet::Moment;

/// What [`Device::turn`] did, and when to take the next turn.
#[derive(Clone, Copy, PartialEq, Eq, Debug)]
pub struct Turned {
    /// How many packets were sent. They are in the first places.
    pub sent: usize,
    /// How many losses were handed out. They are in the first places.
    pub lost: usize,
    /// The answer of the last poll; [`Given::Packet`] if each place has a packet. `None` if nothing was due, and no poll was made.
    pub answer: Option<Given>,
    /// The time before which no poll gives a packet, as long as no packet arrives and no command comes; `None` if no poll ever will.
    pub again: Option<Moment>,
}

impl Device {
    /// Takes a turn of a program's loop: polls for what is due, hands out losses, and says when to take the next turn.
    ///
    /// If a poll at the time `now` may give a packet, as [`Device::ready_at`] says, the device is polled as by [`Device::poll_many`], until each
    /// place of `sent` has a packet or a poll gives none. Otherwise it is not polled, and there is no event. Then losses are handed out as by
    /// [`Device::reap_many`], until each place of `lost` has one or none waits any more. Either slice may be empty.
    ///
    /// If each place of `sent` has a packet, or each of `lost` a loss, there may be more: take another turn. Otherwise sleep until the time
    /// `again`, or until a packet comes. Allocates nothing.
    ///
    /// ```
    /// loop {
    ///     let turned = device.turn(now, &mut sent, &mut lost);
    ///     transmit(&sent[..turned.sent]);
    ///     release(&lost[..turned.lost]);
    ///     if turned.sent < sent.len() && turned.lost < lost.len() {
    ///         break sleep_until(turned.again);
    ///     }
    /// }
    /// ```
    #[inline(always)]
    pub fn turn<T: Told, L: ToldLoss>(
        &mut self,
        now: Moment,
        sent: &mut [T],
        lost: &mut [L],
    ) -> Turned
        ensures { IsTurn T.told L.told now result sent.old sent.new lost.old lost.new self.old self.new }
    {
        let polled = self.send_due(now, sent);
        let reaped = self.reap_many(lost);
        Turned {
            sent: polled.sent,
            lost: reaped,
            answer: polled.answer,
            again: polled.again,
        }
    }

    // Polls for what is due, and does nothing where nothing is. Hands out no losses.
    #[inline(always)]
    fn send_due<T: Told>(&mut self, now: Moment, sent: &mut [T]) -> Turned
        ensures sends { IsSent T.told now result.answer result.sent sent.old sent.new self.old self.new }
        ensures again { result.again ≡ ready self.new.device }
    {
        let ready = self.ready_again();
        if is_early(&ready, self.clock(), now) {
            return Turned {
                sent: 0,
                lost: 0,
                answer: None,
                again: ready,
            };
        }
        let (count, answer) = self.poll_many(now, sent);
        let again = self.ready_again();
        Turned {
            sent: count,
            lost: 0,
            answer: Some(answer),
            again,
        }
    }
}

// Whether a poll at this time counts before the device is ready.
#[inline(always)]
fn is_early(ready: &Option<Moment>, clock: Moment, now: Moment) -> bool
    ensures { result ≡ is_before (Some (max clock now)) ready.now }
{
    match ready {
        Some(ready) => clock.max(now) < *ready,
        None => true,
    }
}

//! A turn of the drain: packets arrive at the device, then it is polled, and its row is published.
ghost use Rattle.std.specs.Prelude.{◌≡◌, ◌≤◌, [], length, map, vec_capacity, IfOk, IfSome, IfNone, OnOk, OnErr};
ghost use Rattle.q_model.specs.Conserved.{IsBalanced};
ghost use Rattle.q_device.specs.device.Polls.{given_by, polled_by};
ghost use Rattle.q_device.specs.Events.{device_row};
ghost use Rattle.q_ports.specs.Rings.{ring_id};
ghost use Rattle.q_ports.specs.Rows.{shown_on, Publishes, Withholds};
ghost use Rattle.q_ports.specs.Turned.{Turned};

use crate::booked::Booked;
use crate::drain::Drain;
use crate::told::Told;
use q_device::{Given, SOME_PACKET};
use q_packet::{Moment, Packet};
use std::alloc::{AllocError, Global};
use std::sync::Wait;
use std::sync::ledger::Ledger;

/// What a turn of the drain did.
#[derive(Drop)]
pub struct Turn {
    /// How many packets arrived.
    pub taken: usize,
    /// The packets that the polls gave, in order.
    pub sent: Vec<Packet>,
    /// Whether an allocation failed for a packet, so that no more packets were taken from the rings.
    pub memory: bool,
    /// A note that the row after the turn was published. `None` if an allocation for that failed, or if a counter of the row is lower than in the
    /// last one that was handed over.
    pub told: Option<Told>,
}

/// Does the work of [`Drain::turn`], with the value behind the lock. May wait for gauges.
///
/// The device changes by one arrival for each packet that leaves a ring, in the order of each ring, and then by `most` polls, or fewer if one gives
/// no packet, which is then the last. [`Turn::sent`] is what they gave. [`Turn::told`] is there if the board then shows the row after the turn.
///
/// # Errors
///
/// Returns `AllocError` if the list of the sent packets cannot be allocated. Nothing has changed then.
pub fn turn_on<P: Ledger, B: Ledger, R: Wait>(
    drain: &mut Drain<P, B>,
    rt: &R,
    alloc: Global,
    booked: &mut Booked<P, B>,
    now: Moment,
    most: usize,
) -> Result<Turn, AllocError>
    requires { (1 ≤ most) × (most ≤ 1024) }
    ensures rings { map ring_id drain.new.rings ≡ map ring_id drain.old.rings }
    ensures turned { IfOk result (λ t. Turned now most drain.old.rings drain.new.rings booked.old booked.new t.taken t.memory t.sent.items) }
    ensures few_sent { IfOk result (λ t. length t.sent.items ≤ most) }
    ensures balanced { OnOk result (IsBalanced (device_row booked.new)) }
    ensures book { drain.new.board.book ≡ drain.old.board.book }
    ensures told { IfOk result (λ t. IfSome t.told (λ f. f ≡ shown_on drain.new.board)) }
    ensures published { IfOk result (λ t. IfSome t.told (λ f. Publishes drain.old.board (device_row booked.new) drain.new.board)) }
    ensures untold { IfOk result (λ t. IfNone t.told (Withholds drain.old.board (device_row booked.new) drain.new.board)) }
    ensures same { OnErr result (drain.new ≡ drain.old) }
    ensures same_device { OnErr result (booked.new ≡ booked.old) }
{
    let Drain { intake, publisher } = drain;
    let mut sent = Vec::with_capacity(alloc, most)?;
    let (taken, memory) = intake.collect(booked, now, most);
    poll_all(booked, &mut sent, now, most);
    let told = publisher.publish(rt, booked.totals());
    Ok(Turn {
        taken,
        sent,
        memory,
        told,
    })
}

// Polls up to `most` times, to the first poll that gives no packet.
fn poll_all<P: Ledger, B: Ledger>(
    booked: &mut Booked<P, B>,
    sent: &mut Vec<Packet>,
    now: Moment,
    most: usize,
)
    requires { (sent.old.items ≡ []) × (most ≤ vec_capacity sent.old) }
    ensures sent { sent.new.items ≡ given_by most now booked.old }
    ensures few { length sent.new.items ≤ most }
    ensures polled { booked.new ≡ polled_by most now booked.old }
{
    for poll in 0..most {
        // The poll writes the packet where it is to be.
        sent.push_reserved(SOME_PACKET);
        match booked.poll_into(now, &mut sent[poll]) {
            Given::Packet => {}
            Given::Idle | Given::Later => {
                sent.truncate(poll);
                return;
            }
        }
    }
}

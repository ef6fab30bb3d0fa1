//! The end of a drain: what is left in the rings arrives, and the whole permit is given up.
ghost use Rattle.std.specs.Prelude.{◌≡◌, map, IfOk, IfErr, OnOk};
ghost use Rattle.q_ports.specs.Collected.{CollectsSome};
ghost use Rattle.q_ports.specs.Placed.{placed_by, ring_of_port, share_of};
ghost use Rattle.q_ports.specs.Rings.{received_from, ring_id, AreBeginnings};
ghost use Rattle.q_ports.specs.Stopped.{StopsSome};

use crate::booked::Booked;
use crate::drain::Drain;
use crate::port::Port;
use crate::publisher::Publisher;
use crate::settled::Settled;
use crate::unsettled::Unsettled;
use q_packet::Moment;
use std::sync::Wait;
use std::sync::ledger::Ledger;

/// Does the work of [`Drain::settle`], with the value behind the lock. May wait for gauges when the drain ends.
///
/// The device changes by one arrival for each packet that was left in the rings. Then the drain has received from each port just what the port
/// placed.
///
/// # Errors
///
/// Returns the drain and its ports if an allocation fails, since the device has no room for a packet that waits. What was received from each port
/// is then a beginning of what the port placed.
pub fn settle_on<P: Ledger, B: Ledger, R: Wait>(
    drain: Drain<P, B>,
    rt: &R,
    booked: &mut Booked<P, B>,
    ports: Vec<Port>,
    now: Moment,
) -> Result<Settled<P, B>, Unsettled<P, B>>
    requires parts { (P.parts ≡ 65) × (B.parts ≡ 65) }
    requires ports { map ring_of_port ports.items ≡ map ring_id drain.rings }
    ensures share { IfOk result (λ s. s ≡ share_of (map placed_by ports.items)) }
    ensures arrived { OnOk result (CollectsSome now (map received_from drain.rings) (map placed_by ports.items) booked.old booked.new) }
    ensures rings { IfErr result (λ u. map ring_id u.drain.rings ≡ map ring_id drain.rings) }
    ensures ports { IfErr result (λ u. u.ports.items ≡ ports.items) }
    ensures taken { IfErr result (λ u. CollectsSome now (map received_from drain.rings) (map received_from u.drain.rings) booked.old booked.new) }
    ensures stopped { IfErr result (λ u. StopsSome now (map received_from drain.rings) u.drain.rings booked.old booked.new) }
    ensures beginnings { IfErr result (λ u. AreBeginnings (map received_from u.drain.rings) (map placed_by ports.items)) }
    ensures board { IfErr result (λ u. u.drain.board ≡ drain.board) }
{
    let (settled, publisher) = settle_parts(drain, booked, ports, now)?;
    publisher.end(rt);
    Ok(settled)
}

// The same but for the end of the publisher, which stays as it was: without the right to wait nobody can publish here.
fn settle_parts<P: Ledger, B: Ledger>(
    drain: Drain<P, B>,
    booked: &mut Booked<P, B>,
    ports: Vec<Port>,
    now: Moment,
) -> Result<(Settled<P, B>, Publisher), Unsettled<P, B>>
    requires parts { (P.parts ≡ 65) × (B.parts ≡ 65) }
    requires ports { map ring_of_port ports.items ≡ map ring_id drain.rings }
    ensures share { IfOk result (λ s. s.0 ≡ share_of (map placed_by ports.items)) }
    ensures arrived { OnOk result (CollectsSome now (map received_from drain.rings) (map placed_by ports.items) booked.old booked.new) }
    ensures unpublished { IfOk result (λ s. s.1 ≡ drain.board) }
    ensures rings { IfErr result (λ u. map ring_id u.drain.rings ≡ map ring_id drain.rings) }
    ensures ports { IfErr result (λ u. u.ports.items ≡ ports.items) }
    ensures taken { IfErr result (λ u. CollectsSome now (map received_from drain.rings) (map received_from u.drain.rings) booked.old booked.new) }
    ensures stopped { IfErr result (λ u. StopsSome now (map received_from drain.rings) u.drain.rings booked.old booked.new) }
    ensures beginnings { IfErr result (λ u. AreBeginnings (map received_from u.drain.rings) (map placed_by ports.items)) }
    ensures board { IfErr result (λ u. u.drain.board ≡ drain.board) }
{
    let Drain {
        mut intake,
        publisher,
    } = drain;
    let mut ports = ports;
    intake.look_all(&mut ports);
    match intake.empty_all(booked, now) {
        Ok(()) => {}
        Err(_) => {
            return Err(Unsettled {
                drain: Drain { intake, publisher },
                ports,
            });
        }
    }
    Ok((intake.settle(booked), publisher))
}

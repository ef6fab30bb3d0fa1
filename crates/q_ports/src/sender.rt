ghost use Rattle.std.specs.Prelude.{◌≡◌, ℕ, ◌≤◌, true, false, OnOk, OnErr, IfErr};
ghost use Rattle.q_ports.specs.Offered.{MayBeFull, Offered, OffersOne};

use crate::gate::Gate;
use crate::port::{Full, Port};
use q_packet::Packet;
use std::snapshot::Snapshot;
use std::thread;
use std::thread::Promise;

/// What a sender hands back: its port, how many packets of its load the port did not take, and whether it ran: it did not where it
/// got no thread.
#[derive(Drop)]
pub struct Sent {
    pub port: Port,
    pub given_up: u64,
    pub ran: bool,
}

/// What a sender promises: each packet of the load was offered at the port, in order, at most `tries` times.
#[derive(Drop)]
pub struct Sends {
    pub port: Snapshot<Port>,
    pub load: Snapshot<Vec<Packet>>,
    pub tries: u64,
}

impl Promise<Sent> for Sends {
    ghost use Rattle.q_ports.specs.Offered.{Offered};

    ghost kept_by = { λ p r. Offered p.tries r.ran p.port.value p.load.value.items r.port r.given_up };
}

/// Offers a load at a port, in order, each packet at most `tries` times.
pub(crate) fn send<G: Gate>(port: Port, load: Vec<Packet>, gate: &G, tries: u64) -> Sent
    ensures offered { Offered tries result.ran port load.items result.port result.given_up }
    ensures ran { result.ran ≡ true }
{
    let mut port = port;
    let mut given_up = 0u64;
    let mut nth = 0u64;
    for packet in &load {
        nth = nth.saturating_add(1);
        given_up += count_given_up(&mut port, *packet, gate, nth, tries);
    }
    Sent {
        port,
        given_up,
        ran: true,
    }
}

/// Offers nothing: the port as it is, and the whole load is given up.
pub(crate) fn keep(port: Port, load: Vec<Packet>) -> Sent
    ensures port { result.port ≡ port }
    ensures offered { (tries : ℕ) → Offered tries result.ran port load.items result.port result.given_up }
    ensures ran { result.ran ≡ false }
{
    Sent {
        port,
        given_up: load.len() as u64,
        ran: false,
    }
}

// Offers a packet, and answers how many were given up: none where it was placed, else one.
fn count_given_up<G: Gate>(port: &mut Port, packet: Packet, gate: &G, nth: u64, tries: u64) -> u64
    ensures offered { OffersOne port.old packet port.new result }
    ensures few { result ≤ 1 }
    ensures full { 1 ≤ result → 1 ≤ tries → MayBeFull port.old packet }
{
    if let Err(_refused) = offer_one(port, packet, gate, nth, tries) {
        return 1;
    }
    0
}

// Offers a packet until the port takes it. Returns how many offers were refused if none was taken, which is then `tries`.
fn offer_one<G: Gate>(
    port: &mut Port,
    packet: Packet,
    gate: &G,
    nth: u64,
    tries: u64,
) -> Result<(), u64>
    ensures placed { OnOk result (OffersOne port.old packet port.new 0) }
    ensures given_up { OnErr result (OffersOne port.old packet port.new 1) }
    ensures refused { IfErr result (λ refused. refused ≡ tries) }
    ensures full { OnErr result (1 ≤ tries → MayBeFull port.old packet) }
{
    let index = port.index();
    gate.before_offer(index, nth);
    let mut refused = 0u64;
    while refused < tries {
        match port.offer(packet) {
            Ok(()) => {
                gate.after_offer(index, nth);
                return Ok(());
            }
            Err(Full(_)) => {
                refused += 1;
                thread::yield_now();
            }
        }
    }
    Err(refused)
}

//! Senders offer packets to their rings.
ghost use Rattle.std.specs.Prelude.{◌≡◌, ◌≢◌, ◌≤◌, ◌<◌, All, length, map, slice_index_or, take};
ghost use Rattle.qtree_c.specs.rings.Ends.{CallsEnd, IsOffer, IsOffers, IsPlaced};
ghost use Rattle.q_packet.specs.Stored.{descriptor};
ghost use Rattle.qtree_c.specs.abi.Structs.{IsPacket, zero_packet};

use crate::abi::c_count::CCount;
use crate::abi::c_packet::is_packet;
use crate::abi::c_port::CPort;
use crate::abi::codes::{DONE, FULL, IS_CLOSED, OUT_OF_RANGE};
use q_packet::{KeptPacket, SOME_KEPT, StoredPacket};
use q_ports::Port;

/// How many packets are read before they are placed: as many as a port places by one store.
const BATCH: usize = 16;

/// Places a packet in the ring of a port.
#[unsafe(no_mangle)]
pub extern "C" fn qtree_offer(port: &mut CPort, packet: &StoredPacket) -> u32
    ensures offer { CallsEnd (IsOffer packet.now result) result port.old.held.port port.new.held.port }
{
    if !port.is_open() {
        return IS_CLOSED;
    }
    offer(port.held.lend(), packet)
}

/// Places packets in the ring of a port, in order, to the first that is out of its range or for which no place is free.
#[unsafe(no_mangle)]
pub extern "C" fn qtree_offer_many(
    port: &mut CPort,
    packets: &[StoredPacket],
    placed: &mut usize,
) -> u32
    ensures offers { CallsEnd (IsOffers packets.now result placed.new) result port.old.held.port port.new.held.port }
    ensures closed { result ≡ 50 → placed.new ≡ 0 }
{
    *placed = 0;
    if !port.is_open() {
        return IS_CLOSED;
    }
    let (count, code) = offer_many(port.held.lend(), packets);
    *placed = count;
    code
}

/// The packets and bytes that a port placed.
#[unsafe(no_mangle)]
pub extern "C" fn qtree_port_share(port: &mut CPort, share: &mut CCount) -> u32
    ensures share { CallsEnd (IsPlaced result share.new) result port.old.held.port port.new.held.port }
    ensures same { port.new.held.port ≡ port.old.held.port }
    ensures kept { result ≢ 0 → share.new ≡ share.old }
{
    if !port.is_open() {
        return IS_CLOSED;
    }
    *share = CCount::of(port.held.lend().share());
    DONE
}

/// Places a packet in the ring of an open port.
fn offer(port: &mut Port, packet: &StoredPacket) -> u32
    ensures offer { IsOffer packet.now result port.old port.new }
    ensures codes { result ≢ 50 }
{
    if !is_packet(packet) {
        return OUT_OF_RANGE;
    }
    if port.offer_kept(&KeptPacket::kept(packet)) {
        DONE
    } else {
        FULL
    }
}

/// Places packets in the ring of an open port, a batch at a time.
fn offer_many(port: &mut Port, packets: &[StoredPacket]) -> (usize, u32)
    ensures offers { IsOffers packets.now result.1 result.0 port.old port.new }
    ensures codes { result.1 ≢ 50 }
{
    let mut batch = [SOME_KEPT; BATCH];
    let mut placed = 0;
    while placed < packets.len() {
        let wanted = BATCH.min(packets.len() - placed);
        let (count, code) = offer_batch(port, &packets[placed..placed + wanted], &mut batch);
        placed += count;
        if code != DONE {
            return (placed, code);
        }
    }
    (placed, DONE)
}

/// Places packets in the ring of an open port, by way of places that the caller has.
fn offer_batch(port: &mut Port, packets: &[StoredPacket], batch: &mut [KeptPacket]) -> (usize, u32)
    requires { length packets.now ≤ length batch.old }
    ensures offers { IsOffers packets.now result.1 result.0 port.old port.new }
    ensures codes { result.1 ≢ 50 }
{
    let read = read_packets(packets, batch);
    let placed = port.offer_many_kept(&batch[..read]);
    if placed < read {
        return (placed, FULL);
    }
    if read < packets.len() {
        return (read, OUT_OF_RANGE);
    }
    (read, DONE)
}

/// Writes what the packets describe into the first places, to the first packet that is out of its range, and answers how many.
fn read_packets(packets: &[StoredPacket], batch: &mut [KeptPacket]) -> usize
    requires { length packets.now ≤ length batch.old }
    ensures most { result ≤ length packets.now }
    ensures length { length batch.new ≡ length batch.old }
    ensures read { take result batch.new ≡ map descriptor (take result packets.now) }
    ensures in_range { All IsPacket (take result packets.now) }
    ensures next { result < length packets.now → IsPacket (slice_index_or packets.now result zero_packet) → ⊥ }
{
    for at in 0..packets.len() {
        if !is_packet(&packets[at]) {
            return at;
        }
        batch[at] = KeptPacket::kept(&packets[at]);
    }
    packets.len()
}

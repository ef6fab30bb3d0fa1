//! Heads of packets, and hashes of their flows.
ghost use Rattle.std.specs.Prelude.{◌≡◌, ◌≢◌};
ghost use Rattle.q_packet.specs.Head.{head};
ghost use Rattle.q_packet.specs.Key.{IsKey, key_bytes};
ghost use Rattle.q_packet.specs.OneAtATime.{one_at_a_time};
ghost use Rattle.q_packet.specs.Stored.{key_of};
ghost use Rattle.qtree_c.specs.abi.Structs.{with_fields, with_head};

use crate::abi::c_packet::{high, low};
use crate::abi::codes::{DONE, OUT_OF_RANGE};
use q_packet::{FlowHash, Head, OneAtATime, StoredPacket, read_head};

/// Fills in what the first bytes of a packet say of it, and the hash of its flow.
#[unsafe(no_mangle)]
pub extern "C" fn qtree_read_head(bytes: &[u8], seed: u32, packet: &mut StoredPacket)
    ensures { packet.new ≡ with_head seed (head bytes.now) packet.old }
{
    let head = read_head(bytes);
    fill(&head, OneAtATime { seed }.hash(&head.key), packet);
}

/// Fills in what the first bytes of a packet say of it, with the hash 0.
#[unsafe(no_mangle)]
pub extern "C" fn qtree_read_fields(bytes: &[u8], packet: &mut StoredPacket)
    ensures { packet.new ≡ with_fields 0 (head bytes.now) packet.old }
{
    fill(&read_head(bytes), 0, packet);
}

/// Fills in what the first bytes of a packet say of it, with the hash that the caller has.
#[unsafe(no_mangle)]
pub extern "C" fn qtree_read_fields_hashed(bytes: &[u8], hash: u32, packet: &mut StoredPacket)
    ensures { packet.new ≡ with_fields hash (head bytes.now) packet.old }
{
    fill(&read_head(bytes), hash, packet);
}

/// Fills in a head and a hash.
#[inline(always)]
fn fill(head: &Head, hash: u32, packet: &mut StoredPacket)
    ensures { packet.new ≡ with_fields hash head.now packet.old }
{
    packet.src_high = high(head.key.src);
    packet.src_low = low(head.key.src);
    packet.dst_high = high(head.key.dst);
    packet.dst_low = low(head.key.dst);
    packet.hash = hash;
    packet.sport = head.key.sport;
    packet.dport = head.key.dport;
    packet.proto = head.key.proto;
    packet.family = head.key.family;
    packet.prio = head.prio;
    packet.ecn = head.ecn.bits();
}

/// Fills in the hash of a packet's flow.
#[unsafe(no_mangle)]
pub extern "C" fn qtree_hash(seed: u32, packet: &mut StoredPacket) -> u32
    ensures hash { result ≡ 0 → packet.new ≡ record packet.old { hash = one_at_a_time seed (key_bytes (key_of packet.old)) } }
    ensures in_range { IsKey (key_of packet.old) → result ≡ 0 }
    ensures out_of_range { result ≢ 0 → (result ≡ 42) × (packet.new ≡ packet.old) }
    ensures key { result ≡ 0 → IsKey (key_of packet.old) }
{
    let Some(key) = packet.flow_key() else {
        return OUT_OF_RANGE;
    };
    packet.hash = OneAtATime { seed }.hash(&key);
    DONE
}

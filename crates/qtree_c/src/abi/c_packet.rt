//! A packet's descriptor, as C has it: `StoredPacket` has the fields of the header's `qtree_packet`, in its order.
ghost use Rattle.std.specs.Prelude.{◌≡◌, ◌/◌, ◌%◌, ◌^◌, ◌↔◌, IsTrue};
ghost use Rattle.q_packet.specs.Stored.{IsStored};
ghost use Rattle.qtree_c.specs.abi.Structs.{zero_packet, IsPacket};

use q_packet::StoredPacket;

/// Whether each field of a packet is within its range.
#[inline(always)]
pub fn is_packet(packet: &StoredPacket) -> bool
    ensures value { IsTrue result ↔ IsPacket packet.now }
    ensures stored { IsTrue result → IsStored packet.now }
{
    // That a half of an address fits its field is known where it is read.
    let _src_low = packet.src_low;
    let _dst_low = packet.dst_low;
    packet.in_range()
}

/// No packet: every field 0.
pub fn no_packet() -> StoredPacket
    ensures { result ≡ zero_packet }
{
    StoredPacket {
        src_high: 0,
        src_low: 0,
        dst_high: 0,
        dst_low: 0,
        number: 0,
        port: 0,
        buf: 0,
        hash: 0,
        len: 0,
        sport: 0,
        dport: 0,
        proto: 0,
        family: 0,
        prio: 0,
        ecn: 0,
    }
}

/// 2^64, by which an address is two numbers.
const HIGH: u128 = 1 << 64;

/// The high half of an address.
pub fn high(address: u128) -> u64
    ensures { result ≡ address / 2 ^ 64 }
{
    (address / HIGH) as u64
}

/// The low half of an address.
pub fn low(address: u128) -> u64
    ensures { result ≡ address % 2 ^ 64 }
{
    (address % HIGH) as u64
}

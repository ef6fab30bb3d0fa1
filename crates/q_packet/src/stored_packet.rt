ghost use Rattle.std.specs.Prelude.{◌≡◌, ◌+◌, ◌*◌, ◌/◌, ◌%◌, ◌^◌, ◌↔◌, IfSome, IsSome, IsTrue};
ghost use Rattle.q_packet.specs.Key.{IsKey};
ghost use Rattle.q_packet.specs.Stored.{descriptor, key_of, stored_of, IsStored};

use crate::ecn::Ecn;
use crate::flow_key::FlowKey;
use crate::packet::Packet;

/// A packet's descriptor in the 64 bytes of the C header's `qtree_packet`, field by field in its order. A field may be out of its
/// range: a packet that queues keep is a [`KeptPacket`](crate::KeptPacket).
#[repr(C)]
#[derive(Clone, Copy, PartialEq, Eq, Debug)]
pub struct StoredPacket {
    /// The halves of the addresses.
    pub src_high: u64,
    pub src_low: u64,
    pub dst_high: u64,
    pub dst_low: u64,
    pub number: u64,
    pub port: u32,
    pub buf: u32,
    pub hash: u32,
    pub len: u16,
    pub sport: u16,
    pub dport: u16,
    pub proto: u8,
    /// 0 (not IP), 4 or 6.
    pub family: u8,
    pub prio: u8,
    /// The two bits of the ECN codepoint.
    pub ecn: u8,
}

const _: () = prove!(size_of::<StoredPacket>() == 64);

/// 2^64, by which an address is two numbers.
const HIGH: u128 = 1 << 64;

/// A packet for a place to which one will be copied, before that comes: any in range would do.
pub const SOME_STORED: StoredPacket = StoredPacket {
    src_high: 0,
    src_low: 0,
    dst_high: 0,
    dst_low: 0,
    number: 0,
    port: 0,
    buf: 0,
    hash: 0,
    len: 1,
    sport: 0,
    dport: 0,
    proto: 0,
    family: 0,
    prio: 0,
    ecn: 0,
};

impl StoredPacket {
    /// This packet as it is stored: its fields are written one by one.
    #[inline(always)]
    pub fn of(packet: &Packet) -> StoredPacket
        ensures value { result ≡ stored_of packet.now }
        ensures in_range { IsStored result }
        ensures same { descriptor result ≡ packet.now }
    {
        StoredPacket {
            src_high: high(packet.key.src),
            src_low: low(packet.key.src),
            dst_high: high(packet.key.dst),
            dst_low: low(packet.key.dst),
            number: packet.number,
            port: packet.port,
            buf: packet.buf,
            hash: packet.hash,
            len: packet.len,
            sport: packet.key.sport,
            dport: packet.key.dport,
            proto: packet.key.proto,
            family: packet.key.family,
            prio: packet.prio,
            ecn: packet.ecn.bits(),
        }
    }

    /// Whether each field is within its range.
    #[inline(always)]
    pub fn in_range(&self) -> bool
        ensures { IsTrue result ↔ IsStored self.now }
    {
        // That each field is as wide as its type is known where it is read.
        let _proto = self.proto;
        let _sport = self.sport;
        let _dport = self.dport;
        let _src_low = self.src_low;
        let _dst_low = self.dst_low;
        let _src_high = self.src_high;
        let _dst_high = self.dst_high;
        if self.family == 4 {
            if self.src_high != 0 || self.dst_high != 0 {
                return false;
            }
            if self.src_low > u32::MAX as u64 || self.dst_low > u32::MAX as u64 {
                return false;
            }
        } else if self.family != 0 && self.family != 6 {
            return false;
        }
        self.len >= 1 && self.prio <= 15 && self.ecn <= 3
    }

    /// The flow key that its fields say, where they are within their ranges.
    #[inline(always)]
    pub fn key(&self) -> FlowKey
        requires { IsKey (key_of self.now) }
        ensures { result ≡ key_of self.now }
    {
        FlowKey {
            src: address(self.src_high, self.src_low),
            dst: address(self.dst_high, self.dst_low),
            sport: self.sport,
            dport: self.dport,
            proto: self.proto,
            family: self.family,
        }
    }

    /// The same; `None` where the family is not 0, 4 or 6, or an address is wider than the family has it.
    pub fn flow_key(&self) -> Option<FlowKey>
        ensures in_range { IsSome result ↔ IsKey (key_of self.now) }
        ensures value { IfSome result (λ k. k ≡ key_of self.now) }
    {
        let src = address(self.src_high, self.src_low);
        let dst = address(self.dst_high, self.dst_low);
        FlowKey::new(self.family, self.proto, src, dst, self.sport, self.dport)
    }

    /// The packet that it describes, where its fields are within their ranges.
    #[inline(always)]
    pub fn packet(&self) -> Packet
        requires { IsStored self.now }
        ensures { result ≡ descriptor self.now }
    {
        Packet {
            key: self.key(),
            number: self.number,
            port: self.port,
            buf: self.buf,
            hash: self.hash,
            len: self.len,
            prio: self.prio,
            ecn: Ecn::from_bits(self.ecn),
        }
    }
}

// The address of these two halves.
#[inline(always)]
fn address(high: u64, low: u64) -> u128
    ensures { result ≡ high * 2 ^ 64 + low }
{
    high as u128 * HIGH + low as u128
}

// The high half of an address.
#[inline(always)]
fn high(address: u128) -> u64
    ensures { result ≡ address / 2 ^ 64 }
{
    (address / HIGH) as u64
}

// The low half of an address.
#[inline(always)]
fn low(address: u128) -> u64
    ensures { result ≡ address % 2 ^ 64 }
{
    (address % HIGH) as u64
}

ghost use Rattle.std.specs.Prelude.{◌≡◌, ◌↔◌, IsTrue, IfSome, IsSome};

use byteorder::{BigEndian, ByteOrder};
use std::marker::Model;

/// What distinguishes flows: addresses, ports and protocol. A contract sees it as the record `Key` of its fields.
///
/// `family` is 0 (not IP), 4 or 6. An IPv4 address is in the low 32 bits of `src` and `dst`, and no other bit of them is
/// set (RFC 791, section 3.1). What a packet lacks is 0.
#[derive(Clone, Copy, PartialEq, Eq, Debug)]
pub struct FlowKey {
    pub src: u128,
    pub dst: u128,
    pub sport: u16,
    pub dport: u16,
    pub proto: u8,
    pub family: u8,
}

impl Model for FlowKey {
    ghost use Rattle.q_packet.specs.Key.{Key, IsKey};

    ghost Value = { Key };

    ghost view = { λ k. record { family = k.family; proto = k.proto; src = k.src; dst = k.dst; sport = k.sport; dport = k.dport } };

    ghost invariant = { λ k. IsKey (record { family = k.family; proto = k.proto; src = k.src; dst = k.dst; sport = k.sport; dport = k.dport }) };

    ghost inverse = { λ k. record { family = k.family; proto = k.proto; src = k.src; dst = k.dst; sport = k.sport; dport = k.dport } };
}

impl FlowKey {
    ghost use Rattle.std.specs.Prelude.{◌≡◌, ◌<◌, ◌^◌, ◌↔◌, IsTrue, IfSome, IsSome};
    ghost use Rattle.q_packet.specs.Key.{IsKey, FitsBytes, Key, address_bits, is_family, key_bytes, zero_key};

    /// The key of a packet that is not IP: every field 0.
    pub const fn zero() -> FlowKey
        ensures { result ≡ zero_key }
    {
        FlowKey {
            family: 0,
            proto: 0,
            src: 0,
            dst: 0,
            sport: 0,
            dport: 0,
        }
    }

    /// The key with these fields; `None` where `family` is not 0, 4 or 6, or where it is 4 and an address has more than 32
    /// bits.
    pub fn new(
        family: u8,
        proto: u8,
        src: u128,
        dst: u128,
        sport: u16,
        dport: u16,
    ) -> Option<FlowKey>
        ensures in_range { IsSome result ↔ (IsTrue (is_family family)
            × (src < 2 ^ address_bits family) × (dst < 2 ^ address_bits family)) }
        ensures value { IfSome result
            (λ k. k ≡ record { family = family; proto = proto; src = src; dst = dst; sport = sport; dport = dport }) }
    {
        let widest = match family {
            4 => u32::MAX as u128,
            0 | 6 => u128::MAX,
            _ => return None,
        };
        if src > widest || dst > widest {
            return None;
        }
        Some(FlowKey {
            family,
            proto,
            src,
            dst,
            sport,
            dport,
        })
    }

    /// The fields in order as 38 bytes, each number in network byte order: family, protocol, source, destination, source
    /// port, destination port. Different keys have different bytes.
    pub fn bytes(self) -> [u8; 38]
        ensures value { result ≡ key_bytes self }
        ensures in_range { IsKey self }
        ensures distinct { (other : Key) → FitsBytes other → key_bytes other ≡ result → other ≡ self }
    {
        let mut bytes = [0; 38];
        bytes[0] = self.family;
        bytes[1] = self.proto;
        BigEndian::write_u128(&mut bytes[2..], self.src);
        BigEndian::write_u128(&mut bytes[18..], self.dst);
        BigEndian::write_u16(&mut bytes[34..], self.sport);
        BigEndian::write_u16(&mut bytes[36..], self.dport);
        bytes
    }
}

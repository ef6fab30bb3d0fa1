ghost use Rattle.std.specs.Prelude.{◌≡◌, ◌≤◌, ◌+◌, ◌==◌, length};
ghost use Rattle.q_packet.specs.Head.{has_ports, head, header_length, ipv4_ports_are_there, port, ports_are_there, prio_of, traffic_class, version, zero_head};

use crate::ecn::Ecn;
use crate::flow_key::FlowKey;
use byteorder::{BigEndian, ByteOrder};

// Protocol numbers.
const TCP: u8 = 6;

const UDP: u8 = 17;

const SCTP: u8 = 132;

/// The least length of an IPv4 header, in bytes.
const IPV4_HEADER: usize = 20;

/// The length of an IPv6 header, in bytes.
const IPV6_HEADER: usize = 40;

/// The bits of bytes 6 and 7 of an IPv4 header that are the fragment offset; the three above are flags.
const FRAGMENT_OFFSET: u16 = 0x1fff;

/// The priority for each value of the four bits above the lowest of the traffic byte.
const PRIO: [u8; 16] = [0, 0, 0, 0, 2, 2, 2, 2, 6, 6, 6, 6, 4, 4, 4, 4];

/// What the first bytes of a packet say of it.
#[derive(Clone, Copy, PartialEq, Eq, Debug)]
pub struct Head {
    pub key: FlowKey,
    /// Priority, 0 to 15.
    pub prio: u8,
    pub ecn: Ecn,
}

impl Head {
    /// The head of what is not IP: every field 0.
    pub const fn zero() -> Head
        ensures { result ≡ zero_head }
    {
        Head {
            key: FlowKey::zero(),
            prio: 0,
            ecn: Ecn::NotEct,
        }
    }
}

/// Reads the head of a packet that begins with its IP header, from as many of its bytes as are there.
///
/// IPv4 (RFC 791, section 3.1) is read with its options and fragments, IPv6 (RFC 8200, section 3) without its extension
/// headers: the next header is taken for the protocol. Ports are read for TCP, UDP and SCTP, where the four bytes are there
/// and, in IPv4, the packet is no later fragment; else they are 0. What is neither, or lacks a part of its IP header, has
/// the zero head.
#[tactic(auto, unfolding(crate::specs::Head::head))]
pub fn read_head(packet: &[u8]) -> Head
    ensures value { result ≡ head packet.now }
    ensures in_range { result.prio ≤ 15 }
{
    let Some(first) = packet.first() else {
        return Head::zero();
    };
    match *first >> 4 {
        4 => read_ipv4(packet),
        6 => read_ipv6(packet),
        _ => Head::zero(),
    }
}

// The head of a packet of version 4.
#[tactic(auto, using(crate::proofs::HeadLemmas::prio_in_range), unfolding(crate::specs::Head::head))]
fn read_ipv4(packet: &[u8]) -> Head
    requires { version packet.now ≡ 4 }
    ensures value { result ≡ head packet.now }
    ensures in_range { result.prio ≤ 15 }
{
    if packet.len() < IPV4_HEADER {
        return Head::zero();
    }
    let header = ipv4_header_length(packet);
    if header < IPV4_HEADER || packet.len() < header {
        return Head::zero();
    }
    let proto = packet[9];
    let (sport, dport) = read_ipv4_ports(packet, header, proto);
    Head {
        key: FlowKey {
            family: 4,
            proto,
            src: BigEndian::read_u32(&packet[12..]) as u128,
            dst: BigEndian::read_u32(&packet[16..]) as u128,
            sport,
            dport,
        },
        prio: prio_of_traffic(packet[1]),
        ecn: Ecn::from_bits(packet[1]),
    }
}

// The header length of an IPv4 packet, in bytes.
fn ipv4_header_length(packet: &[u8]) -> usize
    requires { 1 ≤ length packet.now }
    ensures { result ≡ header_length packet.now }
{
    (packet[0] & 0x0f) as usize * 4
}

// The ports of an IPv4 packet with a header of `header` bytes. A later fragment has none.
fn read_ipv4_ports(packet: &[u8], header: usize, proto: u8) -> (u16, u16)
    requires least { 20 ≤ header }
    requires whole { header ≤ length packet.now }
    ensures source { result.0 ≡ port (ipv4_ports_are_there proto header packet.now) header packet.now }
    ensures destination { result.1 ≡ port (ipv4_ports_are_there proto header packet.now) (header + 2) packet.now }
{
    let fragment_offset = BigEndian::read_u16(&packet[6..]) & FRAGMENT_OFFSET;
    if fragment_offset != 0 {
        return (0, 0);
    }
    read_ports(packet, header, proto)
}

// The head of a packet of version 6.
#[tactic(auto, using(crate::proofs::HeadLemmas::prio_in_range), unfolding(crate::specs::Head::head))]
fn read_ipv6(packet: &[u8]) -> Head
    requires { version packet.now ≡ 6 }
    ensures value { result ≡ head packet.now }
    ensures in_range { result.prio ≤ 15 }
{
    if packet.len() < IPV6_HEADER {
        return Head::zero();
    }
    let traffic = read_traffic_class(packet);
    let proto = packet[6];
    let (sport, dport) = read_ports(packet, IPV6_HEADER, proto);
    Head {
        key: FlowKey {
            family: 6,
            proto,
            src: BigEndian::read_u128(&packet[8..]),
            dst: BigEndian::read_u128(&packet[24..]),
            sport,
            dport,
        },
        prio: prio_of_traffic(traffic),
        ecn: Ecn::from_bits(traffic),
    }
}

// The traffic class of an IPv6 packet.
fn read_traffic_class(packet: &[u8]) -> u8
    requires { 2 ≤ length packet.now }
    ensures { result ≡ traffic_class packet.now }
{
    (packet[0] & 0x0f) << 4 | packet[1] >> 4
}

// The source and the destination port in the header of protocol `proto` at byte `at`; both 0 where they are not there.
fn read_ports(packet: &[u8], at: usize, proto: u8) -> (u16, u16)
    requires { at ≤ length packet.now }
    ensures source { result.0 ≡ port (ports_are_there proto at packet.now) at packet.now }
    ensures destination { result.1 ≡ port (ports_are_there proto at packet.now) (at + 2) packet.now }
{
    if !carries_ports(proto) || packet.len() - at < 4 {
        return (0, 0);
    }
    (
        BigEndian::read_u16(&packet[at..]),
        BigEndian::read_u16(&packet[at + 2..]),
    )
}

// Whether the header of this protocol begins with a source and a destination port.
fn carries_ports(proto: u8) -> bool
    ensures { result ≡ has_ports proto }
{
    matches!(proto, TCP | UDP | SCTP)
}

// The priority that a traffic byte asks for.
fn prio_of_traffic(traffic: u8) -> u8
    ensures { result ≡ prio_of traffic }
{
    PRIO[(traffic >> 1 & 0x0f) as usize]
}

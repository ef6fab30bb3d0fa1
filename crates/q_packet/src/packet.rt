ghost use Rattle.std.specs.Prelude.{◌≡◌, ◌≤◌, ◌↔◌, IfSome, IsSome};

use crate::ecn::Ecn;
use crate::flow_key::FlowKey;
use std::marker::Model;

/// A packet's descriptor. The payload stays with the caller, who finds it again by `buf`.
///
/// The widest fields come first, since fields are laid out in this order.
///
/// A contract sees it as the record `Descriptor` of its fields. `len` is 1 to 65535 and `prio` 0 to 15: code that would
/// leave another number there is refused.
#[derive(Clone, Copy, PartialEq, Eq, Debug)]
pub struct Packet {
    /// Addresses, ports and protocol, which distinguish its flow from others.
    pub key: FlowKey,
    /// The packet's number among those of its port, from 1.
    pub number: u64,
    /// The sender's port.
    pub port: u32,
    /// The caller's buffer number, which comes back with the packet.
    pub buf: u32,
    /// The hash of its key, by which fq_codel chooses the flow.
    pub hash: u32,
    /// Length in bytes, 1 to 65535.
    pub len: u16,
    /// Priority as in Linux's `skb->priority`, 0 to 15.
    pub prio: u8,
    /// ECN codepoint.
    pub ecn: Ecn,
}

impl Model for Packet {
    ghost use Rattle.std.specs.Prelude.{◌≤◌};
    ghost use Rattle.q_packet.specs.Descriptor.{Descriptor};

    ghost Value = { Descriptor };

    ghost view = { λ p. record {
      port = p.port;
      number = p.number;
      buf = p.buf;
      len = p.len;
      key = p.key;
      hash = p.hash;
      prio = p.prio;
      ecn = p.ecn;
    } };

    ghost invariant = { λ p. (1 ≤ p.len) × (p.prio ≤ 15) };

    ghost inverse = { λ p. record {
      port = p.port;
      number = p.number;
      buf = p.buf;
      len = p.len;
      key = p.key;
      hash = p.hash;
      prio = p.prio;
      ecn = p.ecn;
    } };
}

impl Packet {
    /// The packet with these fields; `None` where `len` is 0 or `prio` is above 15.
    pub fn new(
        port: u32,
        number: u64,
        buf: u32,
        len: u16,
        key: FlowKey,
        hash: u32,
        prio: u8,
        ecn: Ecn,
    ) -> Option<Packet>
        ensures in_range { IsSome result ↔ ((1 ≤ len) × (prio ≤ 15)) }
        ensures value { IfSome result
            (λ p. p ≡ record {
              port = port;
              number = number;
              buf = buf;
              len = len;
              key = key;
              hash = hash;
              prio = prio;
              ecn = ecn;
            }) }
    {
        if len >= 1 && prio <= 15 {
            Some(Packet {
                port,
                number,
                buf,
                len,
                key,
                hash,
                prio,
                ecn,
            })
        } else {
            None
        }
    }
}

/// A packet for a place to which one will be copied, before that comes: any would do.
pub const SOME_PACKET: Packet = Packet {
    key: FlowKey {
        family: 0,
        proto: 0,
        src: 0,
        dst: 0,
        sport: 0,
        dport: 0,
    },
    number: 0,
    port: 0,
    buf: 0,
    hash: 0,
    len: 1,
    prio: 0,
    ecn: Ecn::NotEct,
};

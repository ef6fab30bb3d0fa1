use q_packet::{Ecn, FlowKey, KeptPacket, Packet};
use std::alloc::Global;

/// The length of each packet of a plan, in bytes.
const LEN: u16 = 1000;

/// The packets of a queue alone, with these lengths and all of one flow.
pub fn sized(alloc: Global, lens: &[u16]) -> Option<Vec<KeptPacket>> {
    let mut made = Vec::new(alloc);
    for (number, len) in lens.iter().enumerate() {
        let packet = plain(number as u64, *len, 3)?;
        if made.push(packet).is_err() {
            return None;
        }
    }
    Some(made)
}

/// The packets of an fq_codel alone, with these hashes, from which their lengths follow.
pub fn hashed(alloc: Global, hashes: &[u32]) -> Option<Vec<KeptPacket>> {
    let mut made = Vec::new(alloc);
    for (number, hash) in hashes.iter().enumerate() {
        let packet = plain(number as u64, (60 + *hash % 1400) as u16, *hash)?;
        if made.push(packet).is_err() {
            return None;
        }
    }
    Some(made)
}

/// A place for a packet that is taken.
pub fn blank() -> Option<KeptPacket> {
    plain(0, 1, 0)
}

fn plain(number: u64, len: u16, hash: u32) -> Option<KeptPacket> {
    let packet = Packet::new(1, number, 2, len, FlowKey::zero(), hash, 4, Ecn::NotEct)?;
    Some(KeptPacket::of(&packet))
}

/// What the packets of a workload are: of each its hash, its priority and its port of destination, and whether they can be
/// marked.
#[derive(Clone, Copy)]
pub struct Plan<'a> {
    pub hashes: &'a [u32],
    pub prios: &'a [u8],
    pub ports: &'a [u16],
    pub ecn: bool,
}

impl<'a> Plan<'a> {
    /// All packets in their order; `None` where a number is out of range or an allocation fails.
    pub fn made(self, alloc: Global) -> Option<Vec<KeptPacket>> {
        let mut made = Vec::new(alloc);
        for i in 0..self.hashes.len() {
            if made.push(self.packet(i)?).is_err() {
                return None;
            }
        }
        Some(made)
    }

    fn packet(self, i: usize) -> Option<KeptPacket> {
        let port = *self.ports.get(i)?;
        let key = FlowKey::new(4, 17, 0x0a00_0001, 0x0a00_0002, 1000, port)?;
        let (hash, prio) = (*self.hashes.get(i)?, *self.prios.get(i)?);
        let ecn = if self.ecn { Ecn::Ect0 } else { Ecn::NotEct };
        let packet = Packet::new(1, i as u64, 2, LEN, key, hash, prio, ecn)?;
        Some(KeptPacket::of(&packet))
    }
}

use crate::checksum;
use q_packet::{FlowHash, FlowKey, Head, OneAtATime, read_head};
use std::alloc::Global;

/// Reads each head of a table, so many times over.
///
/// A head has 64 bytes of the table. The last one of these is its length, at most 63.
#[unsafe(no_mangle)]
pub extern "C" fn q_bench_read_head(table: &[u8], passes: u32) -> u64 {
    let (slots, _) = table.as_chunks::<64>();
    let mut sum = 0;
    for _ in 0..passes {
        for slot in slots {
            sum = checksum::with(sum, summary(&read_head(head_in(slot))));
        }
    }
    sum
}

/// Hashes the key of each head of a table, so many times over. The heads are read once.
#[unsafe(no_mangle)]
pub extern "C" fn q_bench_hash(alloc: Global, table: &[u8], passes: u32) -> u64 {
    let (slots, _) = table.as_chunks::<64>();
    let mut keys: Vec<FlowKey> = Vec::new(alloc);
    for slot in slots {
        if keys.push(read_head(head_in(slot)).key).is_err() {
            return 0;
        }
    }
    let hash = OneAtATime { seed: passes };
    let mut sum = 0;
    for _ in 0..passes {
        for key in &keys {
            sum = checksum::with(sum, u64::from(hash.hash(key)));
        }
    }
    sum
}

/// The head in its place of a table.
fn head_in(slot: &[u8; 64]) -> &[u8] {
    let len = slot[63] as usize;
    &slot[..len.min(63)]
}

fn summary(head: &Head) -> u64 {
    let Head { key, prio, ecn } = *head;
    let FlowKey {
        family,
        proto,
        src,
        dst,
        sport,
        dport,
    } = key;
    let numbers = (u64::from(family) << 56)
        ^ (u64::from(proto) << 48)
        ^ (u64::from(prio) << 40)
        ^ (u64::from(ecn.bits()) << 32)
        ^ (u64::from(sport) << 16)
        ^ u64::from(dport);
    numbers ^ checksum::low(src) ^ checksum::low(dst >> 64) ^ checksum::low(dst)
}

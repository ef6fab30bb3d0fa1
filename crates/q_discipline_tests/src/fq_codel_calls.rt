//! 10,000 calls on one fq_codel beside plain lists: puts, takes, changes and purges, by a word sequence, with 1, 3, 1000 and 65,536 flows.
use crate::twins::Twins;
use crate::words::Words;
use q_fqcodel::Settings;
use q_packet::{Cause, Ecn, FlowKey, Moment, Packet};
use std::alloc::Global;
use std::test::Fail;

const CALLS: u64 = 10_000;

/// How much of each kind was seen.
#[derive(Drop)]
struct Seen {
    sent: u64,
    marked: u64,
    dropped: u64,
    shed: u64,
    purged: u64,
    // How many packets were sent since the last purge.
    sent_since: u64,
}

const NOTHING: Seen = Seen {
    sent: 0,
    marked: 0,
    dropped: 0,
    shed: 0,
    purged: 0,
    sent_since: 0,
};

impl Seen {
    fn note_sent(&mut self, is_marked: bool) {
        self.sent = self.sent.saturating_add(1);
        self.sent_since = self.sent_since.saturating_add(1);
        self.marked = self.marked.saturating_add(u64::from(is_marked));
    }

    fn note_lost(&mut self, cause: Cause) {
        match cause {
            Cause::CoDel => self.dropped = self.dropped.saturating_add(1),
            Cause::FatFlow => self.shed = self.shed.saturating_add(1),
            _ => {
                self.purged = self.purged.saturating_add(1);
                self.sent_since = 0;
            }
        }
    }

    // Whether what the calls are to try has come about, and packets were sent after a purge.
    fn has_all_kinds(&self, flows: u32) -> bool {
        let each = self.sent > 1000 && self.shed > 0 && self.purged > 0 && self.sent_since > 0;
        each && (flows > 3 || (self.marked > 0 && self.dropped > 0))
    }
}

fn length_of(word: u64) -> u16 {
    60 + ((word >> 10) % 1454) as u16
}

// Below a power of two, which is at most 65536: most packets are of few flows.
fn hash_of(word: u64) -> u32 {
    let most = (1u32 << ((word >> 24) % 17)).saturating_sub(1);
    ((word >> 30) % 65536) as u32 & most
}

fn codepoint_of(word: u64) -> Ecn {
    if (word >> 29) % 2 == 0 {
        Ecn::Ect0
    } else {
        Ecn::NotEct
    }
}

/// The packet that a word says.
fn packet_of(number: u64, word: u64) -> Result<Packet, Fail> {
    let (len, hash, ecn) = (length_of(word), hash_of(word), codepoint_of(word));
    let packet = Packet::new(0, number, 0, len, FlowKey::zero(), hash, 0, ecn);
    Ok(packet.ok_or("packet")?)
}

// The settings that a word says, in place of these.
fn other_settings(now: Settings, word: u64) -> Option<Settings> {
    Settings::new(
        20 + (word % 300) as u32,
        now.flows,
        300 + ((word >> 9) % 2000) as u32,
        1_000_000 + (word >> 21) % 8_000_000,
        50_000_000 + (word >> 11) % 100_000_000,
        (word >> 20) % 2 == 0,
        now.drop_batch,
        now.mtu,
    )
}

fn change(twins: &mut Twins, word: u64) -> Result<(), Fail> {
    let settings = other_settings(twins.settings(), word).ok_or("settings")?;
    twins.change(settings)
}

// The call that a word says: 609 of 1024 put a packet, 407 take one, 7 change the settings and one purges.
fn call(
    twins: &mut Twins,
    seen: &mut Seen,
    number: u64,
    word: u64,
    now: Moment,
) -> Result<(), Fail> {
    match word % 1024 {
        0 => twins.purge()?,
        1..=7 => change(twins, word >> 10)?,
        8..=616 => {
            twins.put(packet_of(number, word)?, now)?;
        }
        _ => {
            if let Some(taken) = twins.take(now)? {
                seen.note_sent(taken.marked);
            }
        }
    }
    Ok(())
}

// Both have as many packets, bytes and listed flows, and have lost the same packets in the same order.
fn compare(twins: &mut Twins, seen: &mut Seen) -> Result<(), Fail> {
    twins.queued()?;
    twins.listed()?;
    for _ in 0..twins.losses()? {
        let loss = twins.reap()?.ok_or("a loss")?;
        seen.note_lost(loss.cause);
    }
    Ok(())
}

// Makes the calls of the word sequence.
fn go_on(twins: &mut Twins, seen: &mut Seen) -> Result<(), Fail> {
    let mut words = Words::new();
    let mut ns = 0u64;
    for number in 0..CALLS {
        let word = words.next();
        ns = ns.saturating_add((word >> 40) % 2_000_000);
        let now = Moment::new(ns).ok_or("moment")?;
        call(twins, seen, number, word, now)?;
        compare(twins, seen)?;
    }
    Ok(())
}

fn settings_with(flows: u32, drop_batch: u32) -> Option<Settings> {
    Settings::new(
        200,
        flows,
        1514,
        5_000_000,
        100_000_000,
        true,
        drop_batch,
        1514,
    )
}

fn played(alloc: Global, flows: u32, drop_batch: u32) -> Result<(), Fail> {
    let settings = settings_with(flows, drop_batch).ok_or("settings")?;
    let mut twins = Twins::new(alloc, settings)?;
    let mut seen = NOTHING;
    go_on(&mut twins, &mut seen)?;
    if seen.has_all_kinds(flows) {
        Ok(())
    } else {
        Err("what was to come about did not".into())
    }
}

// With batches of 1, 3 and 64.
fn played_with(alloc: Global, flows: u32) -> Result<(), Fail> {
    for drop_batch in [1, 3, 64] {
        played(alloc, flows, drop_batch)?;
    }
    Ok(())
}

#[test]
fn ten_thousand_calls_on_one_flow(rt: HostRuntime) -> Result<(), Fail> {
    played_with(rt.alloc(), 1)
}

#[test]
fn ten_thousand_calls_on_three_flows(rt: HostRuntime) -> Result<(), Fail> {
    played_with(rt.alloc(), 3)
}

#[test]
fn ten_thousand_calls_on_a_thousand_flows(rt: HostRuntime) -> Result<(), Fail> {
    played_with(rt.alloc(), 1000)
}

#[test]
fn ten_thousand_calls_on_as_many_flows_as_may_be(rt: HostRuntime) -> Result<(), Fail> {
    played_with(rt.alloc(), 65536)
}

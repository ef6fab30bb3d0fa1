//! Random packets written as lines of a script. Each line is read as its packet; the crate for Rust has no call that reads one.
use crate::chance::Chance;
use q_device::{Ecn, Event, FlowKey, Moment, Packet};
use q_line::{Arrival, Line, read_line};
use q_spelling::event_text;
use std::test::Fail;

const SEED: u64 = 70;

/// How many packets there are.
const PACKETS: usize = 5_000;

#[test]
fn a_line_says_its_packet(rt: HostRuntime) -> Result<(), Fail> {
    let mut chance = Chance::new(SEED);
    for _packet in 0..PACKETS {
        let event = Event::Arrive(packet(&mut chance)?, Moment::zero());
        assert!(rt; is_read_back(&event), "{event:?}");
    }
    assert!(rt; is_read_back(&Event::Poll(Moment::zero())));
    Ok(())
}

fn is_read_back(event: &Event) -> bool {
    let text = event_text(event);
    let Ok(line) = read_line(text.as_bytes()) else {
        return false;
    };
    says(&line, event)
}

// Whether a line says this event.
fn says(line: &Line, event: &Event) -> bool {
    match (line, event) {
        (Line::Pkt(arrival), Event::Arrive(packet, _)) => says_packet(arrival, packet),
        (Line::Poll(count), Event::Poll(_)) => *count == 1,
        _ => false,
    }
}

// Whether it has all of a packet but its port, its number and its buffer, which no line gives.
fn says_packet(arrival: &Arrival, packet: &Packet) -> bool {
    arrival.key == packet.key
        && arrival.hash == Some(packet.hash)
        && arrival.len == packet.len
        && arrival.prio == packet.prio
        && arrival.ecn == packet.ecn
}

// A packet, mostly of a length that the device takes.
fn packet(chance: &mut Chance) -> Result<Packet, Fail> {
    let most = if chance.hits(16) { 65_535 } else { 1_514 };
    let len = chance.short(most).saturating_add(1);
    let key = key(chance)?;
    let (port, number, buf) = (chance.word(64), chance.wide(), chance.word(1 << 32));
    let (hash, prio) = (chance.word(1 << 32), chance.byte(16));
    let ecn = Ecn::from_bits(chance.byte(4));
    Ok(Packet::new(port, number, buf, len, key, hash, prio, ecn).ok_or("a packet")?)
}

// The key of a packet that is not IP, which has no addresses, or is of either version.
fn key(chance: &mut Chance) -> Result<FlowKey, Fail> {
    let (sport, dport) = (chance.short(1 << 16), chance.short(1 << 16));
    let (family, bits) = match chance.below(3) {
        0 => (0, 0),
        1 => (4, 32),
        _ => (6, 128),
    };
    let (src, dst) = (address(chance, bits), address(chance, bits));
    let proto = proto(chance);
    Ok(FlowKey::new(family, proto, src, dst, sport, dport).ok_or("a key")?)
}

// The number of a protocol above IP: TCP, UDP or any.
fn proto(chance: &mut Chance) -> u8 {
    match chance.below(3) {
        0 => 6,
        1 => 17,
        _ => chance.byte(256),
    }
}

// An address of so many bits: 0, 32 or 128.
fn address(chance: &mut Chance, bits: u32) -> u128 {
    let high = u128::from(chance.wide());
    let low = u128::from(chance.wide());
    match bits {
        0 => 0,
        32 => high >> 32,
        _ => high.wrapping_mul(1 << 64) ^ low,
    }
}

//! Packet descriptors, keys and hashes.
use crate::fnv::Fnv1a;
use q_packet::{Cause, Ecn, FlowHash, FlowKey, Moment, OneAtATime, Packet, one_at_a_time};
use std::alloc::{AllocError, Global};
use std::test::Fail;

// Each helper here is without an `ensures`, so that no test works out what its calls give.
fn nanoseconds(ns: u64) -> Option<u64> {
    Some(Moment::new(ns)?.ns())
}

#[test]
fn moments_end_at_two_to_the_62(rt: HostRuntime) {
    for (ns, there) in [
        (0, true),
        (1 << 62, true),
        ((1 << 62) + 1, false),
        (u64::MAX, false),
    ] {
        assert!(rt; nanoseconds(ns) == there.then_some(ns), "{ns} ns");
    }
}

fn is_in_range(len: u16, prio: u8) -> bool {
    Packet::new(0, 1, 2, len, FlowKey::zero(), 3, prio, Ecn::NotEct).is_some()
}

fn highest() -> Option<Packet> {
    let (key, most) = (FlowKey::zero(), u32::MAX);
    Packet::new(most, u64::MAX, most, 1, key, most, 15, Ecn::Ce)
}

#[test]
fn lengths_and_priorities_are_in_range(rt: HostRuntime) {
    for (len, prio, there) in [
        (0, 0, false),
        (1, 0, true),
        (u16::MAX, 15, true),
        (1, 16, false),
        (1, u8::MAX, false),
    ] {
        assert!(rt;
            is_in_range(len, prio) == there,
            "{len} bytes of priority {prio}"
        );
    }
    let packet = Packet {
        port: u32::MAX,
        number: u64::MAX,
        buf: u32::MAX,
        len: 1,
        key: FlowKey::zero(),
        hash: u32::MAX,
        prio: 15,
        ecn: Ecn::Ce,
    };
    assert!(rt; highest() == Some(packet));
}

// The codepoint of a traffic byte, and its bits.
fn codepoint(traffic: u8) -> (Ecn, u8) {
    let ecn = Ecn::from_bits(traffic);
    (ecn, ecn.bits())
}

#[test]
fn codepoints_are_the_low_two_bits(rt: HostRuntime) {
    for (traffic, ecn) in [
        (0x00, Ecn::NotEct),
        (0x01, Ecn::Ect1),
        (0x02, Ecn::Ect0),
        (0x03, Ecn::Ce),
        (0xb8, Ecn::NotEct),
        (0xff, Ecn::Ce),
    ] {
        assert!(rt;
            codepoint(traffic) == (ecn, traffic % 4),
            "traffic byte {traffic}"
        );
    }
}

fn is_shown(alloc: Global, cause: Cause, name: &str) -> Result<bool, AllocError> {
    Ok(format!(in alloc; "{cause}")?.as_str() == name)
}

#[test]
fn causes_are_shown_by_name(rt: HostRuntime) -> Result<(), Fail> {
    for (cause, name, refuses) in [
        (Cause::TooLong, "TooLong", true),
        (Cause::NoClass, "NoClass", true),
        (Cause::OverLimit, "OverLimit", true),
        (Cause::CoDel, "CoDel", false),
        (Cause::FatFlow, "FatFlow", false),
        (Cause::Purged, "Purged", false),
    ] {
        assert!(rt;
            is_shown(rt.alloc(), cause, name)? && cause.is_refusal() == refuses,
            "{name}"
        );
    }
    Ok(())
}

// The family, the protocol, the source, the destination and the two ports.
type Fields = (u8, u8, u128, u128, u16, u16);

fn key_of((family, proto, src, dst, sport, dport): Fields) -> Option<FlowKey> {
    FlowKey::new(family, proto, src, dst, sport, dport)
}

fn key_bytes(fields: Fields) -> Option<[u8; 38]> {
    Some(key_of(fields)?.bytes())
}

#[test]
fn keys_have_three_families(rt: HostRuntime) {
    assert!(rt; key_of((0, 0, 0, 0, 0, 0)) == Some(FlowKey::zero()));
    let widest = u128::from(u32::MAX);
    assert!(rt; key_of((4, u8::MAX, widest, widest, u16::MAX, u16::MAX)).is_some());
    assert!(rt; key_of((4, 0, widest + 1, 0, 0, 0)).is_none());
    assert!(rt; key_of((4, 0, 0, widest + 1, 0, 0)).is_none());
    for family in [1, 3, 5, 7, u8::MAX] {
        assert!(rt;
            key_of((family, 0, 0, 0, 0, 0)).is_none(),
            "family {family}"
        );
    }
    let highest = (6, u8::MAX, u128::MAX, u128::MAX, u16::MAX, u16::MAX);
    let mut all = [255; 38];
    all[0] = 6;
    assert!(rt; key_bytes(highest) == Some(all));
}

#[test]
fn bytes_are_the_fields_in_order(rt: HostRuntime) {
    let bytes = b"\x04\x11\
        \0\0\0\0\0\0\0\0\0\0\0\0\x0a\x00\x00\x01\
        \0\0\0\0\0\0\0\0\0\0\0\0\x0a\x00\x00\x02\
        \x00\x35\x12\x34";
    assert!(rt; key_bytes((4, 17, 0x0a00_0001, 0x0a00_0002, 53, 0x1234)) == Some(*bytes));
    assert!(rt; key_bytes((0, 0, 0, 0, 0, 0)) == Some([0; 38]));
}

// The hash of a flow, and its queue among 1024, as fq_codel finds it.
fn hashed<H: FlowHash>(hash: &H, key: &FlowKey) -> (u32, u32) {
    let hash = hash.hash(key);
    (hash, hash % 1024)
}

#[test]
fn hashes_bytes_and_keys(rt: HostRuntime) -> Result<(), Fail> {
    assert!(rt; one_at_a_time(0, b"a") == 0xca2e_9442);
    assert!(rt; one_at_a_time(1, b"") == 0x48009);
    assert!(rt; one_at_a_time(0, b"The quick brown fox jumps over the lazy dog") == 0x519e_91f5);
    let key = FlowKey::zero();
    assert!(rt; hashed(&OneAtATime { seed: 0 }, &key) == (0, 0));
    // What another program's FNV-1a gives for the 38 bytes of two keys.
    assert!(rt; hashed(&Fnv1a, &key) == (0xf5df_9a1d, 0xf5df_9a1d % 1024));
    let key = key_of((4, 17, 0x0a00_0001, 0x0a00_0002, 53, 0x1234)).ok_or("family 4")?;
    assert!(rt; hashed(&Fnv1a, &key) == (0x1f20_c41e, 0x1f20_c41e % 1024));
    Ok(())
}

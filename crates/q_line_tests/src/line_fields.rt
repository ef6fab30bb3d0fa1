//! Packets, times, polls, frames, and classes and filters of another qdisc than they name, with each number at the ends of its range.
//! What they say is what the grammar gives: q_worked_examples has the same lines, with their answers computed from it.
use crate::line_reading::{NO_FLOW, Says, assert_flows, assert_lines};
use q_packet::Ecn;

#[test]
fn classes(rt: HostRuntime) {
    assert_lines(
        &rt,
        &[
            (
                "tc class add dev e parent fffe: classid 1:1 drr",
                Says::Class((0xfffe, (1, 1), None)),
            ),
            (
                "tc class add dev e parent 1: classid fffe:ffff drr",
                Says::Class((1, (0xfffe, 0xffff), None)),
            ),
        ],
    );
}

#[test]
fn filters(rt: HostRuntime) {
    assert_lines(
        &rt,
        &[
            (
                "tc filter add dev e parent fffe: prio 1 flower classid 1:1",
                Says::Filter((0xfffe, 1, (1, 1))),
            ),
            (
                "tc filter add dev e parent 1: prio 1 flower classid fffe:ffff",
                Says::Filter((1, 1, (0xfffe, 0xffff))),
            ),
        ],
    );
}

#[test]
fn lengths(rt: HostRuntime) {
    assert_lines(
        &rt,
        &[
            ("pkt 1", Says::Packet((1, NO_FLOW, None, 0, Ecn::NotEct))),
            (
                "pkt 65535",
                Says::Packet((65535, NO_FLOW, None, 0, Ecn::NotEct)),
            ),
        ],
    );
}

#[test]
fn hashes(rt: HostRuntime) {
    assert_lines(
        &rt,
        &[
            (
                "pkt 1 hash 0",
                Says::Packet((1, NO_FLOW, Some(0), 0, Ecn::NotEct)),
            ),
            (
                "pkt 1 hash 4294967295",
                Says::Packet((1, NO_FLOW, Some(u32::MAX), 0, Ecn::NotEct)),
            ),
        ],
    );
}

#[test]
fn priorities_and_codepoints(rt: HostRuntime) {
    assert_lines(
        &rt,
        &[
            (
                "pkt 1 prio 0",
                Says::Packet((1, NO_FLOW, None, 0, Ecn::NotEct)),
            ),
            (
                "pkt 1 prio 15",
                Says::Packet((1, NO_FLOW, None, 15, Ecn::NotEct)),
            ),
            (
                "pkt 1 ecn 0",
                Says::Packet((1, NO_FLOW, None, 0, Ecn::NotEct)),
            ),
            (
                "pkt 1 ecn 1",
                Says::Packet((1, NO_FLOW, None, 0, Ecn::Ect1)),
            ),
            (
                "pkt 1 ecn 2",
                Says::Packet((1, NO_FLOW, None, 0, Ecn::Ect0)),
            ),
            ("pkt 1 ecn 3", Says::Packet((1, NO_FLOW, None, 0, Ecn::Ce))),
        ],
    );
}

#[test]
fn keys_of_a_packet(rt: HostRuntime) {
    assert_flows(
        &rt,
        &[
            ("pkt 1 ip_proto 0", NO_FLOW),
            ("pkt 1 ip_proto ff", (0, 255, 0, 0, 0, 0)),
            ("pkt 1 src_port 0", NO_FLOW),
            ("pkt 1 src_port 65535", (0, 0, 0, 0, 65535, 0)),
            ("pkt 1 dst_port 0", NO_FLOW),
            ("pkt 1 dst_port 65535", (0, 0, 0, 0, 0, 65535)),
        ],
    );
}

#[test]
fn moments(rt: HostRuntime) {
    assert_lines(
        &rt,
        &[
            ("at 0", Says::At(0)),
            (
                "at 4611686018427387904",
                Says::At(4_611_686_018_427_387_904),
            ),
        ],
    );
}

#[test]
fn polls(rt: HostRuntime) {
    assert_lines(
        &rt,
        &[
            ("poll 1", Says::Poll(1)),
            ("poll 100000", Says::Poll(100_000)),
        ],
    );
}

#[test]
fn frames(rt: HostRuntime) {
    assert_lines(
        &rt,
        &[
            ("frame 1 00", Says::Frame((1, NO_FLOW, 0, Ecn::NotEct))),
            (
                "frame 65535 00",
                Says::Frame((65535, NO_FLOW, 0, Ecn::NotEct)),
            ),
        ],
    );
}

//! `frame` lines, which give a packet's head by its first bytes.
//! The bytes are written by the diagrams of RFC 791 and RFC 8200, and what they say is read off them by hand.
use crate::line_reading::{NO_FLOW, Says, assert_lines};
use q_packet::Ecn;

// A frame that is no IP packet.
const UNREAD: Says = Says::Frame((64, NO_FLOW, 0, Ecn::NotEct));

#[test]
fn frames_of_ipv4(rt: HostRuntime) {
    assert_lines(
        &rt,
        &[
            // UDP from 10.0.0.1, port 53, to 10.0.0.2, port 54; with digits in either case, and with more behind it
            (
                "frame 1500 450000280000000040110000\
                  0a0000010a00000200350036",
                Says::Frame((
                    1500,
                    (4, 17, 0x0a00_0001, 0x0a00_0002, 53, 54),
                    0,
                    Ecn::NotEct,
                )),
            ),
            (
                "frame 65535 450000280000000040110000\
                  0A0000010A0000020035003600ffFF",
                Says::Frame((
                    65535,
                    (4, 17, 0x0a00_0001, 0x0a00_0002, 53, 54),
                    0,
                    Ecn::NotEct,
                )),
            ),
            // TCP with an option of four bytes; the traffic byte is 10 with Ect0, whose index is 9
            (
                "frame 60 4612003c0000400040060000\
                  c0a80001c0a800fe9404000001bbc000",
                Says::Frame((
                    60,
                    (4, 6, 0xc0a8_0001, 0xc0a8_00fe, 443, 49152),
                    6,
                    Ecn::Ect0,
                )),
            ),
            // a later fragment has no ports
            (
                "frame 60 450000280000000140110000\
                  0a0000010a00000200350036",
                Says::Frame((60, (4, 17, 0x0a00_0001, 0x0a00_0002, 0, 0), 0, Ecn::NotEct)),
            ),
            // and so has ICMP
            (
                "frame 1 450000280000000040010000\
                  0a0000010a00000208000000",
                Says::Frame((1, (4, 1, 0x0a00_0001, 0x0a00_0002, 0, 0), 0, Ecn::NotEct)),
            ),
        ],
    );
}

#[test]
fn frames_of_ipv6(rt: HostRuntime) {
    assert_lines(
        &rt,
        &[
            // UDP from ::1 to ::2; the traffic byte is b9
            (
                "frame 80 6b90000000041140\
                  00000000000000000000000000000001\
                  00000000000000000000000000000002\
                  00350036",
                Says::Frame((80, (6, 17, 1, 2, 53, 54), 4, Ecn::Ect1)),
            ),
            // the last byte of the ports is not there
            (
                "frame 80 6b90000000041140\
                  00000000000000000000000000000001\
                  00000000000000000000000000000002\
                  003500",
                Says::Frame((80, (6, 17, 1, 2, 0, 0), 4, Ecn::Ect1)),
            ),
            // an extension header is where the ports would be
            (
                "frame 80 6000000000080040\
                  20010db8000000000000000000000001\
                  20010db8000000000000000000000002\
                  1100000000000000",
                Says::Frame((
                    80,
                    (
                        6,
                        0,
                        0x2001_0db8_0000_0000_0000_0000_0000_0001,
                        0x2001_0db8_0000_0000_0000_0000_0000_0002,
                        0,
                        0,
                    ),
                    0,
                    Ecn::NotEct,
                )),
            ),
        ],
    );
}

#[test]
fn frames_that_are_no_ip_packet(rt: HostRuntime) {
    assert_lines(
        &rt,
        &[
            // a VLAN tag, with an IPv4 head behind it
            (
                "frame 64 8100006408004500002800000000\
                  401100000a0000010a00000200350036",
                UNREAD,
            ),
            // an Ethernet head with a VLAN tag
            (
                "frame 64 0200000000010200000000028100006408004500002800000000\
                  401100000a0000010a00000200350036",
                UNREAD,
            ),
            // one byte, and 19 bytes of an IPv4 head
            ("frame 64 45", UNREAD),
            ("frame 64 45000028000000004006000a0000010a0000", UNREAD),
            // a header length of 16, and one that is longer than what is there
            (
                "frame 64 440000280000000040110000\
                  0a0000010a00000200350036",
                UNREAD,
            ),
            (
                "frame 64 480000280000000040110000\
                  0a0000010a00000200350036",
                UNREAD,
            ),
            // 39 bytes of an IPv6 head
            (
                "frame 64 6b90000000041140\
                  00000000000000000000000000000001\
                  000000000000000000000000000000",
                UNREAD,
            ),
        ],
    );
}

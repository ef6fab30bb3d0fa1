//! Packets with addresses of both versions, and with protocols above IP.
//! What they say is what the grammar gives: q_worked_examples has the same lines, with their answers computed from it.
use crate::line_reading::assert_flows;

#[test]
fn ipv6_addresses(rt: HostRuntime) {
    assert_flows(
        &rt,
        &[
            ("pkt 1 src_ip ::", (6, 0, 0, 0, 0, 0)),
            (
                "pkt 1 src_ip ::2:3:4:5:6:7:8",
                (6, 0, 0x2000300040005000600070008, 0, 0, 0),
            ),
            (
                "pkt 1 src_ip 1::3:4:5:6:7:8",
                (6, 0, 0x10000000300040005000600070008, 0, 0, 0),
            ),
            (
                "pkt 1 src_ip 1:2::4:5:6:7:8",
                (6, 0, 0x10002000000040005000600070008, 0, 0, 0),
            ),
            (
                "pkt 1 src_ip 1:2:3::5:6:7:8",
                (6, 0, 0x10002000300000005000600070008, 0, 0, 0),
            ),
            (
                "pkt 1 src_ip 1:2:3:4::6:7:8",
                (6, 0, 0x10002000300040000000600070008, 0, 0, 0),
            ),
            (
                "pkt 1 src_ip 1:2:3:4:5::7:8",
                (6, 0, 0x10002000300040005000000070008, 0, 0, 0),
            ),
            (
                "pkt 1 src_ip 1:2:3:4:5:6::8",
                (6, 0, 0x10002000300040005000600000008, 0, 0, 0),
            ),
            (
                "pkt 1 src_ip 1:2:3:4:5:6:7::",
                (6, 0, 0x10002000300040005000600070000, 0, 0, 0),
            ),
            (
                "pkt 1 src_ip 1:2:3:4:5:6:7:8",
                (6, 0, 0x10002000300040005000600070008, 0, 0, 0),
            ),
            ("pkt 1 src_ip ::8", (6, 0, 8, 0, 0, 0)),
            (
                "pkt 1 src_ip 1::",
                (6, 0, 0x10000000000000000000000000000, 0, 0, 0),
            ),
            (
                "pkt 1 src_ip 1:2::7:8",
                (6, 0, 0x10002000000000000000000070008, 0, 0, 0),
            ),
            (
                "pkt 1 src_ip FE80::00aB",
                (6, 0, 0xfe8000000000000000000000000000ab, 0, 0, 0),
            ),
        ],
    );
}

#[test]
fn ipv4_addresses(rt: HostRuntime) {
    assert_flows(
        &rt,
        &[
            ("pkt 1 dst_ip 0.0.0.0", (4, 0, 0, 0, 0, 0)),
            ("pkt 1 dst_ip 255.255.255.255", (4, 0, 0, 0xffffffff, 0, 0)),
            ("pkt 1 dst_ip 10.0.0.1", (4, 0, 0, 0xa000001, 0, 0)),
            ("pkt 1 dst_ip 010.0.0.001", (4, 0, 0, 0xa000001, 0, 0)),
        ],
    );
}

#[test]
fn protocols(rt: HostRuntime) {
    assert_flows(
        &rt,
        &[
            ("pkt 1 ip_proto icmp", (0, 1, 0, 0, 0, 0)),
            ("pkt 1 ip_proto tcp", (0, 6, 0, 0, 0, 0)),
            ("pkt 1 ip_proto udp", (0, 17, 0, 0, 0, 0)),
            ("pkt 1 ip_proto icmpv6", (0, 58, 0, 0, 0, 0)),
            ("pkt 1 ip_proto sctp", (0, 132, 0, 0, 0, 0)),
            ("pkt 1 ip_proto 17", (0, 23, 0, 0, 0, 0)),
            ("pkt 1 ip_proto 6", (0, 6, 0, 0, 0, 0)),
            ("pkt 1 ip_proto 0Ff", (0, 255, 0, 0, 0, 0)),
            ("pkt 1 ip_proto 0011", (0, 17, 0, 0, 0, 0)),
        ],
    );
}

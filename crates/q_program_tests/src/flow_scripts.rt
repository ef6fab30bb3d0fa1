//! Worked scripts of CoDel and of the flows of an fq_codel, with their outcomes and reports.
use crate::worked_scripts::{DONE, REFUSED, Worked};

pub const FLOW_SCRIPTS: &[Worked] = &[
    (
        "batch leaves one",
        b"\
tc qdisc add dev eth0 root fq_codel limit 1 drop_batch 10
pkt 100 hash 0
pkt 200 hash 0
poll 2
reap
",
        DONE,
        b"\
sent 2 200
idle
lost 1 100 FatFlow
",
    ),
    (
        "batch of two",
        b"\
tc qdisc add dev eth0 root fq_codel limit 3 drop_batch 2
pkt 500 hash 0
pkt 500 hash 0
pkt 500 hash 0
pkt 100 hash 1
poll 3
reap
",
        DONE,
        b"\
sent 3 500
sent 4 100
idle
lost 1 500 FatFlow
lost 2 500 FatFlow
",
    ),
    (
        "batch within its flow",
        b"\
tc qdisc add dev eth0 root fq_codel limit 2 drop_batch 3
pkt 50 hash 0
pkt 100 hash 1
pkt 100 hash 1
poll 2
reap
",
        DONE,
        b"\
sent 1 50
idle
lost 2 100 FatFlow
lost 3 100 FatFlow
",
    ),
    (
        "batch zero refused",
        b"\
tc qdisc add dev eth0 root fq_codel drop_batch 0
",
        REFUSED,
        b"\
line 1: fault 4 OutOfRange word 9
",
    ),
    (
        "codel drops",
        b"\
tc qdisc add dev eth0 root fq_codel
pkt 1000 hash 0
pkt 1000 hash 0
pkt 1000 hash 0
pkt 1000 hash 0
pkt 1000 hash 0
pkt 1000 hash 0
pkt 1000 hash 0
pkt 1000 hash 0
pkt 1000 hash 0
pkt 1000 hash 0
at 10000000
poll
at 110000000
poll
at 210000000
poll
at 280710677
poll
at 280710678
poll
at 338445704
poll 3
reap
",
        DONE,
        b"\
sent 1 1000
sent 3 1000
sent 5 1000
sent 6 1000
sent 8 1000
sent 9 1000
sent 10 1000
idle
lost 2 1000 CoDel
lost 4 1000 CoDel
lost 7 1000 CoDel
",
    ),
    (
        "codel marks",
        b"\
tc qdisc add dev eth0 root fq_codel
pkt 1000 hash 0 ecn 2
pkt 1000 hash 0 ecn 2
pkt 1000 hash 0 ecn 2
pkt 1000 hash 0 ecn 2
pkt 1000 hash 0 ecn 2
pkt 1000 hash 0 ecn 2
pkt 1000 hash 0 ecn 2
pkt 1000 hash 0 ecn 2
pkt 1000 hash 0 ecn 2
pkt 1000 hash 0 ecn 2
at 10000000
poll
at 110000000
poll
at 210000000
poll
at 280710677
poll
at 280710678
poll
at 338445704
poll 3
reap
tc -s qdisc show dev eth0
",
        DONE,
        b"\
sent 1 1000
sent 2 1000 ce
sent 3 1000 ce
sent 4 1000
sent 5 1000 ce
sent 6 1000 ce
sent 7 1000
sent 8 1000
qdisc fq_codel 8001: root limit 10240p flows 1024 quantum 1514 target 5000000ns interval 100000000ns ecn drop_batch 1
 arrived 10p 10000b sent 8p 8000b refused 0p 0b dropped 0p 0b queued 2p 2000b marked 4p 4000b
",
    ),
    (
        "codel marks and drops",
        b"\
tc qdisc add dev eth0 root fq_codel
pkt 1000 hash 0 ecn 2
pkt 1000 hash 0 ecn 2
pkt 1000 hash 0 ecn 0
pkt 1000 hash 0 ecn 2
pkt 1000 hash 0 ecn 2
pkt 1000 hash 0 ecn 2
pkt 1000 hash 0 ecn 2
pkt 1000 hash 0 ecn 2
pkt 1000 hash 0 ecn 2
pkt 1000 hash 0 ecn 2
at 10000000
poll
at 110000000
poll
at 300000000
poll
reap
",
        DONE,
        b"\
sent 1 1000
sent 2 1000 ce
sent 4 1000 ce
lost 3 1000 CoDel
",
    ),
    (
        "codel marks off",
        b"\
tc qdisc add dev eth0 root fq_codel noecn
pkt 1000 hash 0 ecn 2
pkt 1000 hash 0 ecn 2
pkt 1000 hash 0 ecn 2
pkt 1000 hash 0 ecn 2
pkt 1000 hash 0 ecn 2
pkt 1000 hash 0 ecn 2
pkt 1000 hash 0 ecn 2
pkt 1000 hash 0 ecn 2
pkt 1000 hash 0 ecn 2
pkt 1000 hash 0 ecn 2
at 10000000
poll
at 110000000
poll
at 210000000
poll
at 280710677
poll
at 280710678
poll
at 338445704
poll 3
reap
",
        DONE,
        b"\
sent 1 1000
sent 3 1000
sent 5 1000
sent 6 1000
sent 8 1000
sent 9 1000
sent 10 1000
idle
lost 2 1000 CoDel
lost 4 1000 CoDel
lost 7 1000 CoDel
",
    ),
    (
        "codel with clock back",
        b"\
tc qdisc add dev eth0 root fq_codel
pkt 1000 hash 0
pkt 1000 hash 0
pkt 1000 hash 0
pkt 1000 hash 0
pkt 1000 hash 0
pkt 1000 hash 0
pkt 1000 hash 0
pkt 1000 hash 0
pkt 1000 hash 0
pkt 1000 hash 0
at 10000000
poll
at 110000000
poll
at 210000000
at 0
poll
at 280710677
at 0
poll
at 280710678
at 0
poll
at 338445704
at 0
poll 3
reap
",
        DONE,
        b"\
sent 1 1000
sent 3 1000
sent 4 1000
sent 5 1000
sent 6 1000
sent 7 1000
sent 8 1000
sent 9 1000
lost 2 1000 CoDel
",
    ),
    (
        "fat flow limit one",
        b"\
tc qdisc add dev eth0 root fq_codel limit 1
pkt 100 hash 0
pkt 200 hash 0
poll 2
reap
",
        DONE,
        b"\
sent 2 200
idle
lost 1 100 FatFlow
",
    ),
    (
        "fat flow tie",
        b"\
tc qdisc add dev eth0 root fq_codel limit 2
pkt 300 hash 7
pkt 100 hash 3
pkt 200 hash 3
poll 3
reap
",
        DONE,
        b"\
sent 1 300
sent 3 200
idle
lost 2 100 FatFlow
",
    ),
    (
        "new flow passes to old",
        b"\
tc qdisc add dev eth0 root fq_codel
pkt 1000 hash 0
pkt 1000 hash 0
pkt 1000 hash 0
pkt 100 hash 1
poll 4
",
        DONE,
        b"\
sent 1 1000
sent 2 1000
sent 4 100
sent 3 1000
",
    ),
];

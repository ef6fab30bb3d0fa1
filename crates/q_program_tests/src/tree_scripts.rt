//! Worked scripts of the other qdiscs and of lines that are not done, with their outcomes and reports.
use crate::worked_scripts::{DONE, REFUSED, Worked};

pub const TREE_SCRIPTS: &[Worked] = &[
    (
        "class and filter show",
        b"\
tc qdisc add dev eth0 root handle 1: drr
tc class add dev eth0 parent 1: classid 1:1 drr quantum 1000
tc class add dev eth0 parent 1: classid 1:2 drr quantum 1000
tc filter add dev eth0 parent 1: prio 1 flower src_port 1 classid 1:1
tc filter add dev eth0 parent 1: prio 2 flower src_port 2 classid 1:2
pkt 1500 src_port 1
pkt 500 src_port 2
pkt 500 src_port 2
pkt 500 src_port 2
tc class show dev eth0
tc filter show dev eth0
",
        DONE,
        b"\
class drr 1:1 quantum 1000 active deficit 1000
class drr 1:2 quantum 1000 active deficit 1000
filter parent 1: prio 1 protocol all src_port 1 classid 1:1
filter parent 1: prio 2 protocol all src_port 2 classid 1:2
",
    ),
    (
        "clock never goes back",
        b"\
tc qdisc add dev eth0 root tbf rate 8gbit burst 1000 limit 5000
pkt 1000
pkt 1000
poll
at 999
poll
at 5
poll
at 1000
poll
",
        DONE,
        b"\
sent 1 1000
later
later
sent 2 1000
",
    ),
    (
        "depth eight",
        b"\
tc qdisc add dev eth0 root handle 1: tbf rate 1mbit burst 2kb limit 9kb
tc qdisc add dev eth0 parent 1:1 handle 2: tbf rate 1mbit burst 2kb limit 9kb
tc qdisc add dev eth0 parent 2:1 handle 3: tbf rate 1mbit burst 2kb limit 9kb
tc qdisc add dev eth0 parent 3:1 handle 4: tbf rate 1mbit burst 2kb limit 9kb
tc qdisc add dev eth0 parent 4:1 handle 5: tbf rate 1mbit burst 2kb limit 9kb
tc qdisc add dev eth0 parent 5:1 handle 6: tbf rate 1mbit burst 2kb limit 9kb
tc qdisc add dev eth0 parent 6:1 handle 7: tbf rate 1mbit burst 2kb limit 9kb
tc qdisc add dev eth0 parent 7:1 handle 8: tbf rate 1mbit burst 2kb limit 9kb
tc qdisc add dev eth0 parent 7:1 handle 8: pfifo
",
        REFUSED,
        b"\
line 8: refused 18 TooDeep
",
    ),
    (
        "drop seen at both nodes",
        b"\
tc qdisc add dev eth0 root handle 1: drr
tc class add dev eth0 parent 1: classid 1:1 drr
tc qdisc add dev eth0 parent 1:1 handle 10: fq_codel
tc filter add dev eth0 parent 1: prio 1 flower classid 1:1
pkt 1000 hash 0
pkt 1000 hash 0
pkt 1000 hash 0
pkt 1000 hash 0
pkt 1000 hash 0
pkt 1000 hash 0
pkt 1000 hash 0
pkt 1000 hash 0
pkt 1000 hash 0
pkt 1000 hash 0
at 10000000
poll
at 110000000
poll
tc -s qdisc show dev eth0
",
        DONE,
        b"\
sent 1 1000
sent 3 1000
qdisc drr 1: root
 arrived 10p 10000b sent 2p 2000b refused 0p 0b dropped 1p 1000b queued 7p 7000b
qdisc fq_codel 10: parent 1:1 limit 10240p flows 1024 quantum 1514 target 5000000ns interval 100000000ns ecn drop_batch 1
 arrived 10p 10000b sent 2p 2000b refused 0p 0b dropped 1p 1000b queued 7p 7000b marked 0p 0b
",
    ),
    (
        "drr grants and no class",
        b"\
tc qdisc add dev eth0 root handle 1: drr
tc class add dev eth0 parent 1: classid 1:1 drr quantum 1000
tc class add dev eth0 parent 1: classid 1:2 drr quantum 1000
tc filter add dev eth0 parent 1: prio 1 flower src_port 1 classid 1:1
tc filter add dev eth0 parent 1: prio 2 flower src_port 2 classid 1:2
pkt 1500 src_port 1
pkt 500 src_port 2
pkt 500 src_port 2
pkt 500 src_port 2
poll 5
pkt 40
reap
",
        DONE,
        b"\
sent 2 500
sent 3 500
sent 1 1500
sent 4 500
idle
lost 5 40 NoClass
",
    ),
    (
        "drr over tbf",
        b"\
tc qdisc add dev eth0 root handle 1: drr
tc class add dev eth0 parent 1: classid 1:1 drr
tc class add dev eth0 parent 1: classid 1:2 drr
tc filter add dev eth0 parent 1: prio 1 flower src_port 1 classid 1:1
tc filter add dev eth0 parent 1: prio 2 flower src_port 2 classid 1:2
tc qdisc add dev eth0 parent 1:1 handle 10: tbf rate 8000bit burst 1000 limit 5000
pkt 1000 src_port 1
pkt 1000 src_port 1
pkt 500 src_port 2
poll 2
at 1000000000
poll 2
",
        DONE,
        b"\
sent 1 1000
later
sent 3 500
sent 2 1000
",
    ),
    (
        "drr shares two to one",
        b"\
tc qdisc add dev eth0 root handle 1: drr
tc class add dev eth0 parent 1: classid 1:1 drr quantum 1000
tc class add dev eth0 parent 1: classid 1:2 drr quantum 500
tc filter add dev eth0 parent 1: prio 1 flower src_port 1 classid 1:1
tc filter add dev eth0 parent 1: prio 2 flower src_port 2 classid 1:2
pkt 500 src_port 1
pkt 500 src_port 1
pkt 500 src_port 1
pkt 500 src_port 1
pkt 500 src_port 1
pkt 500 src_port 1
pkt 500 src_port 1
pkt 500 src_port 1
pkt 500 src_port 1
pkt 500 src_port 1
pkt 500 src_port 2
pkt 500 src_port 2
pkt 500 src_port 2
pkt 500 src_port 2
pkt 500 src_port 2
pkt 500 src_port 2
pkt 500 src_port 2
pkt 500 src_port 2
pkt 500 src_port 2
pkt 500 src_port 2
poll 6
tc class show dev eth0
tc class change dev eth0 classid 1:1 drr quantum 100
tc class show dev eth0
",
        DONE,
        b"\
sent 1 500
sent 2 500
sent 11 500
sent 3 500
sent 4 500
sent 12 500
class drr 1:1 quantum 1000 active deficit 1000
class drr 1:2 quantum 500 active deficit 0
class drr 1:1 quantum 100 active deficit 1000
class drr 1:2 quantum 500 active deficit 0
",
    ),
    ("empty script", b"", DONE, b""),
    (
        "frame into prio",
        b"\
tc qdisc add dev eth0 root prio
pkt 100
frame 60 4510003c00000000401100000a0000010a00000200350036
poll 2
",
        DONE,
        b"\
sent 2 60
sent 1 100
",
    ),
    (
        "hostile lines",
        b"\
tc qdisc add dev eth0 root pfifo limit 99999999999999999999
at 4611686018427387905
frame 60 4
pkt 0
tc qdisc add dev eth0 root handle ffff: pfifo
pkt \xff
tc qdisc add dev eth0 root tbf rate 0.0000000001mbit
tc qdisc add dev eth0 root tbf rate 0.5bit
tc qdisc add dev eth0 root fq_codel flows 65537
",
        REFUSED,
        b"\
line 1: fault 4 OutOfRange word 9
line 2: fault 4 OutOfRange word 2
line 3: fault 3 BadNumber word 3
line 4: fault 4 OutOfRange word 2
line 5: fault 4 OutOfRange word 8
line 6: fault 6 BadUtf8 word 2
line 7: fault 3 BadNumber word 9
line 8: fault 4 OutOfRange word 9
line 9: fault 4 OutOfRange word 9
",
    ),
    (
        "implicit root replaced",
        b"\
pkt 100
tc qdisc add dev eth0 root pfifo limit 2
poll
tc qdisc show dev eth0
tc qdisc add dev eth0 root pfifo
",
        REFUSED,
        b"\
idle
qdisc pfifo 8001: root limit 2p
line 5: refused 11 Exists
",
    ),
    (
        "limit zero",
        b"\
tc qdisc add dev eth0 root pfifo limit 0
pkt 100
poll
reap
totals
",
        DONE,
        b"\
idle
lost 1 100 OverLimit
device arrived 1p 100b sent 0p 0b refused 1p 100b dropped 0p 0b queued 0p 0b
",
    ),
    (
        "line faults",
        b"\
tc qdisc add dev eth0 root pfifo limit x
tc qdisc add dev eth0 root tbf rate 1mbit burst 10kb
tc qdisc add dev eth0 root prio bands 17
tc qdisc add dev eth0 root root pfifo
tc qdisc add dev eth0 root netem
",
        REFUSED,
        b"\
line 1: fault 3 BadNumber word 9
line 2: fault 2 Missing word 12
line 3: fault 4 OutOfRange word 9
line 4: fault 5 Twice word 7
line 5: fault 1 UnknownWord word 7
",
    ),
    (
        "nodes 257 refused",
        b"\
tc qdisc add dev eth0 root handle 1: prio bands 16 priomap 0 0 0 0 0 0 0 0 0 0 0 0 0 0 0 0
tc qdisc add dev eth0 parent 1:1 prio bands 16 priomap 0 0 0 0 0 0 0 0 0 0 0 0 0 0 0 0
tc qdisc add dev eth0 parent 1:2 prio bands 16 priomap 0 0 0 0 0 0 0 0 0 0 0 0 0 0 0 0
tc qdisc add dev eth0 parent 1:3 prio bands 16 priomap 0 0 0 0 0 0 0 0 0 0 0 0 0 0 0 0
tc qdisc add dev eth0 parent 1:4 prio bands 16 priomap 0 0 0 0 0 0 0 0 0 0 0 0 0 0 0 0
tc qdisc add dev eth0 parent 1:5 prio bands 16 priomap 0 0 0 0 0 0 0 0 0 0 0 0 0 0 0 0
tc qdisc add dev eth0 parent 1:6 prio bands 16 priomap 0 0 0 0 0 0 0 0 0 0 0 0 0 0 0 0
tc qdisc add dev eth0 parent 1:7 prio bands 16 priomap 0 0 0 0 0 0 0 0 0 0 0 0 0 0 0 0
tc qdisc add dev eth0 parent 1:8 prio bands 16 priomap 0 0 0 0 0 0 0 0 0 0 0 0 0 0 0 0
tc qdisc add dev eth0 parent 1:9 prio bands 16 priomap 0 0 0 0 0 0 0 0 0 0 0 0 0 0 0 0
tc qdisc add dev eth0 parent 1:a prio bands 16 priomap 0 0 0 0 0 0 0 0 0 0 0 0 0 0 0 0
tc qdisc add dev eth0 parent 1:b prio bands 16 priomap 0 0 0 0 0 0 0 0 0 0 0 0 0 0 0 0
tc qdisc add dev eth0 parent 1:c prio bands 16 priomap 0 0 0 0 0 0 0 0 0 0 0 0 0 0 0 0
tc qdisc add dev eth0 parent 1:d prio bands 16 priomap 0 0 0 0 0 0 0 0 0 0 0 0 0 0 0 0
tc qdisc add dev eth0 parent 1:e prio bands 16 priomap 0 0 0 0 0 0 0 0 0 0 0 0 0 0 0 0
tc qdisc add dev eth0 parent 1:f prio bands 16 priomap 0 0 0 0 0 0 0 0 0 0 0 0 0 0 0 0
",
        REFUSED,
        b"\
line 16: refused 19 TooMany
",
    ),
    (
        "prio over tbf",
        b"\
tc qdisc add dev eth0 root handle 1: prio
tc qdisc add dev eth0 parent 1:1 handle 10: tbf rate 8000bit burst 1000 limit 5000
pkt 1000 prio 6
pkt 1000 prio 6
pkt 500 prio 0
poll 3
",
        DONE,
        b"\
sent 1 1000
sent 3 500
later
",
    ),
    (
        "purge beneath drr",
        b"\
tc qdisc add dev eth0 root handle 1: drr
tc class add dev eth0 parent 1: classid 1:1 drr
tc qdisc add dev eth0 parent 1:1 handle 10: fq_codel
tc filter add dev eth0 parent 1: prio 1 flower classid 1:1
pkt 100
pkt 200
pkt 300
tc qdisc del dev eth0 parent 1:1
poll
reap
tc class show dev eth0
tc -s qdisc show dev eth0
",
        DONE,
        b"\
idle
lost 1 100 Purged
lost 2 200 Purged
lost 3 300 Purged
class drr 1:1 quantum 1514 asleep
qdisc drr 1: root
 arrived 3p 600b sent 0p 0b refused 0p 0b dropped 3p 600b queued 0p 0b
qdisc pfifo 0: parent 1:1 limit 1000p
 arrived 0p 0b sent 0p 0b refused 0p 0b dropped 0p 0b queued 0p 0b
",
    ),
    (
        "refusals",
        b"\
tc qdisc add dev eth0 root handle 1: prio
tc qdisc add dev eth0 root handle 2: pfifo
tc qdisc add dev eth0 parent 5:1 pfifo
tc qdisc add dev eth0 parent 1:4 pfifo
tc qdisc add dev eth0 parent 1:1 handle 1: pfifo
tc class add dev eth0 parent 1: classid 1:9 drr
tc qdisc change dev eth0 parent 1:2 pfifo limit 5
tc filter del dev eth0 parent 1: prio 3
",
        REFUSED,
        b"\
line 2: refused 11 Exists
line 3: refused 10 NoParent
line 4: refused 15 NoClass
line 5: refused 13 HandleTaken
line 6: refused 17 CannotChange
line 7: refused 12 NoQdisc
line 8: refused 21 NoFilter
",
    ),
    (
        "small recorder",
        b"\
tc qdisc add dev eth0 root handle 1: pfifo limit 2
pkt 100
pkt 200
pkt 300
poll 3
tc -s qdisc show dev eth0
",
        DONE,
        b"\
sent 1 100
sent 2 200
idle
qdisc pfifo 1: root limit 2p
 arrived 3p 600b sent 2p 300b refused 1p 300b dropped 0p 0b queued 0p 0b
",
    ),
    (
        "tbf to the nanosecond",
        b"\
tc qdisc add dev eth0 root tbf rate 8000bit burst 1500 limit 3000
pkt 1000
pkt 1000
poll 2
at 499999999
poll
at 500000000
poll
",
        DONE,
        b"\
sent 1 1000
later
later
sent 2 1000
",
    ),
    (
        "tbf too long and small burst",
        b"\
tc qdisc add dev eth0 root handle 1: tbf rate 8000bit burst 1000 limit 5000
pkt 1001
pkt 2000
reap
tc qdisc change dev eth0 root tbf rate 8000bit burst 900 limit 5000
tc qdisc change dev eth0 root tbf rate 8000bit burst 2000 limit 5000
tc -s qdisc show dev eth0
totals
",
        REFUSED,
        b"\
lost 1 1001 TooLong
lost 2 2000 TooLong
line 5: refused 20 SmallBurst
qdisc tbf 1: root rate 8000bit burst 2000b limit 5000b
 arrived 1p 1001b sent 0p 0b refused 1p 1001b dropped 0p 0b queued 0p 0b
qdisc bfifo 0: parent 1:1 limit 5000b
 arrived 0p 0b sent 0p 0b refused 0p 0b dropped 0p 0b queued 0p 0b
device arrived 2p 3001b sent 0p 0b refused 2p 3001b dropped 0p 0b queued 0p 0b
",
    ),
    (
        "tbf units and latency",
        b"\
tc qdisc add dev eth0 root tbf rate 0.5mbit burst 5kb latency 70ms
tc qdisc show dev eth0
",
        DONE,
        b"\
qdisc tbf 8001: root rate 500000bit burst 5120b limit 9495b
qdisc bfifo 0: parent 8001:1 limit 9495b
",
    ),
    (
        "too long then reap",
        b"\
pkt 2000
poll
reap
",
        DONE,
        b"\
idle
lost 1 2000 TooLong
",
    ),
    (
        "two of three packets",
        b"\
tc qdisc add dev eth0 root handle 1: pfifo limit 2
pkt 100
pkt 200
pkt 300
poll 3
tc -s qdisc show dev eth0
",
        DONE,
        b"\
sent 1 100
sent 2 200
idle
qdisc pfifo 1: root limit 2p
 arrived 3p 600b sent 2p 300b refused 1p 300b dropped 0p 0b queued 0p 0b
",
    ),
];

//! Worked scripts line by line on a device: what each line is refused with, that nothing changes by it, and what is recorded.
//!
//! `rt try --test --fail-alloc N` refuses the Nth allocation of a test, and these pass for every N: a line for which an allocation
//! failed has changed nothing that is seen, and the same line with memory is then done.
use crate::line_runner::LineRunner;
use crate::seen::adds_up;
use crate::streams::TWO_OF_THREE;
use q_device::{Device, Event, Place, Refusal};
use std::alloc::Global;
use std::process::Abort;
use std::test::Fail;

// A drr whose fq_codel is removed with its packets.
const REMOVAL: &[u8] = b"tc qdisc add dev eth0 root handle 1: drr
tc class add dev eth0 parent 1: classid 1:1 drr
tc qdisc add dev eth0 parent 1:1 handle 10: fq_codel
tc filter add dev eth0 parent 1: prio 1 flower classid 1:1
pkt 100
pkt 200
pkt 300
tc qdisc del dev eth0 parent 1:1
poll
reap
tc class show dev eth0
tc -s qdisc show dev eth0
";

// An implicit root that goes with its packet, and a second root.
const REPLACED: &[u8] = b"pkt 100
tc qdisc add dev eth0 root pfifo limit 2
poll
tc qdisc show dev eth0
tc qdisc add dev eth0 root pfifo
";

// Seven refusals.
const REFUSALS: &[u8] = b"tc qdisc add dev eth0 root handle 1: prio
tc qdisc add dev eth0 root handle 2: pfifo
tc qdisc add dev eth0 parent 5:1 pfifo
tc qdisc add dev eth0 parent 1:4 pfifo
tc qdisc add dev eth0 parent 1:1 handle 1: pfifo
tc class add dev eth0 parent 1: classid 1:9 drr
tc qdisc change dev eth0 parent 1:2 pfifo limit 5
tc filter del dev eth0 parent 1: prio 3
";

// A qdisc too deep, and one in its place.
const DEPTH: &[u8] = b"tc qdisc add dev eth0 root handle 1: tbf rate 1mbit burst 2kb limit 9kb
tc qdisc add dev eth0 parent 1:1 handle 2: tbf rate 1mbit burst 2kb limit 9kb
tc qdisc add dev eth0 parent 2:1 handle 3: tbf rate 1mbit burst 2kb limit 9kb
tc qdisc add dev eth0 parent 3:1 handle 4: tbf rate 1mbit burst 2kb limit 9kb
tc qdisc add dev eth0 parent 4:1 handle 5: tbf rate 1mbit burst 2kb limit 9kb
tc qdisc add dev eth0 parent 5:1 handle 6: tbf rate 1mbit burst 2kb limit 9kb
tc qdisc add dev eth0 parent 6:1 handle 7: tbf rate 1mbit burst 2kb limit 9kb
tc qdisc add dev eth0 parent 7:1 handle 8: tbf rate 1mbit burst 2kb limit 9kb
tc qdisc add dev eth0 parent 7:1 handle 8: pfifo
";

// Two hundred and forty-one nodes, and sixteen more.
const NODES: &[u8] =
    b"tc qdisc add dev eth0 root handle 1: prio bands 16 priomap 0 0 0 0 0 0 0 0 0 0 0 0 0 0 0 0
tc qdisc add dev eth0 parent 1:1 prio bands 16 priomap 0 0 0 0 0 0 0 0 0 0 0 0 0 0 0 0
tc qdisc add dev eth0 parent 1:2 prio bands 16 priomap 0 0 0 0 0 0 0 0 0 0 0 0 0 0 0 0
tc qdisc add dev eth0 parent 1:3 prio bands 16 priomap 0 0 0 0 0 0 0 0 0 0 0 0 0 0 0 0
tc qdisc add dev eth0 parent 1:4 prio bands 16 priomap 0 0 0 0 0 0 0 0 0 0 0 0 0 0 0 0
tc qdisc add dev eth0 parent 1:5 prio bands 16 priomap 0 0 0 0 0 0 0 0 0 0 0 0 0 0 0 0
tc qdisc add dev eth0 parent 1:6 prio bands 16 priomap 0 0 0 0 0 0 0 0 0 0 0 0 0 0 0 0
tc qdisc add dev eth0 parent 1:7 prio bands 16 priomap 0 0 0 0 0 0 0 0 0 0 0 0 0 0 0 0
tc qdisc add dev eth0 parent 1:8 prio bands 16 priomap 0 0 0 0 0 0 0 0 0 0 0 0 0 0 0 0
tc qdisc add dev eth0 parent 1:9 prio bands 16 priomap 0 0 0 0 0 0 0 0 0 0 0 0 0 0 0 0
tc qdisc add dev eth0 parent 1:a prio bands 16 priomap 0 0 0 0 0 0 0 0 0 0 0 0 0 0 0 0
tc qdisc add dev eth0 parent 1:b prio bands 16 priomap 0 0 0 0 0 0 0 0 0 0 0 0 0 0 0 0
tc qdisc add dev eth0 parent 1:c prio bands 16 priomap 0 0 0 0 0 0 0 0 0 0 0 0 0 0 0 0
tc qdisc add dev eth0 parent 1:d prio bands 16 priomap 0 0 0 0 0 0 0 0 0 0 0 0 0 0 0 0
tc qdisc add dev eth0 parent 1:e prio bands 16 priomap 0 0 0 0 0 0 0 0 0 0 0 0 0 0 0 0
tc qdisc add dev eth0 parent 1:f prio bands 16 priomap 0 0 0 0 0 0 0 0 0 0 0 0 0 0 0 0
";

// Commands that take memory while packets wait.
const WAITING: &[u8] = b"tc qdisc add dev eth0 root handle 1: drr
tc class add dev eth0 parent 1: classid 1:1 drr
tc filter add dev eth0 parent 1: prio 1 protocol ip flower ip_proto udp classid 1:1
tc qdisc add dev eth0 parent 1:1 handle 10: prio bands 2 priomap 0 0 0 0 0 0 0 0 0 0 0 0 0 0 0 1
pkt 100 ip_proto udp src_ip 192.0.2.1 dst_ip 192.0.2.2
pkt 200 ip_proto udp src_ip 192.0.2.1 dst_ip 192.0.2.2
tc class add dev eth0 parent 1: classid 1:2 drr quantum 500
tc filter add dev eth0 parent 1: prio 2 flower classid 1:2
tc qdisc change dev eth0 parent 1:1 handle 10: prio bands 5 priomap 0 0 0 0 0 0 0 0 0 0 0 0 0 0 0 4
tc qdisc add dev eth0 parent 1:2 handle 20: tbf rate 1mbit burst 2kb limit 9kb
tc qdisc add dev eth0 parent 10:2 handle 30: fq_codel flows 2
pkt 300
poll 2
tc qdisc add dev eth0 parent 10:5 handle 40: prio
";

/// Scripts, each with the lines that are refused.
const SCRIPTS: &[(&[u8], &[(usize, Refusal)])] = &[
    (REMOVAL, &[]),
    (REPLACED, &[(5, Refusal::Exists)]),
    (
        REFUSALS,
        &[
            (2, Refusal::Exists),
            (3, Refusal::NoParent),
            (4, Refusal::NoClass),
            (5, Refusal::HandleTaken),
            (6, Refusal::CannotChange),
            (7, Refusal::NoQdisc),
            (8, Refusal::NoFilter),
        ],
    ),
    (DEPTH, &[(8, Refusal::TooDeep)]),
    (NODES, &[(16, Refusal::TooMany)]),
    (WAITING, &[]),
];

/// Runs a script on a device of its own.
fn assert_lines(alloc: Global, script: &[u8], refusals: &[(usize, Refusal)]) -> Result<(), Fail> {
    let mut runner = LineRunner::new(alloc, 0)?;
    let answer = runner.run(alloc, script, refusals);
    runner.close();
    answer
}

#[test]
fn a_line_is_done_or_changes_nothing(rt: HostRuntime) -> Result<(), Fail> {
    for (script, refusals) in SCRIPTS {
        assert_lines(rt.alloc(), script, refusals)?;
    }
    Ok(())
}

#[test]
fn a_recorder_of_two_keeps_the_first_two_events(rt: HostRuntime) -> Result<(), Fail> {
    let mut runner = LineRunner::new(rt.alloc(), 2)?;
    let answer = records_two(&rt, rt.alloc(), &mut runner);
    runner.close();
    answer
}

fn records_two(rt: &impl Abort, alloc: Global, runner: &mut LineRunner) -> Result<(), Fail> {
    runner.run(alloc, TWO_OF_THREE, &[])?;
    assert_records_two(rt, &runner.device)
}

fn assert_records_two(rt: &impl Abort, device: &Device) -> Result<(), Fail> {
    // A command, three arrivals and three polls.
    assert_eq!(rt; device.events(), 7);
    let [Event::Command(..), Event::Arrive(first, _)] = device.recorded() else {
        return Err(Fail::from("not the command and the first arrival"));
    };
    assert_eq!(rt; (first.number, first.len), (1, 100));
    let root = device.stats(Place::Root).ok_or("a root")?;
    assert!(rt; adds_up(&root) && adds_up(&device.totals()));
    Ok(())
}

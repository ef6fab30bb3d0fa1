//! Worked scripts, whose reports follow from the rules, turn by turn. Each is played through the call that a program makes.
use crate::flow_scripts::FLOW_SCRIPTS;
use crate::imports::written;
use crate::tree_scripts::TREE_SCRIPTS;
use q_options::{Outcome, RunSettings};
use std::alloc::{AllocError, Global};
use std::test::Fail;

/// A name, a script, its outcome and its report.
pub type Worked = (&'static str, &'static [u8], Outcome, &'static [u8]);

/// Each line is done.
pub const DONE: Outcome = Outcome::Clean;

/// A line has a fault or is refused.
pub const REFUSED: Outcome = Outcome::Refused;

const FILTER: &[u8] = b"tc filter add dev eth0 parent 1: prio 1 flower classid 1:1\n";

#[test]
fn worked_scripts_give_their_reports(rt: HostRuntime) -> Result<(), Fail> {
    let alloc = rt.alloc();
    // What is recorded for a replay changes no report.
    let few = RunSettings::new(1514, 1000, 0, 2).ok_or("settings in range")?;
    for settings in [RunSettings::defaults(), few] {
        for scripts in [TREE_SCRIPTS, FLOW_SCRIPTS] {
            assert_eq!(rt; first_wrong(alloc, scripts, settings), None);
        }
        assert!(rt; refuses_the_filter_too_many(alloc, settings)?);
    }
    Ok(())
}

// The first script that has another outcome or another report.
fn first_wrong(alloc: Global, scripts: &[Worked], settings: RunSettings) -> Option<&'static str> {
    for (name, script, outcome, report) in scripts {
        if !gives(alloc, script, settings, *outcome, report) {
            return Some(*name);
        }
    }
    None
}

// A node has 256 filters at most.
fn refuses_the_filter_too_many(alloc: Global, settings: RunSettings) -> Result<bool, AllocError> {
    let mut script = Vec::new(alloc);
    script.extend_from_slice(b"tc qdisc add dev eth0 root handle 1: prio\n")?;
    for _filter in 0..257 {
        script.extend_from_slice(FILTER)?;
    }
    let report = b"line 258: refused 19 TooMany\n";
    Ok(gives(alloc, &script, settings, REFUSED, report))
}

// Whether a script comes to this outcome with this report.
fn gives(
    alloc: Global,
    script: &[u8],
    settings: RunSettings,
    outcome: Outcome,
    report: &[u8],
) -> bool {
    let (wrote, told) = written(alloc, script, settings);
    told == Ok(outcome) && wrote.as_slice() == report
}

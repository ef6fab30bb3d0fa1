//! A drive whose writer fails.
use crate::streams::Narrow;
use q_drive::{DriveSettings, run_drive};
use q_script::{Outcome, RunFault, RunSettings};
use std::alloc::Global;
use std::io::{ErrorKind, Write};
use std::process::Abort;
use std::sync::Wait;
use std::test::Fail;
use std::thread::Threads;

/// A device with defaults, and one sender with two packets of 7 bytes and a ring of one place. The qdiscs are shown at the end.
fn settings() -> Result<DriveSettings, Fail> {
    let device = RunSettings::defaults();
    Ok(DriveSettings::new(device, 1, 2, 7, 1, false, true).ok_or("settings in range")?)
}

/// A drive by standard input. It promises nothing: what a drive promises is long, and no test needs it.
fn drive<R: Threads + Wait + Sync, W: Write>(
    rt: &R,
    alloc: Global,
    input: &[u8],
    writer: &mut W,
    settings: DriveSettings,
) -> Result<Outcome, RunFault> {
    let mut reader = input;
    run_drive(rt, alloc, &mut reader, writer, settings)
}

/// A drive in which a line is not done, and all that is written.
fn assert_refused<R: Abort + Threads + Wait + Sync>(
    rt: &R,
    alloc: Global,
    input: &[u8],
    settings: DriveSettings,
    report: &str,
) {
    let mut written = Vec::new(alloc);
    let told = drive(rt, alloc, input, &mut written, settings);
    assert_eq!(rt; told, Ok(Outcome::Refused));
    assert_eq!(rt; written.as_slice(), report.as_bytes());
}

#[test]
fn writers_that_fail_at_each_byte(rt: HostRuntime) -> Result<(), Fail> {
    let alloc = rt.alloc();
    let input = b"tc qdisc add dev eth0 root handle 1: pfifo limit 0\npoll\n";
    // A limit of 0 packets refuses all, so that the counters are known.
    let report =
        "line 2: fault 1 UnknownWord word 1\nsettled 2p 14b\narrived 2p 14b\ngiven up 0\ndevice arrived 2p 14b sent 0p 0b refused 2p 14b dropped 0p 0b queued 0p 0b\nqdisc pfifo 1: root limit 0p\n arrived 2p 14b sent 0p 0b refused 2p 14b dropped 0p 0b queued 0p 0b\n";
    let asked = settings()?;
    for room in 0..report.len() {
        let mut writer = Narrow::new(alloc, room, true);
        let told = drive(&rt, alloc, input, &mut writer, asked);
        assert_eq!(rt; told, Err(RunFault::Write(ErrorKind::BrokenPipe)), "{room}");
        assert_eq!(rt; writer.written.as_slice(), &report.as_bytes()[..room]);
    }
    assert_refused(&rt, alloc, input, asked, report);
    Ok(())
}

//! What a program imports that runs scripts, and one that embeds a device: one crate each.
use crate::shows::close;
use q_device::{Device, Ecn, FlowKey, Moment, Packet, Polled, Settings};
use q_options::{Options, Outcome, RunFault, RunSettings, options, run};
use std::alloc::Global;
use std::process::Abort;
use std::test::Fail;

/// Runs a script; what is written, and how it went. It promises nothing of either.
pub fn written(
    alloc: Global,
    script: &[u8],
    settings: RunSettings,
) -> (Vec<u8>, Result<Outcome, RunFault>) {
    let mut reader = script;
    let mut report = Vec::new(alloc);
    let told = run(alloc, &mut reader, &mut report, settings);
    (report, told)
}

#[test]
fn a_script_by_one_crate(rt: HostRuntime) -> Result<(), Fail> {
    let settings = match options(rt.alloc(), &["qtree", "play"])? {
        Options::Play(play) => play.settings,
        Options::Drive(_) => RunSettings::defaults(),
    };
    let (report, outcome) = written(rt.alloc(), b"pkt 100\npoll\n", settings);
    assert_eq!(rt; outcome, Ok(Outcome::Clean));
    assert_eq!(rt; report.as_slice(), "sent 1 100\n".as_bytes());
    Ok(())
}

/// A packet arrives at an idle device, and is what the next poll gives.
fn assert_passes(rt: &impl Abort, device: &mut Device, packet: Packet) {
    assert!(rt; device.arrive(packet, Moment::zero()).is_ok());
    assert_eq!(rt; device.poll(Moment::zero()), Polled::Packet(packet));
}

#[test]
fn a_device_by_one_crate(rt: HostRuntime) -> Result<(), Fail> {
    let settings = Settings::new(1514, 1000, 0).ok_or("settings")?;
    let packet = Packet::new(0, 1, 0, 100, FlowKey::zero(), 0, 0, Ecn::NotEct).ok_or("packet")?;
    let mut device = Device::open(rt.alloc(), settings)?;
    assert_passes(&rt, &mut device, packet);
    close(device);
    Ok(())
}

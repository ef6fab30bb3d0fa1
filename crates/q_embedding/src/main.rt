//! A device in a program with one thread, as docs/EMBEDDING.md shows it.
#![tactic(auto)]

use anyhow::{Context, Result};
use q_device::{Device, FlowHash, Moment, OneAtATime, Packet, Polled, Settings, read_head};
use q_line::{Line, read_line};

const LINE: &[u8] = b"tc qdisc add dev wan root handle 1: tbf rate 8mbit burst 2000 latency 50ms";

fn main(rt: HostRuntime) -> Result<()> {
    let settings = Settings::new(1514, 1000, 0).context("a setting is out of its range")?;
    let mut device = Device::open(rt.alloc(), settings)?;
    run(&rt, &mut device)
}

// This borrows the device, since a function that owns it is proved anew for each `?` that would drop it.
fn run(rt: &HostRuntime, device: &mut Device) -> Result<()> {
    add_qdisc(device)?;
    for buf in 0..3u32 {
        arrive(device, buf)?;
    }
    send(rt, device)
}

fn add_qdisc(device: &mut Device) -> Result<()> {
    if let Ok(Line::Tc(command)) = read_line(LINE) {
        device.command(command, Moment::zero())?;
    }
    Ok(())
}

fn arrive(device: &mut Device, buf: u32) -> Result<()> {
    let head = read_head(&[0x45, 0]);
    let hash = OneAtATime { seed: 0 }.hash(&head.key);
    let packet = Packet::new(0, 0, buf, 1000, head.key, hash, head.prio, head.ecn);
    let packet = packet.context("a field is out of its range")?;
    let arrived = device.arrive(packet, Moment::zero());
    arrived.map_err(|(_, error)| error)?;
    Ok(())
}

fn send(rt: &HostRuntime, device: &mut Device) -> Result<()> {
    for _ in 0..10 {
        let Some(now) = device.ready_at() else { break };
        if let Polled::Packet(packet) = device.poll(now) {
            println!(rt; "{} at {}", packet.buf, now.ns())?;
        }
    }
    Ok(())
}

//! A device with two senders, each on a thread of its own, as docs/EMBEDDING.md shows it.
#![tactic(auto)]

use anyhow::{Context, Result};
use q_device::{Moment, Packet, Row, Settings, read_head};
use q_ports::{OpenedPorts, Port, PortCounts, PortTask, run_with_ports};
use std::alloc::Global;
use std::sync::ledger::Ledger;
use std::sync::{Mutex, Wait};
use std::thread;
use std::thread::Threads;

/// Two senders place three packets each, which a turn of the drain sends; a gauge reads what the device counted.
#[derive(Drop)]
struct TwoSenders {
    packet: Packet,
}

impl PortTask for TwoSenders {
    type Output = Option<Row>;

    fn run<P: Ledger + Send + Sync, B: Ledger + Send + Sync, R: Threads + Wait + Sync>(
        self,
        rt: &R,
        alloc: Global,
        _settings: Settings,
        _counts: PortCounts,
        opened: OpenedPorts<P, B>,
    ) -> Option<Row> {
        let OpenedPorts {
            booked,
            mut drain,
            mut ports,
            mut gauges,
        } = opened;
        let lock = Mutex::new(booked);
        if let (Some(second), Some(first)) = (ports.pop(), ports.pop()) {
            let packet = self.packet;
            thread::join(
                rt,
                move || place(first, packet),
                move || place(second, packet),
            );
        }
        let _turn = drain.turn(rt, alloc, &lock, Moment::zero(), 64);
        let row = match gauges.pop() {
            Some(mut gauge) => gauge.read(),
            None => None,
        };
        drain.end(rt);
        row
    }
}

// Offers a packet three times.
fn place(port: Port, packet: Packet) {
    let mut port = port;
    for _ in 0..3 {
        let _ = port.offer(packet);
    }
}

fn main(rt: HostRuntime) -> Result<()> {
    let settings = Settings::new(1514, 1000, 0).context("a setting is out of its range")?;
    let counts = PortCounts::new(2, 64, 1).context("a number is out of its range")?;
    let head = read_head(&[0x45, 0]);
    let packet = Packet::new(0, 0, 0, 1000, head.key, 0, head.prio, head.ecn);
    let packet = packet.context("a field is out of its range")?;
    let row = run_with_ports(&rt, rt.alloc(), settings, counts, TwoSenders { packet })?;
    let row = row.context("no row was read")?;
    println!(rt;
        "{} arrived, {} sent",
        row.arrived.packets, row.sent.packets
    )?;
    Ok(())
}

ghost use Rattle.std.specs.Prelude.{◌≡◌, ◌+◌, ◌*◌, [], length, map, replicate, All, IfSome};
ghost use Rattle.q_device.specs.DeviceLaws.{IsLawfulDevice, IsReplayed, IsReplayOfRecorded};
ghost use Rattle.q_drive.specs.Drained.{IsDrainedIf};
ghost use Rattle.q_drive.specs.Driven.{HasDriven, IsPaced};
ghost use Rattle.q_drive.specs.Loads.{AreLoads};
ghost use Rattle.q_model.specs.Tally.{no_totals};
ghost use Rattle.q_ports.specs.Driven.{packets_of};
ghost use Rattle.q_ports.specs.Held.{held};
ghost use Rattle.q_ports.specs.Placed.{placed_by, ring_of_port, HasRing};
ghost use Rattle.q_ports.specs.Rings.{ring_id};

use crate::draining::{Drained, drain_if};
use crate::loads::loads;
use crate::pace::{Pace, drive_pace};
use crate::settings::DriveSettings;
use q_device::laws::{device_is_lawful, device_is_replayed};
use q_device::{Device, Totals};
use q_packet::Packet;
use q_ports::laws::{booked_is_replayed, settled};
use q_ports::{Booked, Drain, Gate, Port, Seat, Settled, Unsettled, drive, open_ports};
use std::alloc::Global;
use std::marker::Brand;
use std::sync::ledger::{Blank, Ledger};
use std::sync::{Mutex, Wait};
use std::thread::Threads;

/// How many parts the right to let packets in has.
const PARTS: u64 = 65;

/// The result of the senders: the settled share, how many packets of the loads no try placed, what was drained if that was asked
/// for, and the device.
#[derive(Drop)]
pub struct Driven {
    pub settled: Totals,
    pub given_up: u64,
    pub drained: Option<Drained>,
    pub device: Device,
}

/// Lets the senders run over a device at which nothing has arrived. `None` where an allocation fails, or a thread could not be
/// started.
pub fn drive_device<R: Threads + Wait + Sync>(
    rt: &R,
    alloc: Global,
    device: Device,
    settings: &DriveSettings,
) -> Option<Driven>
    requires { device.device.tree.top.arrived ≡ no_totals }
    ensures { IfSome result (HasDriven settings.now) }
{
    let (packets, bytes) = (Blank::new(PARTS), Blank::new(PARTS));
    drive_booked::<Brand, Brand, R>(rt, alloc, device, settings, packets, bytes)
}

/// The same, with the ledgers of the book in hand.
fn drive_booked<P: Ledger + Send + Sync, B: Ledger + Send + Sync, R: Threads + Wait + Sync>(
    rt: &R,
    alloc: Global,
    device: Device,
    settings: &DriveSettings,
    packets: Blank,
    bytes: Blank,
) -> Option<Driven>
    requires nothing { device.device.tree.top.arrived ≡ no_totals }
    requires packets { (packets.name ≡ P.name) × (packets.parts ≡ P.parts) × (P.parts ≡ 65) }
    requires bytes { (bytes.name ≡ B.name) × (bytes.parts ≡ B.parts) × (B.parts ≡ 65) }
    ensures { IfSome result (HasDriven settings.now) }
{
    let (booked, seat) = Booked::<P, B>::new(device, packets, bytes);
    let lock = Mutex::new(booked);
    let driven = drive_seat(rt, alloc, &lock, seat, settings)?;
    let booked = lock.into_inner();
    Some(ended(
        booked,
        driven.settled,
        driven.given_up,
        settings.until_idle(),
    ))
}

/// Lets the senders run over the device behind this lock. It is lent, so that no way out has to drop the device.
fn drive_seat<P: Ledger + Send + Sync, B: Ledger + Send + Sync, R: Threads + Wait + Sync>(
    rt: &R,
    alloc: Global,
    lock: &Mutex<Booked<P, B>>,
    seat: Seat<P, B>,
    settings: &DriveSettings,
) -> Option<q_ports::Driven<P, B>>
    requires parts { (P.parts ≡ 65) × (B.parts ≡ 65) }
    requires seat { seat ≡ held 65 0 0 }
    ensures all { IfSome result (λ d. d.settled.packets + d.given_up ≡ settings.now.senders * settings.now.count) }
    ensures bytes { IfSome result (λ d. d.settled.bytes ≡ d.settled.packets * settings.now.len) }
    ensures paced { IfSome result (λ d. IsPaced settings.now d.settled d.given_up) }
{
    match loads(alloc, settings) {
        Ok(loads) => drive_loads(rt, alloc, lock, seat, loads, settings),
        Err(_) => None,
    }
}

/// A gate at which no sender waits.
pub struct FreeGate;

impl Gate for FreeGate {
    fn before_offer(&self, _port: u32, _nth: u64) {}

    fn after_offer(&self, _port: u32, _nth: u64) {}
}

/// The same, with the loads of the senders in hand.
fn drive_loads<P: Ledger + Send + Sync, B: Ledger + Send + Sync, R: Threads + Wait + Sync>(
    rt: &R,
    alloc: Global,
    lock: &Mutex<Booked<P, B>>,
    seat: Seat<P, B>,
    loads: Vec<Vec<Packet>>,
    settings: &DriveSettings,
) -> Option<q_ports::Driven<P, B>>
    requires parts { (P.parts ≡ 65) × (B.parts ≡ 65) }
    requires seat { seat ≡ held 65 0 0 }
    requires loads { AreLoads settings.now settings.now.senders (map packets_of loads.items) }
    ensures all { IfSome result (λ d. d.settled.packets + d.given_up ≡ settings.now.senders * settings.now.count) }
    ensures bytes { IfSome result (λ d. d.settled.bytes ≡ d.settled.packets * settings.now.len) }
    ensures paced { IfSome result (λ d. IsPaced settings.now d.settled d.given_up) }
{
    settings.ranges();
    let Some((drain, ports)) = open_drain(rt, alloc, seat, settings) else {
        return None;
    };
    let Pace { start, step, tries } = drive_pace();
    match drive(
        rt, alloc, lock, drain, ports, loads, &FreeGate, start, step, tries,
    ) {
        Ok(driven) => Some(driven),
        Err(
            Unsettled {
                drain,
                ports: _ports,
            },
        ) => {
            drain.end(rt);
            None
        }
    }
}

/// The drain, and the ports that were asked for: one for each sender, each with a ring of so many places.
fn open_drain<P: Ledger, B: Ledger, R: Wait>(
    rt: &R,
    alloc: Global,
    seat: Seat<P, B>,
    settings: &DriveSettings,
) -> Option<(Drain<P, B>, Vec<Port>)>
    requires { seat ≡ held 65 0 0 }
    ensures ports { IfSome result (λ r. map ring_of_port r.1.items ≡ map ring_id r.0.rings) }
    ensures count { IfSome result (λ r. length r.1.items ≡ settings.now.senders) }
    ensures lengths { IfSome result (λ r. All (HasRing settings.now.ring) r.1.items) }
    ensures placed { IfSome result (λ r. map placed_by r.1.items ≡ replicate settings.now.senders []) }
{
    settings.ranges();
    match open_ports(rt, alloc, seat, settings.senders(), settings.ring(), 0) {
        Ok((drain, ports, _gauges)) => Some((drain, ports)),
        Err(_) => None,
    }
}

/// What a drive came to that has settled: the share is what has arrived at the device, which is drained where that is asked for.
fn ended<P: Ledger, B: Ledger>(
    booked: Booked<P, B>,
    share: Settled<P, B>,
    given_up: u64,
    until_idle: bool,
) -> Driven
    requires { (P.parts ≡ 65) × (B.parts ≡ 65) }
    ensures settled { result.settled ≡ share }
    ensures given_up { result.given_up ≡ given_up }
    ensures arrived { result.device.device.tree.top.arrived ≡ share }
    ensures left { booked.device.tree.top.arrived ≡ share }
    ensures left_replayed { IsReplayed booked }
    ensures drained { IsDrainedIf until_idle booked result.device result.drained }
    ensures lawful { IsLawfulDevice result.device }
    ensures replayed { IsReplayed result.device }
    ensures recorded { IsReplayOfRecorded result.device }
{
    let (mut booked, mut share) = (booked, share);
    let settled = settled(&mut booked, &mut share);
    booked_is_replayed(&booked);
    let mut device = booked.into_device();
    let drained = drain_if(until_idle, &mut device);
    device_is_lawful(&device);
    device_is_replayed(&device);
    Driven {
        settled,
        given_up,
        drained,
        device,
    }
}

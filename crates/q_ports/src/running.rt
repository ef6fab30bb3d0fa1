ghost use Rattle.std.specs.Prelude.{◌≡◌, IfOk};
ghost use Rattle.q_device.specs.device.DeviceSeen.{opened};

use crate::booked::Booked;
use crate::open::open_ports;
use crate::opened_ports::OpenedPorts;
use crate::port_counts::PortCounts;
use crate::port_task::PortTask;
use q_device::{Device, Settings};
use std::alloc::{AllocError, Global};
use std::marker::Brand;
use std::sync::Wait;
use std::sync::ledger::{Blank, Ledger};
use std::thread::Threads;

/// How many parts the right to let packets in has.
const PARTS: u64 = 65;

/// Opens a device with its book, and its drain, ports and gauges, and runs a task with them. May wait for gauges, and for whatever the task waits
/// for.
///
/// `settings` are those of the device, and `counts` says how many ports and gauges there are, and how long the rings are. Returns what the task
/// returns.
///
/// # Errors
///
/// Returns `AllocError` if an allocation fails before the task runs.
pub fn run_with_ports<T: PortTask + Drop, R: Threads + Wait + Sync>(
    rt: &R,
    alloc: Global,
    settings: Settings,
    counts: PortCounts,
    task: T,
) -> Result<T::Output, AllocError>
    ensures { IfOk result (λ output. T.gives task settings counts output) }
{
    let device = Device::open(alloc, settings)?;
    let (packets, bytes) = (Blank::new(PARTS), Blank::new(PARTS));
    run_booked::<Brand, Brand, T, R>(rt, alloc, settings, counts, task, device, packets, bytes)
}

// The same, with the ledgers of the book in hand.
fn run_booked<
    P: Ledger + Send + Sync,
    B: Ledger + Send + Sync,
    T: PortTask + Drop,
    R: Threads + Wait + Sync,
>(
    rt: &R,
    alloc: Global,
    settings: Settings,
    counts: PortCounts,
    task: T,
    device: Device,
    packets: Blank,
    bytes: Blank,
) -> Result<T::Output, AllocError>
    requires device { device ≡ opened settings device.memory }
    requires packets { (packets.name ≡ P.name) × (packets.parts ≡ P.parts) × (P.parts ≡ 65) }
    requires bytes { (bytes.name ≡ B.name) × (bytes.parts ≡ B.parts) × (B.parts ≡ 65) }
    ensures { IfOk result (λ output. T.gives task settings counts output) }
{
    let (booked, seat) = Booked::<P, B>::new(device, packets, bytes);
    match open_ports(rt, alloc, seat, counts.ports, counts.ring, counts.gauges) {
        Ok((drain, ports, gauges)) => {
            let opened = OpenedPorts {
                booked,
                drain,
                ports,
                gauges,
            };
            Ok(task.run(rt, alloc, settings, counts, opened))
        }
        Err(_) => Err(AllocError),
    }
}

use crate::opened_ports::OpenedPorts;
use crate::port_counts::PortCounts;
use q_device::Settings;
use std::alloc::Global;
use std::sync::Wait;
use std::sync::ledger::Ledger;
use std::thread::Threads;

/// What a program does with a device and its ports, drain and gauges, for [`run_with_ports`](crate::run_with_ports).
pub trait PortTask: Sized {
    /// What the task returns.
    type Output;

    /// What holds of the output, for a device with these settings and these numbers of ports, places and gauges. A task says here what it promises;
    /// by default that is nothing.
    ghost gives: { Self → DeviceSettings → PortCounts → Self.Output → Type 0 } = { λ _ _ _ _. ⊤ };

    /// Runs the task. The device is new, no port has placed anything, and nothing was received. `P` and `B` are the ledgers of the device's book.
    fn run<P: Ledger + Send + Sync, B: Ledger + Send + Sync, R: Threads + Wait + Sync>(
        self,
        rt: &R,
        alloc: Global,
        settings: Settings,
        counts: PortCounts,
        opened: OpenedPorts<P, B>,
    ) -> Self::Output
        requires parts { (P.parts ≡ 65) × (B.parts ≡ 65) }
        requires opened { AreOpened settings counts opened.booked opened.drain opened.ports.items opened.gauges.items }
        ensures { Self.gives self settings counts result };

    ghost use Rattle.std.specs.Prelude.{◌≡◌, ⊤};
    ghost use Rattle.q_model.specs.Settings.{DeviceSettings};
    ghost use Rattle.q_ports.specs.declared.port_counts.PortCounts.{PortCounts};
    ghost use Rattle.q_ports.specs.Opened.{AreOpened};
}

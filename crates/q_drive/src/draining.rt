ghost use Rattle.std.specs.Prelude.{◌≡◌, ◌<◌, Some};
ghost use Rattle.q_device.specs.Counters.{HasNotFallen};
ghost use Rattle.q_device.specs.Waiting.{ready};
ghost use Rattle.q_drive.specs.Drained.{polled, polls_left, IsDrained, IsDrainedIf};

use q_device::laws::{device_tells_its_losses, ready_passes_empty_polls};
use q_device::{Device, Moment, Totals};

/// What polls sent until nothing went any more, and the device's clock then.
#[derive(Clone, Copy)]
pub struct Drained {
    pub amount: Totals,
    pub at: Moment,
}

/// Drains a device where that is asked for.
pub fn drain_if(until_idle: bool, device: &mut Device) -> Option<Drained>
    ensures drained { IsDrainedIf until_idle device.old device.new result }
    ensures arrived { device.new.device.tree.top.arrived ≡ device.old.device.tree.top.arrived }
{
    if until_idle {
        Some(drain_until_idle(device))
    } else {
        None
    }
}

/// Polls a device at each time from which it is ready, until nothing is queued, or until waiting alone would never let a packet go.
pub fn drain_until_idle(device: &mut Device) -> Drained
    ensures drained { IsDrained device.old device.new result }
    ensures arrived { device.new.device.tree.top.arrived ≡ device.old.device.tree.top.arrived }
{
    let before = device.totals().sent;
    while let Some(at) = device.ready_at() {
        poll_when_ready(device, at);
    }
    let after = device.totals().sent;
    let amount = Totals {
        packets: after.packets - before.packets,
        bytes: after.bytes - before.bytes,
    };
    Drained {
        amount,
        at: device.clock(),
    }
}

/// Polls a device at the time from which it is ready. The poll gives a packet, or the device is ready later than that.
fn poll_when_ready(device: &mut Device, at: Moment)
    requires { ready device.old.device ≡ Some at }
    ensures polled { device.new ≡ polled at device.old }
    ensures arrived { device.new.device.tree.top.arrived ≡ device.old.device.tree.top.arrived }
    ensures counters { HasNotFallen device.old.device.tree.top device.new.device.tree.top }
    ensures fewer { polls_left device.new < polls_left device.old }
{
    device_tells_its_losses(device);
    ready_passes_empty_polls(device);
    // A time is at most 2^62 nanoseconds.
    let _ = at.ns();
    let _ = device.poll(at);
    device_tells_its_losses(device);
}

//! What is true of the memory of every device: when it has room for a packet, so that the arrival takes none.
ghost use Rattle.std.specs.Prelude.{◌≡◌, max};
ghost use Rattle.q_device.specs.device.DeviceSeen.{HasNoFewerPlaces, polled_memory};
ghost use Rattle.q_laws.specs.Memory.{RoomIsThereAgain};

use q_device::Device;
use q_device::laws::device_tells_its_losses;
use q_packet::Moment;
use q_tree::laws::take_keeps_places;

/// Where a device had room for a packet, it has room for another one that goes to the same queue as soon as no more packets are in that queue than
/// were there then, and at least as many have been sent since as have arrived: as after an arrival that was kept and a poll that gave a packet of
/// that queue. So the next arrival takes no memory, and does not fail (`succeeds` of `Device::arrive` of `q_device`).
///
/// `before` and `after` are states of one device. No queue has lost a place between them, nor has the lost list: an arrival says so (`queues` and
/// `places`), as a poll does ([`polls_keep_places`]), and a reap leaves the memory as it is. A command may take a queue away, and a new queue has
/// no places. The device must still be able to count the packet.
pub fn room_is_there_again(before: &Device, after: &Device)
    ensures { RoomIsThereAgain before.now after.now }
{
    device_tells_its_losses(before);
    device_tells_its_losses(after);
}

/// A poll takes no place from any queue, whatever it gives, loses or marks: what it leaves of the memory is what `Device::poll` of `q_device` says
/// (`memory`). A time before the device's clock counts as the clock.
pub fn polls_keep_places(device: &Device, now: Moment)
    ensures { HasNoFewerPlaces device.now.memory (polled_memory (max device.now.device.clock now) device.now.memory) }
{
    let at = later(device.clock(), now);
    take_keeps_places(device.tree(), at);
}

// The later of two times.
fn later(clock: Moment, now: Moment) -> Moment
    ensures { result ≡ max clock now }
{
    clock.max(now)
}

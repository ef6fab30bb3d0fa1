ghost use Rattle.q_device.specs.Buffers.{NoMoreIsHeld};

use q_model::Settings;

/// As long as no command is accepted, no more packets are queued in a device than [`crate::Device::most_packets`] answered at any time before, or
/// would have answered, and that answer never grows. So a program has enough buffers if it has as many as that, one for the packet that arrives,
/// and those of the losses that it has not reaped. A refused command changes nothing.
///
/// Holds for all settings, and for every list of events whose fields are in range, whatever commands came before.
pub fn no_more_is_held(settings: Settings)
    ensures { NoMoreIsHeld settings }
{
    settings.ranges();
}

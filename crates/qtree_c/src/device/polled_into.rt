//! What is reported to C of a packet that the device gives.
ghost use Rattle.std.specs.Prelude.{◌≡◌, unwrap_or};
ghost use Rattle.q_device.specs.device.Giving.{polled_in};
ghost use Rattle.q_device.specs.device.Polls.{after_poll, given_at};
ghost use Rattle.q_device.specs.Events.{reply_to};
ghost use Rattle.q_model.specs.Step.{counts_at};
ghost use Rattle.q_model.specs.declared.event.Event.TheVariants as event;
ghost use Rattle.q_model.specs.declared.reply.Reply.TheVariants as reply;
ghost use Rattle.q_packet.specs.Descriptor.{Descriptor};
ghost use Rattle.q_packet.specs.Stored.{stored_of};
ghost use Rattle.qtree_c.specs.abi.Structs.{sent_of, told_or};

use crate::abi::c_sent::CSent;
use q_device::{Device, Given};
use q_packet::{KeptPacket, Moment, SOME_STORED, StoredPacket};

/// A struct of C into which a packet is written that the device gives.
pub trait PolledInto: Copy {
    /// What it says of a packet.
    ghost told: { Descriptor → Self };

    /// The device is polled, and what is said of the packet that it gives is written into this place, which stays as it is if there is
    /// none.
    fn poll(device: &mut Device, now: Moment, place: &mut Self) -> Given
        ensures polled { device.new ≡ after_poll now device.old }
        ensures packet { place.new ≡ told_or told place.old (given_at now device.old) }
        ensures reply { (other : Descriptor) → reply.Polled (polled_in (unwrap_or (given_at now device.old) other) result) ≡ reply_to (event.Poll now) device.old }
        ensures clock { device.new.device.clock ≡ counts_at now device.old.device };
}

impl PolledInto for StoredPacket {
    ghost told = { stored_of };

    #[inline(always)]
    fn poll(device: &mut Device, now: Moment, place: &mut StoredPacket) -> Given {
        device.poll_stored(now, place)
    }
}

impl PolledInto for CSent {
    ghost told = { sent_of };

    #[inline(always)]
    fn poll(device: &mut Device, now: Moment, place: &mut CSent) -> Given {
        let mut packet = SOME_STORED;
        match StoredPacket::poll(device, now, &mut packet) {
            Given::Packet => {
                // Field by field, so that nothing is written behind the last field.
                place.number = packet.number;
                place.port = packet.port;
                place.buf = packet.buf;
                place.len = packet.len;
                place.ecn = packet.ecn;
                Given::Packet
            }
            Given::Idle => Given::Idle,
            Given::Later => Given::Later,
        }
    }
}

impl q_device::Told for CSent {
    ghost told = { sent_of };

    #[inline(always)]
    fn tell(packet: &KeptPacket) -> CSent {
        CSent::of(&packet.stored)
    }
}

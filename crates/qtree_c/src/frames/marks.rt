//! Marks in the heads of packets.
ghost use Rattle.std.specs.Prelude.{◌≡◌, true, false, length};
ghost use Rattle.q_packet.specs.Ecn.{is_capable};
ghost use Rattle.q_packet.specs.Head.{head, is_ipv4};
ghost use Rattle.q_packet.specs.Marking.{HasRightChecksum, marked};
ghost use Rattle.q_packet.specs.declared.ecn.Ecn.TheVariants.{Ce};

use q_packet::mark_head;

/// Writes Congestion Experienced into the first bytes of a packet, as [`mark_head`] does, and says whether it is marked now.
#[unsafe(no_mangle)]
pub extern "C" fn qtree_mark_head(bytes: &mut [u8]) -> bool
    ensures told { result ≡ is_capable (head bytes.old).ecn }
    ensures value { bytes.new ≡ marked bytes.old }
    ensures read { result ≡ true → head bytes.new ≡ record (head bytes.old) { ecn = Ce } }
    ensures same { result ≡ false → bytes.new ≡ bytes.old }
    ensures checksum { is_ipv4 bytes.old ≡ true → HasRightChecksum bytes.old → HasRightChecksum bytes.new }
    ensures len { length bytes.new ≡ length bytes.old }
{
    mark_head(bytes)
}

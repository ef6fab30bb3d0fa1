ghost use Rattle.std.specs.Prelude.{◌≡◌, ◌≢◌, ◌≤◌, ◌↔◌, ℕ, true, false, length, slice_index};
ghost use Rattle.std.specs.Bool.{OnTrue};
ghost use Rattle.q_packet.specs.Ecn.{is_capable};
ghost use Rattle.q_packet.specs.Head.{head, is_ipv4};
ghost use Rattle.q_packet.specs.Marking.{HasRightChecksum, marked, marked_ipv4, marked_ipv6, ones_sum, renewed_checksum, with_checksum};
ghost use Rattle.q_packet.specs.declared.ecn.Ecn.TheVariants.{Ce};

use crate::ecn::Ecn;
use crate::head::read_head;
use byteorder::{BigEndian, ByteOrder};

/// Writes Congestion Experienced into a packet that begins with its IP header (RFC 3168, section 5), and renews the
/// checksum of an IPv4 header (RFC 1624, section 3). Answers whether the packet is marked now.
///
/// It is where [`read_head`] finds ECT(0), ECT(1) or CE; one with CE keeps all its bytes. What [`read_head`] finds NotEct,
/// or has no whole IP header, is not marked and keeps all its bytes. No byte but 1 and, in IPv4, 10 and 11 is written. A
/// checksum that was right stays right; one that was wrong stays wrong, so that the receiver still sees the damage.
pub fn mark_head(packet: &mut [u8]) -> bool
    ensures told { result ≡ is_capable (head packet.old).ecn }
    ensures value { packet.new ≡ marked packet.old }
    ensures read { OnTrue result (head packet.new ≡ record (head packet.old) { ecn = Ce }) }
    ensures same { result ≡ false → packet.new ≡ packet.old }
    ensures checksum { is_ipv4 packet.old ≡ true → HasRightChecksum packet.old → HasRightChecksum packet.new }
    ensures damage { is_ipv4 packet.old ≡ true → HasRightChecksum packet.new → HasRightChecksum packet.old }
    ensures len { length packet.new ≡ length packet.old }
    ensures others { (i : ℕ) → i ≢ 1 → i ≢ 10 → i ≢ 11 → slice_index packet.new i ≡ slice_index packet.old i }
    ensures one_byte { is_ipv4 packet.old ≡ false → (i : ℕ) → i ≢ 1 → slice_index packet.new i ≡ slice_index packet.old i }
{
    match read_head(packet).ecn {
        Ecn::NotEct => false,
        Ecn::Ce => true,
        Ecn::Ect0 | Ecn::Ect1 => {
            if packet[0] >> 4 == 4 {
                mark_ipv4(packet);
            } else {
                mark_ipv6(packet);
            }
            true
        }
    }
}

// Marks a packet of version 4 with its whole header.
fn mark_ipv4(packet: &mut [u8])
    requires { is_ipv4 packet.old ≡ true }
    ensures value { packet.new ≡ marked_ipv4 packet.old }
    ensures checksum { HasRightChecksum packet.old ↔ HasRightChecksum packet.new }
{
    let checksum = BigEndian::read_u16(&packet[10..]);
    let old = BigEndian::read_u16(packet);
    packet[1] |= 0b11;
    let new = BigEndian::read_u16(packet);
    write_checksum(packet, renewed_checksum(checksum, old, new));
}

// Writes the checksum of an IPv4 header.
fn write_checksum(packet: &mut [u8], checksum: u16)
    requires { 12 ≤ length packet.old }
    ensures { packet.new ≡ with_checksum checksum packet.old }
{
    let [high, low] = checksum.to_be_bytes();
    packet[10] = high;
    packet[11] = low;
}

// Marks a packet of version 6 with its whole header.
fn mark_ipv6(packet: &mut [u8])
    requires { 2 ≤ length packet.old }
    ensures { packet.new ≡ marked_ipv6 packet.old }
{
    packet[1] |= 0b11 << 4;
}

// The checksum in place of `checksum` where a word of the header was `old` and is `new`.
fn renewed_checksum(checksum: u16, old: u16, new: u16) -> u16
    ensures { result ≡ renewed_checksum checksum old new }
{
    !ones_sum(ones_sum(!checksum, !old), new)
}

// The one's complement sum of two words.
fn ones_sum(a: u16, b: u16) -> u16
    ensures { result ≡ ones_sum a b }
{
    let sum = a as u32 + b as u32;
    (sum % 0x1_0000 + sum / 0x1_0000) as u16
}

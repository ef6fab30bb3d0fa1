ghost use Rattle.std.specs.Prelude.{◌≡◌};

use q_packet::StoredPacket;

/// What a program needs of a packet that was sent: which bytes to send on, and with which ECN codepoint.
#[repr(C)]
#[derive(Clone, Copy, Drop)]
pub struct CSent {
    pub number: u64,
    pub port: u32,
    pub buf: u32,
    pub len: u16,
    pub ecn: u8,
}

impl CSent {
    /// What is reported of this packet.
    #[inline(always)]
    pub fn of(packet: &StoredPacket) -> CSent
        ensures { result ≡ record { number = packet.now.number; port = packet.now.port; buf = packet.now.buf; len = packet.now.len; ecn = packet.now.ecn } }
    {
        CSent {
            number: packet.number,
            port: packet.port,
            buf: packet.buf,
            len: packet.len,
            ecn: packet.ecn,
        }
    }
}

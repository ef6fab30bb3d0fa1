ghost use Rattle.std.specs.Prelude.{◌≡◌, ◌%◌};
ghost use Rattle.q_packet.specs.Ecn.{codepoint, ecn_of};

/// The ECN codepoint of a packet (RFC 3168, section 5): the low two bits of the IPv4 traffic byte or of the IPv6 traffic class.
#[derive(Clone, Copy, PartialEq, Eq, Debug)]
pub enum Ecn {
    /// 00: the transport does not take part in ECN.
    NotEct = 0,
    /// 01: ECN-capable transport, ECT(1).
    Ect1 = 1,
    /// 10: ECN-capable transport, ECT(0).
    Ect0 = 2,
    /// 11: congestion experienced.
    Ce = 3,
}

impl Ecn {
    /// The codepoint in the low two bits of `traffic`, whose other bits do not matter.
    pub fn from_bits(traffic: u8) -> Ecn
        ensures value { result ≡ ecn_of traffic }
        ensures codepoint { codepoint result ≡ traffic % 4 }
    {
        match traffic & 0b11 {
            0b00 => Ecn::NotEct,
            0b01 => Ecn::Ect1,
            0b10 => Ecn::Ect0,
            _ => Ecn::Ce,
        }
    }

    /// The two bits, 0 to 3.
    pub fn bits(self) -> u8
        ensures { result ≡ codepoint self }
    {
        self as u8
    }
}

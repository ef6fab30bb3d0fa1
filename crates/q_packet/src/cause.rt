ghost use Rattle.std.specs.Prelude.{◌≡◌, IsTrue, Some};
ghost use Rattle.q_packet.specs.Cause.{cause_name, cause_number, is_refusal};

use std::fmt;

/// Why a packet was lost. The first three refuse a packet on arrival; the others drop one that was accepted.
#[derive(Clone, Copy, PartialEq, Eq, Debug)]
pub enum Cause {
    /// The packet is longer than the device's mtu, or than the burst of a tbf on its path.
    TooLong = 1,
    /// No filter of a drr names a class for it.
    NoClass = 2,
    /// The limit of a pfifo or bfifo is reached.
    OverLimit = 3,
    /// Dropped by CoDel (RFC 8289).
    CoDel = 4,
    /// Dropped from the fattest flow of an fq_codel that is over its limit (RFC 8290, section 4.1).
    FatFlow = 5,
    /// The qdisc that held it was removed.
    Purged = 6,
}

impl Cause {
    /// Its name, as reports write it.
    pub fn name(self) -> &'static str
        ensures { result.now ≡ cause_name self }
    {
        match self {
            Cause::TooLong => "TooLong",
            Cause::NoClass => "NoClass",
            Cause::OverLimit => "OverLimit",
            Cause::CoDel => "CoDel",
            Cause::FatFlow => "FatFlow",
            Cause::Purged => "Purged",
        }
    }

    /// Its number, 1 to 6 in the order above.
    pub fn number(self) -> u8
        ensures { result ≡ cause_number self }
    {
        self as u8
    }

    /// Whether the packet was refused on arrival, and so was never queued.
    pub fn is_refusal(self) -> bool
        ensures { result ≡ is_refusal self }
    {
        match self {
            Cause::TooLong | Cause::NoClass | Cause::OverLimit => true,
            Cause::CoDel | Cause::FatFlow | Cause::Purged => false,
        }
    }
}

impl fmt::Display for Cause {
    ghost use Rattle.std.specs.Prelude.{Some};
    ghost use Rattle.q_packet.specs.Cause.{cause_name};

    ghost output = { λ cause. Some (cause_name cause) };

    fn fmt<W: fmt::Write>(&self, f: &mut fmt::Formatter<W>) -> fmt::Result {
        f.write_str(self.name())
    }
}

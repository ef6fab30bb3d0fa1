ghost use Rattle.std.specs.Prelude.{◌≡◌, ◌↔◌, IfSome, IsSome};
ghost use Rattle.q_model.specs.Options.{IsPrefix};

use crate::ip_version::IpVersion;
use std::marker::Model;

/// Addresses that begin alike (tc-flower(8), `src_ip PREFIX`). A contract sees it as the record `Prefix` of its fields.
///
/// The widest fields come first, since fields are laid out in this order.
///
/// An IPv4 address is in the low 32 bits of `address`: code that would leave a bit above them there, or a length past
/// the end of an address, is refused. Bits past the length are kept for show, and not compared.
#[derive(Clone, Copy, PartialEq, Eq, Debug)]
pub struct IpPrefix {
    pub address: u128,
    /// How many bits are compared, at most 32 or 128.
    pub len: u8,
    pub version: IpVersion,
}

impl Model for IpPrefix {
    ghost use Rattle.q_model.specs.Options.{Prefix, IsPrefix};

    ghost Value = { Prefix };

    ghost view = { λ p. record { version = p.version; address = p.address; len = p.len } };

    ghost invariant = { λ p. IsPrefix (record { version = p.version; address = p.address; len = p.len }) };

    ghost inverse = { λ p. record { version = p.version; address = p.address; len = p.len } };
}

impl IpPrefix {
    /// The prefix with these fields; `None` where the length is past the end of an address of this version, or an address of
    /// version 4 has a bit above its 32.
    pub fn new(version: IpVersion, address: u128, len: u8) -> Option<IpPrefix>
        ensures in_range { IsSome result ↔ IsPrefix (record { version = version; address = address; len = len }) }
        ensures value { IfSome result (λ p. p ≡ record { version = version; address = address; len = len }) }
    {
        let fits = match version {
            IpVersion::V4 => address <= 0xffff_ffff && len <= 32,
            IpVersion::V6 => len <= 128,
        };
        if fits {
            Some(IpPrefix {
                version,
                address,
                len,
            })
        } else {
            None
        }
    }

    /// Each field is within its range, which the type keeps. It does nothing: its clause is for the laws of other crates.
    pub fn ranges(&self)
        ensures { IsPrefix self.now }
    {
        let _ = &self.len;
    }
}

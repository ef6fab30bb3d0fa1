use q_model::IpVersion;
use std::marker::Model;

/// An address of IP. A contract sees it as the record `Address` of its fields.
///
/// One of version 4 is in the low 32 bits: code that would leave a bit above them there is refused.
#[derive(Clone, Copy, PartialEq, Eq, Debug)]
pub struct IpAddress {
    pub version: IpVersion,
    pub address: u128,
}

impl Model for IpAddress {
    ghost use Rattle.std.specs.Prelude.{◌<◌, ◌^◌};
    ghost use Rattle.q_model.specs.Options.{bits_of};
    ghost use Rattle.q_words.specs.Addresses.{Address};

    ghost Value = { Address };

    ghost view = { λ a. record { version = a.version; address = a.address } };

    ghost invariant = { λ a. a.address < 2 ^ bits_of a.version };

    ghost inverse = { λ a. record { version = a.version; address = a.address } };
}

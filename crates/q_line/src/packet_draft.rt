ghost use Rattle.std.specs.Prelude.{◌≡◌, ◌<◌, ◌^◌, Some, Ok, Err, IfOk, IfErr, OnOk, IfSome, IsTrue, option_map};
ghost use Rattle.std.specs.Option.{option_map_or, option_or};
ghost use Rattle.q_packet.specs.Key.{address_bits, is_family};
ghost use Rattle.q_model.specs.Filters.{family_of};
ghost use Rattle.q_model.specs.Options.{bits_of};
ghost use Rattle.q_line.specs.Drafts.{no_fields};
ghost use Rattle.q_line.specs.Grammar.{arrival, packet_address, packet_with};
ghost use Rattle.q_line.specs.Reading.{IsAgreed, packet_has};

use crate::arrival::Arrival;
use crate::line::Line;
use crate::packet_field::PacketField;
use q_model::IpVersion;
use q_packet::{Ecn, FlowKey};
use q_words::{IpAddress, Wrong, address, ip_proto, number};

/// What has been given of a packet so far.
#[derive(Clone, Copy)]
pub struct PacketDraft {
    /// Its length in bytes, 1 to 65535.
    pub len: u16,
    pub hash: Option<u32>,
    /// Its priority, 0 to 15.
    pub prio: Option<u8>,
    pub ip_proto: Option<u8>,
    pub src_ip: Option<IpAddress>,
    pub dst_ip: Option<IpAddress>,
    pub src_port: Option<u16>,
    pub dst_port: Option<u16>,
    pub ecn: Option<Ecn>,
}

impl PacketDraft {
    /// A packet of so many bytes, and nothing else yet.
    pub fn new(len: u16) -> PacketDraft
        ensures { result ≡ no_fields len }
    {
        PacketDraft {
            len,
            hash: None,
            prio: None,
            ip_proto: None,
            src_ip: None,
            dst_ip: None,
            src_port: None,
            dst_port: None,
            ecn: None,
        }
    }

    /// Whether the field has been given.
    pub fn has(&self, field: PacketField) -> bool
        ensures { result ≡ packet_has field self.now }
    {
        match field {
            PacketField::Hash => self.hash.is_some(),
            PacketField::Prio => self.prio.is_some(),
            PacketField::IpProto => self.ip_proto.is_some(),
            PacketField::SrcIp => self.src_ip.is_some(),
            PacketField::DstIp => self.dst_ip.is_some(),
            PacketField::SrcPort => self.src_port.is_some(),
            PacketField::DstPort => self.dst_port.is_some(),
            PacketField::Ecn => self.ecn.is_some(),
        }
    }

    /// Gives a field the value that a word is.
    pub fn set(&mut self, field: PacketField, word: &str) -> Result<(), Wrong>
        requires { IsAgreed self.old }
        ensures ok { OnOk result (packet_with field self.old word.now ≡ Ok self.new) }
        ensures agreed { OnOk result (IsAgreed self.new) }
        ensures err { IfErr result (λ e. packet_with field self.old word.now ≡ Err e) }
    {
        let bytes = word.as_bytes();
        match field {
            PacketField::Hash => self.hash = Some(number(bytes, 0, 0xffff_ffff)? as u32),
            PacketField::Prio => self.prio = Some(number(bytes, 0, 15)? as u8),
            PacketField::IpProto => self.ip_proto = Some(ip_proto(word)?),
            PacketField::SrcIp => self.src_ip = Some(self.own_address(bytes)?),
            PacketField::DstIp => self.dst_ip = Some(self.own_address(bytes)?),
            PacketField::SrcPort => self.src_port = Some(number(bytes, 0, 0xffff)? as u16),
            PacketField::DstPort => self.dst_port = Some(number(bytes, 0, 0xffff)? as u16),
            PacketField::Ecn => self.ecn = Some(Ecn::from_bits(number(bytes, 0, 3)? as u8)),
        }
        Ok(())
    }

    /// An address of the packet, of the version of its other address.
    fn own_address(&self, word: &[u8]) -> Result<IpAddress, Wrong>
        requires { IsAgreed self.now }
        ensures value { result ≡ packet_address self.now word.now }
        ensures source { IfOk result (λ a. IsAgreed (record self.now { src_ip = Some a })) }
        ensures destination { IfOk result (λ a. IsAgreed (record self.now { dst_ip = Some a })) }
    {
        let found = address(word)?;
        match version_of(self.src_ip, self.dst_ip) {
            Some(version) if version != found.version => Err(Wrong::OutOfRange),
            _ => Ok(found),
        }
    }

    /// The packet that arrives; what is not given is 0.
    pub fn arrival(self) -> Arrival
        requires { IsAgreed self }
        ensures { Line.Pkt result ≡ arrival self }
    {
        let PacketDraft {
            len,
            hash,
            prio,
            ip_proto,
            src_ip,
            dst_ip,
            src_port,
            dst_port,
            ecn,
        } = self;
        let (family, src, dst) = ends(src_ip, dst_ip);
        let key = FlowKey {
            family,
            proto: ip_proto.unwrap_or(0),
            src,
            dst,
            sport: src_port.unwrap_or(0),
            dport: dst_port.unwrap_or(0),
        };
        Arrival {
            len,
            key,
            prio: prio.unwrap_or(0),
            ecn: ecn.unwrap_or(Ecn::NotEct),
            hash,
        }
    }
}

/// The version of two addresses, where one of them is there.
fn version_of(src: Option<IpAddress>, dst: Option<IpAddress>) -> Option<IpVersion>
    ensures { result ≡ option_map (λ a. a.version) (option_or src dst) }
{
    match (src, dst) {
        (Some(src), _) => Some(src.version),
        (None, Some(dst)) => Some(dst.version),
        (None, None) => None,
    }
}

/// The family of two addresses, and their bits: 0 where there is none.
fn ends(src: Option<IpAddress>, dst: Option<IpAddress>) -> (u8, u128, u128)
    requires { IfSome src (λ a. IfSome dst (λ b. a.version ≡ b.version)) }
    ensures family { result.0 ≡ option_map_or (λ a. family_of a.version) (option_or src dst) 0 }
    ensures source { result.1 ≡ option_map_or (λ a. a.address) src 0 }
    ensures destination { result.2 ≡ option_map_or (λ a. a.address) dst 0 }
    ensures is_family { IsTrue (is_family result.0) }
    ensures source_fits { result.1 < 2 ^ address_bits result.0 }
    ensures destination_fits { result.2 < 2 ^ address_bits result.0 }
{
    match (src, dst) {
        (Some(src), Some(dst)) => (family_of(src.version), src.address, dst.address),
        (Some(src), None) => (family_of(src.version), src.address, 0),
        (None, Some(dst)) => (family_of(dst.version), 0, dst.address),
        (None, None) => (0, 0, 0),
    }
}

/// The family of a version.
fn family_of(version: IpVersion) -> u8
    ensures family { result ≡ family_of version }
    ensures is_family { IsTrue (is_family result) }
    ensures bits { address_bits result ≡ bits_of version }
{
    match version {
        IpVersion::V4 => 4,
        IpVersion::V6 => 6,
    }
}

ghost use Rattle.std.specs.Prelude.{◌≡◌, Ok, Err, OnOk, IfErr};
ghost use Rattle.q_line.specs.Drafts.{no_keys};
ghost use Rattle.q_line.specs.Grammar.{key_prefix, key_with};
ghost use Rattle.q_line.specs.Reading.{key_has};

use crate::head_draft::HeadDraft;
use crate::key_name::KeyName;
use q_model::{ClassId, FilterKeys, IpPrefix, IpVersion, Protocol};
use q_words::{Wrong, class, ip_proto, number, prefix};

/// What has been given of a filter so far, behind its head.
#[derive(Clone, Copy)]
pub struct KeyDraft {
    pub keys: FilterKeys,
    /// The class to which a matching packet goes.
    pub class: Option<ClassId>,
}

impl KeyDraft {
    /// Nothing yet.
    pub fn new() -> KeyDraft
        ensures { result ≡ no_keys }
    {
        KeyDraft {
            keys: FilterKeys {
                ip_proto: None,
                src_ip: None,
                dst_ip: None,
                src_port: None,
                dst_port: None,
            },
            class: None,
        }
    }

    /// Whether a key, or the class, has been given.
    pub fn has(&self, name: KeyName) -> bool
        ensures { result ≡ key_has name self.now }
    {
        match name {
            KeyName::IpProto => self.keys.ip_proto.is_some(),
            KeyName::SrcIp => self.keys.src_ip.is_some(),
            KeyName::DstIp => self.keys.dst_ip.is_some(),
            KeyName::SrcPort => self.keys.src_port.is_some(),
            KeyName::DstPort => self.keys.dst_port.is_some(),
            KeyName::Class => self.class.is_some(),
        }
    }

    /// Gives a key, or the class, the value that a word is, behind this head.
    pub fn set(&mut self, name: KeyName, head: &HeadDraft, word: &str) -> Result<(), Wrong>
        ensures ok { OnOk result (key_with name head.now self.old word.now ≡ Ok self.new) }
        ensures err { IfErr result (λ e. key_with name head.now self.old word.now ≡ Err e) }
    {
        let bytes = word.as_bytes();
        match name {
            KeyName::IpProto => self.keys.ip_proto = Some(ip_proto(word)?),
            KeyName::SrcIp => self.keys.src_ip = Some(self.own_prefix(head, bytes)?),
            KeyName::DstIp => self.keys.dst_ip = Some(self.own_prefix(head, bytes)?),
            KeyName::SrcPort => self.keys.src_port = Some(number(bytes, 0, 0xffff)? as u16),
            KeyName::DstPort => self.keys.dst_port = Some(number(bytes, 0, 0xffff)? as u16),
            KeyName::Class => self.class = Some(class(bytes)?),
        }
        Ok(())
    }

    /// An address of a filter, of the version that its protocol or its other address wants.
    fn own_prefix(&self, head: &HeadDraft, word: &[u8]) -> Result<IpPrefix, Wrong>
        ensures { result ≡ key_prefix head.now self.now word.now }
    {
        let found = prefix(word)?;
        let wanted = match head.protocol {
            Some(Protocol::Ip) => Some(IpVersion::V4),
            Some(Protocol::Ipv6) => Some(IpVersion::V6),
            _ => match (self.keys.src_ip, self.keys.dst_ip) {
                (Some(other), _) => Some(other.version),
                (None, Some(other)) => Some(other.version),
                (None, None) => None,
            },
        };
        match wanted {
            Some(version) if version != found.version => Err(Wrong::OutOfRange),
            _ => Ok(found),
        }
    }
}

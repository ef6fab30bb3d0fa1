ghost use Rattle.std.specs.Prelude.{◌≡◌};
ghost use Rattle.q_line.specs.Grammar.{row_of};
ghost use Rattle.q_line.specs.Positions.{packet_rows};
ghost use Rattle.q_line.specs.Reading.{field_row};
ghost use Rattle.q_line.specs.declared.packet_draft.PacketDraft.{PacketDraft};

use q_words::Wrong;

/// A field that a `pkt` line can give of its packet.
#[derive(Clone, Copy)]
pub enum PacketField {
    Hash,
    Prio,
    IpProto,
    SrcIp,
    DstIp,
    SrcPort,
    DstPort,
    Ecn,
}

impl PacketField {
    /// The field that has this name; any other word is unknown.
    pub fn named(word: &str) -> Result<PacketField, Wrong>
        ensures { (draft : PacketDraft) → row_of (packet_rows draft) word.now ≡ field_row draft result }
    {
        match word {
            "hash" => Ok(PacketField::Hash),
            "prio" => Ok(PacketField::Prio),
            "ip_proto" => Ok(PacketField::IpProto),
            "src_ip" => Ok(PacketField::SrcIp),
            "dst_ip" => Ok(PacketField::DstIp),
            "src_port" => Ok(PacketField::SrcPort),
            "dst_port" => Ok(PacketField::DstPort),
            "ecn" => Ok(PacketField::Ecn),
            _ => Err(Wrong::UnknownWord),
        }
    }
}

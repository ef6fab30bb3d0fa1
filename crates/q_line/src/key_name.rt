ghost use Rattle.std.specs.Prelude.{◌≡◌};
ghost use Rattle.q_line.specs.Grammar.{row_of};
ghost use Rattle.q_line.specs.Positions.{key_rows};
ghost use Rattle.q_line.specs.Reading.{key_row};
ghost use Rattle.q_line.specs.declared.head_draft.HeadDraft.{HeadDraft};
ghost use Rattle.q_line.specs.declared.key_draft.KeyDraft.{KeyDraft};

use q_words::Wrong;

/// What a line can give of a flower filter (tc-flower(8)): a key, or the class of the packets.
#[derive(Clone, Copy)]
pub enum KeyName {
    IpProto,
    SrcIp,
    DstIp,
    SrcPort,
    DstPort,
    Class,
}

impl KeyName {
    /// What has this name; any other word is unknown.
    pub fn named(word: &str) -> Result<KeyName, Wrong>
        ensures { (head : HeadDraft) (draft : KeyDraft) → row_of (key_rows head draft) word.now ≡ key_row head draft result }
    {
        match word {
            "ip_proto" => Ok(KeyName::IpProto),
            "src_ip" => Ok(KeyName::SrcIp),
            "dst_ip" => Ok(KeyName::DstIp),
            "src_port" => Ok(KeyName::SrcPort),
            "dst_port" => Ok(KeyName::DstPort),
            "classid" | "flowid" => Ok(KeyName::Class),
            _ => Err(Wrong::UnknownWord),
        }
    }
}

ghost use Rattle.std.specs.Prelude.{◌≡◌, suc};
ghost use Rattle.q_words.specs.Words.{words_in};
ghost use Rattle.q_line.specs.Drafts.{no_fields};
ghost use Rattle.q_line.specs.Grammar.{rest_of};
ghost use Rattle.q_line.specs.Positions.{packet, pkt};
ghost use Rattle.q_line.specs.Reading.{IsAgreed};

use crate::line::Line;
use crate::packet_draft::PacketDraft;
use crate::packet_field::PacketField;
use crate::words::Words;
use q_words::{LineFault, number};

/// Behind `pkt`: LEN, bytes, and the fields of the packet.
pub fn pkt_line(words: &mut Words) -> Result<Line, LineFault>
    ensures { result ≡ rest_of pkt (suc words.old.taken) (words_in words.old.rest.now) }
{
    let word = words.needed()?;
    let len = words.placed(number(word.as_bytes(), 1, u64::from(u16::MAX)))? as u16;
    packet_line(words, PacketDraft::new(len))
}

/// The fields of a packet.
#[inline(always)]
fn packet_line(words: &mut Words, first: PacketDraft) -> Result<Line, LineFault>
    requires { IsAgreed first }
    ensures { result ≡ rest_of (packet first) (suc words.old.taken) (words_in words.old.rest.now) }
{
    let mut draft = first;
    while let Some(word) = words.next()? {
        let field = words.placed(PacketField::named(word))?;
        if draft.has(field) {
            return Err(words.twice());
        }
        let word = words.needed()?;
        words.placed(draft.set(field, word))?;
    }
    Ok(Line::Pkt(draft.arrival()))
}

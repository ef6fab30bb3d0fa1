ghost use Rattle.std.specs.Prelude.{◌≡◌, suc};
ghost use Rattle.q_words.specs.Words.{words_in};
ghost use Rattle.q_line.specs.Drafts.{no_options};
ghost use Rattle.q_line.specs.Grammar.{rest_of};
ghost use Rattle.q_line.specs.Positions.{options};
ghost use Rattle.q_line.specs.declared.kind_name.KindName.TheVariants.{Pfifo};

use crate::head_draft::HeadDraft;
use crate::line::Line;
use crate::qdisc_made::qdisc_made;
use crate::qdisc_verb::QdiscVerb;
use crate::words::Words;
use q_model::Kind;
use q_words::{LineFault, number};

/// Behind `pfifo`: its options.
pub fn pfifo_line(words: &mut Words, verb: QdiscVerb, head: HeadDraft) -> Result<Line, LineFault>
    ensures { result ≡ rest_of (options verb head Pfifo no_options) (suc words.old.taken) (words_in words.old.rest.now) }
{
    let mut limit = None;
    while let Some(word) = words.next()? {
        if word != "limit" {
            return Err(words.unknown());
        }
        let word = words.option(limit.is_some())?;
        limit = Some(words.placed(number(word.as_bytes(), 0, u64::from(u32::MAX)))? as u32);
    }
    qdisc_made(words, verb, head, Kind::Pfifo { limit })
}

ghost use Rattle.std.specs.Prelude.{◌≡◌, suc};
ghost use Rattle.q_words.specs.Words.{words_in};
ghost use Rattle.q_line.specs.Drafts.{no_options};
ghost use Rattle.q_line.specs.Grammar.{rest_of};
ghost use Rattle.q_line.specs.Positions.{options};
ghost use Rattle.q_line.specs.declared.kind_name.KindName.TheVariants.{Bfifo};

use crate::head_draft::HeadDraft;
use crate::line::Line;
use crate::qdisc_made::qdisc_made;
use crate::qdisc_verb::QdiscVerb;
use crate::words::Words;
use q_model::Kind;
use q_words::{LineFault, size_within};

/// Behind `bfifo`: its options.
pub fn bfifo_line(words: &mut Words, verb: QdiscVerb, head: HeadDraft) -> Result<Line, LineFault>
    ensures { result ≡ rest_of (options verb head Bfifo no_options) (suc words.old.taken) (words_in words.old.rest.now) }
{
    let mut limit = None;
    while let Some(word) = words.next()? {
        match word {
            "limit" => {
                let word = words.option(limit.is_some())?;
                let bytes = words.placed(size_within(word.as_bytes(), 0, u64::from(u32::MAX)))?;
                limit = Some(bytes as u32);
            }
            _ => return Err(words.unknown()),
        }
    }
    qdisc_made(words, verb, head, Kind::Bfifo { limit })
}

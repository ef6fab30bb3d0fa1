ghost use Rattle.std.specs.Prelude.{◌≡◌, suc};
ghost use Rattle.q_words.specs.Words.{words_in};
ghost use Rattle.q_line.specs.Drafts.{no_options};
ghost use Rattle.q_line.specs.Grammar.{rest_of};
ghost use Rattle.q_line.specs.Positions.{options};
ghost use Rattle.q_line.specs.declared.kind_name.KindName.TheVariants.{Drr};

use crate::head_draft::HeadDraft;
use crate::line::Line;
use crate::qdisc_made::qdisc_made;
use crate::qdisc_verb::QdiscVerb;
use crate::words::Words;
use q_model::Kind;
use q_words::LineFault;

/// Behind `drr`: its options.
pub fn drr_line(words: &mut Words, verb: QdiscVerb, head: HeadDraft) -> Result<Line, LineFault>
    ensures { result ≡ rest_of (options verb head Drr no_options) (suc words.old.taken) (words_in words.old.rest.now) }
{
    match words.next()? {
        None => qdisc_made(words, verb, head, Kind::Drr),
        Some(_) => Err(words.unknown()),
    }
}

ghost use Rattle.std.specs.Prelude.{◌≡◌, suc};
ghost use Rattle.q_words.specs.Words.{words_in};
ghost use Rattle.q_line.specs.Drafts.{no_options};
ghost use Rattle.q_line.specs.Grammar.{rest_of};
ghost use Rattle.q_line.specs.Positions.{options};
ghost use Rattle.q_line.specs.declared.kind_name.KindName.TheVariants.{FqCodel};

use crate::fq_codel_word::FqCodelWord;
use crate::head_draft::HeadDraft;
use crate::line::Line;
use crate::qdisc_made::qdisc_made;
use crate::qdisc_verb::QdiscVerb;
use crate::words::Words;
use q_model::{FqCodelOptions, Kind};
use q_words::LineFault;

/// Behind `fq_codel`: its options.
pub fn fq_codel_line(words: &mut Words, verb: QdiscVerb, head: HeadDraft) -> Result<Line, LineFault>
    ensures { result ≡ rest_of (options verb head FqCodel no_options) (suc words.old.taken) (words_in words.old.rest.now) }
{
    let mut options = no_fq_codel_options();
    while let Some(word) = words.next()? {
        match words.placed(FqCodelWord::named(word))? {
            FqCodelWord::Option(option) => {
                if option.is_given(&options) {
                    return Err(words.twice());
                }
                let word = words.needed()?;
                words.placed(option.set(&mut options, word.as_bytes()))?;
            }
            FqCodelWord::Ecn(ecn) => {
                words.once(options.ecn.is_some())?;
                options.ecn = Some(ecn);
            }
        }
    }
    qdisc_made(words, verb, head, Kind::FqCodel(options))
}

/// No option of an fq_codel.
fn no_fq_codel_options() -> FqCodelOptions
    ensures { result ≡ no_options.fq_codel }
{
    FqCodelOptions {
        limit: None,
        flows: None,
        quantum: None,
        target: None,
        interval: None,
        ecn: None,
        drop_batch: None,
    }
}

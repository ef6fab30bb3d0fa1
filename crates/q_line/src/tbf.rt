ghost use Rattle.std.specs.Prelude.{◌≡◌, ◌<◌, ◌∷◌, true, length, suc, Err, IfErr, OnOk};
ghost use Rattle.std.specs.Str.{is_utf8};
ghost use Rattle.q_words.specs.Words.{words_in};
ghost use Rattle.q_line.specs.Drafts.{no_options};
ghost use Rattle.q_line.specs.Grammar.{ended, rest_of};
ghost use Rattle.q_line.specs.Positions.{options};
ghost use Rattle.q_line.specs.Reading.{tbf_draft};
ghost use Rattle.q_line.specs.declared.kind_name.KindName.TheVariants.{Tbf};

use crate::head_draft::HeadDraft;
use crate::line::Line;
use crate::qdisc_made::qdisc_made;
use crate::qdisc_verb::QdiscVerb;
use crate::tbf_draft::TbfDraft;
use crate::tbf_option::TbfOption;
use crate::words::Words;
use q_model::Kind;
use q_words::LineFault;

/// Behind `tbf`: its options.
pub fn tbf_line(words: &mut Words, verb: QdiscVerb, head: HeadDraft) -> Result<Line, LineFault>
    ensures { result ≡ rest_of (options verb head Tbf no_options) (suc words.old.taken) (words_in words.old.rest.now) }
{
    let mut draft = TbfDraft::new();
    while let Some(word) = words.next()? {
        tbf_option(words, &mut draft, word)?;
    }
    tbf_made(words, verb, head, draft)
}

/// What a word says among the options of a tbf, with the value behind it.
fn tbf_option(words: &mut Words, draft: &mut TbfDraft, word: &str) -> Result<(), LineFault>
    requires { is_utf8 word.now ≡ true }
    ensures ok { OnOk result ((verb : QdiscVerb) (head : HeadDraft)
        → rest_of (options verb head Tbf (tbf_draft draft.old)) words.old.taken (word.now ∷ words_in words.old.rest.now)
        ≡ rest_of (options verb head Tbf (tbf_draft draft.new)) (suc words.new.taken) (words_in words.new.rest.now)) }
    ensures fewer { OnOk result (length (words_in words.new.rest.now) < length (words_in words.old.rest.now)) }
    ensures err { IfErr result (λ fault. (verb : QdiscVerb) (head : HeadDraft)
        → rest_of (options verb head Tbf (tbf_draft draft.old)) words.old.taken (word.now ∷ words_in words.old.rest.now) ≡ Err fault) }
{
    match word {
        "rate" => draft.read(words, TbfOption::Rate),
        "burst" | "buffer" | "maxburst" => draft.read(words, TbfOption::Burst),
        "limit" => draft.read(words, TbfOption::Limit),
        "latency" => draft.read(words, TbfOption::Latency),
        _ => Err(words.unknown()),
    }
}

/// The line that ends behind the options of a tbf, where each that it needs is there.
fn tbf_made(
    words: &Words,
    verb: QdiscVerb,
    head: HeadDraft,
    draft: TbfDraft,
) -> Result<Line, LineFault>
    ensures { result ≡ ended (options verb head Tbf (tbf_draft draft)) (suc words.now.taken) }
{
    let (Some(rate), Some(burst), Some(limit)) = (draft.rate, draft.burst, draft.limit) else {
        return Err(words.missing());
    };
    qdisc_made(words, verb, head, Kind::Tbf { rate, burst, limit })
}

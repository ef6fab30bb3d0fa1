ghost use Rattle.std.specs.Prelude.{◌≡◌, ◌≤◌, ◌∷◌, true, length, suc, option_map, Err, IfErr, IfOk, OnOk};
ghost use Rattle.std.specs.Option.{option_map_or};
ghost use Rattle.std.specs.Str.{is_utf8};
ghost use Rattle.q_words.specs.Words.{words_in};
ghost use Rattle.q_line.specs.Drafts.{no_head, no_options, of_qdisc, qdisc_del_line};
ghost use Rattle.q_line.specs.Grammar.{removal, rest_of, said};
ghost use Rattle.q_line.specs.Positions.{behind_kind, done, head as behind, options};

use crate::bfifo::bfifo_line;
use crate::drr::drr_line;
use crate::fq_codel::fq_codel_line;
use crate::head_draft::HeadDraft;
use crate::head_option::HeadOption;
use crate::kind_name::KindName;
use crate::line::Line;
use crate::pfifo::pfifo_line;
use crate::prio::prio_line;
use crate::qdisc_verb::QdiscVerb;
use crate::tbf::tbf_line;
use crate::words::Words;
use q_model::{Command, Place};
use q_words::LineFault;

/// Behind `qdisc add`, `change` or `del`: the head, then the kind.
pub fn qdisc_head(words: &mut Words, verb: QdiscVerb) -> Result<Line, LineFault>
    ensures { result ≡ rest_of (behind (of_qdisc verb) no_head) (suc words.old.taken) (words_in words.old.rest.now) }
{
    let mut head = HeadDraft::new();
    while let Some(word) = words.next()? {
        if let Some(kind) = qdisc_word(words, &mut head, word)? {
            return kind_line(words, verb, head, kind);
        }
    }
    headed(words, verb, head)
}

/// What a word says in the head of a qdisc, with the value behind it; or the kind that it names.
fn qdisc_word(
    words: &mut Words,
    head: &mut HeadDraft,
    word: &str,
) -> Result<Option<KindName>, LineFault>
    requires { is_utf8 word.now ≡ true }
    ensures ok { IfOk result (λ found. (verb : QdiscVerb) → rest_of (behind (of_qdisc verb) head.old) words.old.taken (word.now ∷ words_in words.old.rest.now)
        ≡ rest_of (option_map_or (behind_kind verb head.new) found (behind (of_qdisc verb) head.new)) (suc words.new.taken) (words_in words.new.rest.now)) }
    ensures fewer { OnOk result (length (words_in words.new.rest.now) ≤ length (words_in words.old.rest.now)) }
    ensures err { IfErr result (λ fault. (verb : QdiscVerb)
        → rest_of (behind (of_qdisc verb) head.old) words.old.taken (word.now ∷ words_in words.old.rest.now) ≡ Err fault) }
{
    match word {
        "dev" => head.read(words, HeadOption::Dev)?,
        "root" => {
            words.once(head.place.is_some())?;
            head.place = Some(Place::Root);
        }
        "parent" => head.read(words, HeadOption::InClass)?,
        "handle" => head.read(words, HeadOption::Handle)?,
        "pfifo" => return Ok(Some(KindName::Pfifo)),
        "bfifo" => return Ok(Some(KindName::Bfifo)),
        "prio" => return Ok(Some(KindName::Prio)),
        "tbf" => return Ok(Some(KindName::Tbf)),
        "drr" => return Ok(Some(KindName::Drr)),
        "fq_codel" => return Ok(Some(KindName::FqCodel)),
        _ => return Err(words.unknown()),
    }
    Ok(None)
}

/// The line that ends behind a head, where it removes a qdisc.
fn headed(words: &Words, verb: QdiscVerb, head: HeadDraft) -> Result<Line, LineFault>
    ensures { result ≡ said (removal (of_qdisc verb) head) (suc words.now.taken) }
{
    match verb {
        QdiscVerb::Del => qdisc_removed(words, head),
        QdiscVerb::Add | QdiscVerb::Change => Err(words.missing()),
    }
}

/// Behind a kind: its options, or nothing where the line removes a qdisc.
#[inline(always)]
fn kind_line(
    words: &mut Words,
    verb: QdiscVerb,
    head: HeadDraft,
    kind: KindName,
) -> Result<Line, LineFault>
    ensures { result ≡ rest_of (behind_kind verb head kind) (suc words.old.taken) (words_in words.old.rest.now) }
{
    match verb {
        QdiscVerb::Add => options_line(words, QdiscVerb::Add, head, kind),
        QdiscVerb::Change => options_line(words, QdiscVerb::Change, head, kind),
        QdiscVerb::Del => removal_line(words, head),
    }
}

/// Behind a kind that options may follow.
#[inline(always)]
fn options_line(
    words: &mut Words,
    verb: QdiscVerb,
    head: HeadDraft,
    kind: KindName,
) -> Result<Line, LineFault>
    ensures { result ≡ rest_of (options verb head kind no_options) (suc words.old.taken) (words_in words.old.rest.now) }
{
    match kind {
        KindName::Pfifo => pfifo_line(words, verb, head),
        KindName::Bfifo => bfifo_line(words, verb, head),
        KindName::Prio => prio_line(words, verb, head),
        KindName::Tbf => tbf_line(words, verb, head),
        KindName::Drr => drr_line(words, verb, head),
        KindName::FqCodel => fq_codel_line(words, verb, head),
    }
}

/// Where no word may follow: the line removes a qdisc.
fn removal_line(words: &mut Words, head: HeadDraft) -> Result<Line, LineFault>
    ensures { result ≡ rest_of (done (of_qdisc QdiscVerb.Del) head) (suc words.old.taken) (words_in words.old.rest.now) }
{
    match words.next()? {
        None => qdisc_removed(words, head),
        Some(_) => Err(words.unknown()),
    }
}

/// The line that removes a qdisc, where its head is whole.
fn qdisc_removed(words: &Words, head: HeadDraft) -> Result<Line, LineFault>
    ensures { result ≡ said (option_map Line.Tc (qdisc_del_line head)) (suc words.now.taken) }
{
    if !head.named || head.place.is_none() && head.handle.is_none() {
        return Err(words.missing());
    }
    Ok(Line::Tc(Command::QdiscDel {
        place: head.place,
        handle: head.handle,
    }))
}

ghost use Rattle.std.specs.Prelude.{◌≡◌, ◌<◌, ◌∷◌, true, false, codes, length, option_map, suc, Err, IfErr, OnOk};
ghost use Rattle.std.specs.Str.{bytes_eq, is_utf8};
ghost use Rattle.q_words.specs.Words.{words_in};
ghost use Rattle.q_line.specs.Drafts.{filter_del_line, no_head, of_filter};
ghost use Rattle.q_line.specs.Grammar.{rest_of, said};
ghost use Rattle.q_line.specs.Positions.{behind_flower, done, head as behind};

use crate::filter_verb::FilterVerb;
use crate::flower::flower_line;
use crate::head_draft::HeadDraft;
use crate::head_option::HeadOption;
use crate::line::Line;
use crate::words::Words;
use q_model::Command;
use q_words::LineFault;

/// Behind `filter add` or `del`: the head, then `flower`.
pub fn filter_head(words: &mut Words, verb: FilterVerb) -> Result<Line, LineFault>
    ensures { result ≡ rest_of (behind (of_filter verb) no_head) (suc words.old.taken) (words_in words.old.rest.now) }
{
    let mut head = HeadDraft::new();
    while let Some(word) = words.next()? {
        if word == "flower" {
            return flower_or_removal(words, verb, head);
        }
        filter_option(words, &mut head, word)?;
    }
    match verb {
        FilterVerb::Del => filters_removed(words, head),
        FilterVerb::Add => Err(words.missing()),
    }
}

/// What a word says in the head of a filter, where it is not `flower`, with the value behind it.
fn filter_option(words: &mut Words, head: &mut HeadDraft, word: &str) -> Result<(), LineFault>
    requires text { is_utf8 word.now ≡ true }
    requires other { bytes_eq word.now (codes "flower") ≡ false }
    ensures ok { OnOk result ((verb : FilterVerb) → rest_of (behind (of_filter verb) head.old) words.old.taken (word.now ∷ words_in words.old.rest.now)
        ≡ rest_of (behind (of_filter verb) head.new) (suc words.new.taken) (words_in words.new.rest.now)) }
    ensures fewer { OnOk result (length (words_in words.new.rest.now) < length (words_in words.old.rest.now)) }
    ensures err { IfErr result (λ fault. (verb : FilterVerb)
        → rest_of (behind (of_filter verb) head.old) words.old.taken (word.now ∷ words_in words.old.rest.now) ≡ Err fault) }
{
    match word {
        "dev" => head.read(words, HeadOption::Dev),
        "parent" => head.read(words, HeadOption::Parent),
        "prio" | "pref" => head.read(words, HeadOption::Prio),
        "protocol" => head.read(words, HeadOption::Protocol),
        _ => Err(words.unknown()),
    }
}

/// Behind `flower`: the keys of a filter, or nothing where the line removes filters.
fn flower_or_removal(
    words: &mut Words,
    verb: FilterVerb,
    head: HeadDraft,
) -> Result<Line, LineFault>
    ensures { result ≡ rest_of (behind_flower verb head) (suc words.old.taken) (words_in words.old.rest.now) }
{
    match verb {
        FilterVerb::Add => flower_line(words, head),
        FilterVerb::Del => removal_line(words, head),
    }
}

/// Behind the `flower` of a line that removes filters.
fn removal_line(words: &mut Words, head: HeadDraft) -> Result<Line, LineFault>
    ensures { result ≡ rest_of (done (of_filter FilterVerb.Del) head) (suc words.old.taken) (words_in words.old.rest.now) }
{
    match words.next()? {
        None => filters_removed(words, head),
        Some(_) => Err(words.unknown()),
    }
}

/// The line that removes filters, where its head is whole.
fn filters_removed(words: &Words, head: HeadDraft) -> Result<Line, LineFault>
    ensures { result ≡ said (option_map Line.Tc (filter_del_line head)) (suc words.now.taken) }
{
    match (head.parent, head.prio) {
        (Some(parent), Some(prio)) if head.named => Ok(Line::Tc(Command::FilterDel {
            parent,
            prio,
        })),
        _ => Err(words.missing()),
    }
}

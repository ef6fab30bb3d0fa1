ghost use Rattle.std.specs.Prelude.{◌≡◌, ◌<◌, ◌∷◌, true, None, Some, Err, IfErr, IfSome, OnOk, length, suc};
ghost use Rattle.std.specs.Str.{is_utf8};
ghost use Rattle.q_words.specs.Words.{words_in};
ghost use Rattle.q_model.specs.Numbers.{IsWithin};
ghost use Rattle.q_line.specs.Drafts.{no_options};
ghost use Rattle.q_line.specs.Grammar.{ended, rest_of};
ghost use Rattle.q_line.specs.Positions.{options, priomap};
ghost use Rattle.q_line.specs.Reading.{band_of, prio_draft};
ghost use Rattle.q_line.specs.declared.head_draft.HeadDraft.{HeadDraft};
ghost use Rattle.q_line.specs.declared.kind_name.KindName.TheVariants.{Prio};
ghost use Rattle.q_line.specs.declared.qdisc_verb.QdiscVerb.{QdiscVerb};

use crate::head_draft::HeadDraft;
use crate::line::Line;
use crate::prio_made::{is_late, prio_made};
use crate::priomap::Priomap;
use crate::qdisc_verb::QdiscVerb;
use crate::words::Words;
use q_words::{LineFault, Wrong, number, numeral};

/// Behind `prio`: its options, up to a priomap.
pub fn prio_line(words: &mut Words, verb: QdiscVerb, head: HeadDraft) -> Result<Line, LineFault>
    ensures { result ≡ rest_of (options verb head Prio no_options) (suc words.old.taken) (words_in words.old.rest.now) }
{
    let mut bands = None;
    while let Some(word) = words.next()? {
        match word {
            "bands" => {
                let word = words.option(bands.is_some())?;
                bands = Some(words.placed(number(word.as_bytes(), 2, 16))? as u8);
            }
            "priomap" => return priomap_line(words, verb, head, bands),
            _ => return Err(words.unknown()),
        }
    }
    prio_made(words, verb, head, bands, None)
}

/// Behind `priomap`: its numbers.
fn priomap_line(
    words: &mut Words,
    verb: QdiscVerb,
    head: HeadDraft,
    bands: Option<u8>,
) -> Result<Line, LineFault>
    requires { IfSome bands (IsWithin 2 16) }
    ensures { result ≡ rest_of (priomap verb head Prio (prio_draft bands None)) (suc words.old.taken) (words_in words.old.rest.now) }
{
    let word = words.needed()?;
    let first = words.placed(band(word.as_bytes()))?;
    let mut map = Priomap::new(words.taken()).with(first);
    while !map.is_whole() {
        let Some(word) = words.next()? else {
            return Err(is_late(words, bands, &map));
        };
        map = map.with(words.placed(band(word.as_bytes()))?);
    }
    mapped_line(words, verb, head, bands, map)
}

/// Behind the numbers of a priomap: the other options.
fn mapped_line(
    words: &mut Words,
    verb: QdiscVerb,
    head: HeadDraft,
    mut bands: Option<u8>,
    map: Priomap,
) -> Result<Line, LineFault>
    requires bands { IfSome bands (IsWithin 2 16) }
    requires map { length map.numbers ≡ 16 }
    ensures { result ≡ rest_of (options verb head Prio (prio_draft bands (Some map))) (suc words.old.taken) (words_in words.old.rest.now) }
{
    while let Some(word) = words.next()? {
        mapped_option(words, &mut bands, &map, word)?;
    }
    prio_made(words, verb, head, bands, Some(map))
}

/// What a word says among the options behind a priomap, with the value behind it.
fn mapped_option(
    words: &mut Words,
    bands: &mut Option<u8>,
    map: &Priomap,
    word: &str,
) -> Result<(), LineFault>
    requires text { is_utf8 word.now ≡ true }
    ensures bands { OnOk result (IfSome bands.new (IsWithin 2 16)) }
    ensures ok { OnOk result ((verb : QdiscVerb) (head : HeadDraft)
        → rest_of (options verb head Prio (prio_draft bands.old (Some map.now))) words.old.taken (word.now ∷ words_in words.old.rest.now)
        ≡ rest_of (options verb head Prio (prio_draft bands.new (Some map.now))) (suc words.new.taken) (words_in words.new.rest.now)) }
    ensures fewer { OnOk result (length (words_in words.new.rest.now) < length (words_in words.old.rest.now)) }
    ensures err { IfErr result (λ fault. (verb : QdiscVerb) (head : HeadDraft)
        → rest_of (options verb head Prio (prio_draft bands.old (Some map.now))) words.old.taken (word.now ∷ words_in words.old.rest.now) ≡ Err fault) }
{
    match word {
        "bands" => {
            words.once(bands.is_some())?;
            let Some(word) = words.next()? else {
                return Err(is_late(words, *bands, map));
            };
            *bands = Some(words.placed(number(word.as_bytes(), 2, 16))? as u8);
            Ok(())
        }
        "priomap" => Err(words.twice()),
        _ => Err(words.unknown()),
    }
}

/// A number of a priomap; 16 means any greater one.
fn band(word: &[u8]) -> Result<u8, Wrong>
    ensures { result ≡ band_of word.now }
{
    match numeral(word) {
        Some(number) => Ok(number.min(16) as u8),
        None => Err(Wrong::BadNumber),
    }
}

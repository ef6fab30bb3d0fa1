ghost use Rattle.std.specs.Prelude.{◌≡◌, ◌<◌, Some, Err, IfSome, length, suc};
ghost use Rattle.q_model.specs.Numbers.{IsWithin};
ghost use Rattle.q_line.specs.Grammar.{ended};
ghost use Rattle.q_line.specs.Positions.{option_value, options, priomap, bands as bands_value};
ghost use Rattle.q_line.specs.Reading.{prio_draft};
ghost use Rattle.q_line.specs.declared.kind_name.KindName.TheVariants.{Prio};

use crate::head_draft::HeadDraft;
use crate::line::Line;
use crate::priomap::Priomap;
use crate::qdisc_made::qdisc_made;
use crate::qdisc_verb::QdiscVerb;
use crate::words::Words;
use q_model::{Kind, PrioOptions};
use q_words::LineFault;

/// The bands where a line gives none.
const DEFAULT_BANDS: u8 = 3;

/// The priomap where a line gives none.
const DEFAULT_PRIOMAP: [u8; 16] = [1, 2, 2, 2, 1, 2, 0, 0, 1, 1, 1, 1, 1, 1, 1, 1];

/// The line that ends behind the options of a prio. A number that is no band comes before a missing word.
pub fn prio_made(
    words: &Words,
    verb: QdiscVerb,
    head: HeadDraft,
    bands: Option<u8>,
    map: Option<Priomap>,
) -> Result<Line, LineFault>
    requires bands { IfSome bands (IsWithin 2 16) }
    requires map { IfSome map (λ m. length m.numbers ≡ 16) }
    ensures { result ≡ ended (options verb head Prio (prio_draft bands map)) (suc words.now.taken) }
{
    let bands = bands.unwrap_or(DEFAULT_BANDS);
    let Some(map) = map else {
        if bands < DEFAULT_BANDS {
            return Err(words.missing());
        }
        let priomap = DEFAULT_PRIOMAP;
        return qdisc_made(
            words,
            verb,
            head,
            Kind::Prio(PrioOptions { bands, priomap }),
        );
    };
    if let Some(word) = map.first_bad(bands) {
        return Err(LineFault::OutOfRange(word));
    }
    let priomap = map.numbers();
    qdisc_made(
        words,
        verb,
        head,
        Kind::Prio(PrioOptions { bands, priomap }),
    )
}

/// The fault of a line that ends where a value is needed: a number of the priomap that is no band, else the missing word.
pub fn is_late(words: &Words, bands: Option<u8>, map: &Priomap) -> LineFault
    ensures in_priomap { (verb : QdiscVerb) (head : HeadDraft)
        → ended (priomap verb head Prio (prio_draft bands (Some map.now))) (suc words.now.taken) ≡ Err result }
    ensures in_bands { (verb : QdiscVerb) (head : HeadDraft)
        → ended (option_value bands_value verb head Prio (prio_draft bands (Some map.now))) (suc words.now.taken) ≡ Err result }
{
    match map.first_bad(bands.unwrap_or(DEFAULT_BANDS)) {
        Some(word) => LineFault::OutOfRange(word),
        None => words.missing(),
    }
}

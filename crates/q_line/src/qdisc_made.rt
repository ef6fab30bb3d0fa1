ghost use Rattle.std.specs.Prelude.{◌≡◌, suc, option_map};
ghost use Rattle.q_line.specs.Drafts.{qdisc_line};
ghost use Rattle.q_line.specs.Grammar.{said};

use crate::head_draft::HeadDraft;
use crate::line::Line;
use crate::qdisc_verb::QdiscVerb;
use crate::words::Words;
use q_model::{Command, Kind};
use q_words::LineFault;

/// The line that adds or changes a qdisc of this kind, where its head is whole.
pub fn qdisc_made(
    words: &Words,
    verb: QdiscVerb,
    head: HeadDraft,
    kind: Kind,
) -> Result<Line, LineFault>
    ensures { result ≡ said (option_map Line.Tc (qdisc_line verb head kind)) (suc words.now.taken) }
{
    if !head.named {
        return Err(words.missing());
    }
    let (place, handle) = (head.place, head.handle);
    match verb {
        QdiscVerb::Add => match place {
            Some(place) => Ok(Line::Tc(Command::QdiscAdd {
                place,
                handle,
                kind,
            })),
            None => Err(words.missing()),
        },
        QdiscVerb::Change => {
            if place.is_none() && handle.is_none() {
                return Err(words.missing());
            }
            Ok(Line::Tc(Command::QdiscChange {
                place,
                handle,
                kind,
            }))
        }
        QdiscVerb::Del => Err(words.missing()),
    }
}

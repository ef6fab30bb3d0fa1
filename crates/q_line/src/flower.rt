ghost use Rattle.std.specs.Prelude.{◌≡◌, option_map, suc};
ghost use Rattle.q_words.specs.Words.{words_in};
ghost use Rattle.q_line.specs.Drafts.{filter_line, no_keys};
ghost use Rattle.q_line.specs.Grammar.{rest_of, said};
ghost use Rattle.q_line.specs.Positions.{keys};

use crate::head_draft::HeadDraft;
use crate::key_draft::KeyDraft;
use crate::key_name::KeyName;
use crate::line::Line;
use crate::words::Words;
use q_model::{Command, Filter, Protocol};
use q_words::LineFault;

/// Behind the `flower` of a line that adds a filter: its keys and its class.
pub fn flower_line(words: &mut Words, head: HeadDraft) -> Result<Line, LineFault>
    ensures { result ≡ rest_of (keys head no_keys) (suc words.old.taken) (words_in words.old.rest.now) }
{
    let mut draft = KeyDraft::new();
    while let Some(word) = words.next()? {
        let name = words.placed(KeyName::named(word))?;
        if draft.has(name) {
            return Err(words.twice());
        }
        let word = words.needed()?;
        words.placed(draft.set(name, &head, word))?;
    }
    filter_made(words, head, draft)
}

/// The line that adds a filter, where its head and its class are there.
fn filter_made(words: &Words, head: HeadDraft, draft: KeyDraft) -> Result<Line, LineFault>
    ensures { result ≡ said (option_map Line.Tc (filter_line head draft)) (suc words.now.taken) }
{
    if !head.named {
        return Err(words.missing());
    }
    let (Some(parent), Some(prio), Some(class)) = (head.parent, head.prio, draft.class) else {
        return Err(words.missing());
    };
    Ok(Line::Tc(Command::FilterAdd {
        parent,
        major: class.major,
        filter: Filter {
            prio,
            protocol: head.protocol.unwrap_or(Protocol::All),
            keys: draft.keys,
            minor: class.minor,
        },
    }))
}

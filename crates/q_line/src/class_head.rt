ghost use Rattle.std.specs.Prelude.{◌≡◌, ◌<◌, ◌∷◌, true, false, codes, length, option_map, suc, None, Err, IfErr, OnOk};
ghost use Rattle.std.specs.Str.{bytes_eq, is_utf8};
ghost use Rattle.q_words.specs.Words.{words_in};
ghost use Rattle.q_line.specs.Drafts.{class_line, no_head, of_class};
ghost use Rattle.q_line.specs.Grammar.{rest_of, said};
ghost use Rattle.q_line.specs.Positions.{head as behind, quantum_of};

use crate::class_verb::ClassVerb;
use crate::head_draft::HeadDraft;
use crate::head_option::HeadOption;
use crate::line::Line;
use crate::words::Words;
use q_model::{Command, Quantum};
use q_words::{LineFault, size_within};

/// Behind `class add`, `change` or `del`: the head, then the kind.
pub fn class_head(words: &mut Words, verb: ClassVerb) -> Result<Line, LineFault>
    ensures { result ≡ rest_of (behind (of_class verb) no_head) (suc words.old.taken) (words_in words.old.rest.now) }
{
    let mut head = HeadDraft::new();
    while let Some(word) = words.next()? {
        if word == "drr" {
            return match verb {
                ClassVerb::Add => quantum_line(words, ClassVerb::Add, head),
                ClassVerb::Change => quantum_line(words, ClassVerb::Change, head),
                ClassVerb::Del => Err(words.unknown()),
            };
        }
        class_option(words, &mut head, word)?;
    }
    match verb {
        ClassVerb::Del => class_made(words, ClassVerb::Del, head, None),
        _ => Err(words.missing()),
    }
}

/// What a word says in the head of a class, where it is not `drr`, with the value behind it.
fn class_option(words: &mut Words, head: &mut HeadDraft, word: &str) -> Result<(), LineFault>
    requires text { is_utf8 word.now ≡ true }
    requires other { bytes_eq word.now (codes "drr") ≡ false }
    ensures ok { OnOk result ((verb : ClassVerb) → rest_of (behind (of_class verb) head.old) words.old.taken (word.now ∷ words_in words.old.rest.now)
        ≡ rest_of (behind (of_class verb) head.new) (suc words.new.taken) (words_in words.new.rest.now)) }
    ensures fewer { OnOk result (length (words_in words.new.rest.now) < length (words_in words.old.rest.now)) }
    ensures err { IfErr result (λ fault. (verb : ClassVerb)
        → rest_of (behind (of_class verb) head.old) words.old.taken (word.now ∷ words_in words.old.rest.now) ≡ Err fault) }
{
    match word {
        "dev" => head.read(words, HeadOption::Dev),
        "parent" => head.read(words, HeadOption::Parent),
        "classid" => head.read(words, HeadOption::ClassId),
        _ => Err(words.unknown()),
    }
}

/// Behind `drr`: the quantum of the class.
fn quantum_line(words: &mut Words, verb: ClassVerb, head: HeadDraft) -> Result<Line, LineFault>
    ensures { result ≡ rest_of (quantum_of verb head None) (suc words.old.taken) (words_in words.old.rest.now) }
{
    let mut quantum = None;
    while let Some(word) = words.next()? {
        match word {
            "quantum" => {
                let word = words.option(quantum.is_some())?;
                let bytes = words.placed(size_within(word.as_bytes(), 1, u64::from(u32::MAX)))?;
                quantum = Some(Quantum::new(bytes as u32).unwrap());
            }
            _ => return Err(words.unknown()),
        }
    }
    class_made(words, verb, head, quantum)
}

/// The line of a class with this quantum, where its head is whole.
fn class_made(
    words: &Words,
    verb: ClassVerb,
    head: HeadDraft,
    quantum: Option<Quantum>,
) -> Result<Line, LineFault>
    ensures { result ≡ said (option_map Line.Tc (class_line verb head quantum)) (suc words.now.taken) }
{
    let HeadDraft {
        named,
        parent,
        class,
        ..
    } = head;
    let Some(class) = class else {
        return Err(words.missing());
    };
    if !named {
        return Err(words.missing());
    }
    Ok(Line::Tc(match verb {
        ClassVerb::Add => {
            let Some(parent) = parent else {
                return Err(words.missing());
            };
            Command::ClassAdd {
                parent,
                class,
                quantum,
            }
        }
        ClassVerb::Change => Command::ClassChange {
            parent,
            class,
            quantum,
        },
        ClassVerb::Del => Command::ClassDel { parent, class },
    }))
}

ghost use Rattle.std.specs.Prelude.{◌≡◌, suc, true, false};
ghost use Rattle.q_words.specs.Words.{words_in};
ghost use Rattle.q_line.specs.Drafts.{no_head, of_class, of_filter, of_qdisc};
ghost use Rattle.q_line.specs.Grammar.{rest_of};
ghost use Rattle.q_line.specs.Positions.{class, filter, qdisc, show_line, tc};

use crate::class_head::class_head;
use crate::class_verb::ClassVerb;
use crate::filter_head::filter_head;
use crate::filter_verb::FilterVerb;
use crate::line::Line;
use crate::object::Object;
use crate::qdisc_head::qdisc_head;
use crate::qdisc_verb::QdiscVerb;
use crate::show::Show;
use crate::words::Words;
use q_words::{LineFault, name};

/// Behind `tc`: an option, or the object.
#[inline(always)]
pub fn tc_line(words: &mut Words) -> Result<Line, LineFault>
    ensures { result ≡ rest_of (tc false) (suc words.old.taken) (words_in words.old.rest.now) }
{
    match words.needed()? {
        "-s" => object_line(words),
        "qdisc" => qdisc_line(words, false),
        "class" => class_line(words, false),
        "filter" => filter_line(words, false),
        _ => Err(words.unknown()),
    }
}

/// Behind `tc -s`: the object.
#[inline(always)]
fn object_line(words: &mut Words) -> Result<Line, LineFault>
    ensures { result ≡ rest_of (tc true) (suc words.old.taken) (words_in words.old.rest.now) }
{
    match words.needed()? {
        "qdisc" => qdisc_line(words, true),
        "class" => class_line(words, true),
        "filter" => filter_line(words, true),
        _ => Err(words.unknown()),
    }
}

/// Behind `qdisc`: what is done.
#[inline(always)]
fn qdisc_line(words: &mut Words, counters: bool) -> Result<Line, LineFault>
    ensures { result ≡ rest_of (qdisc counters) (suc words.old.taken) (words_in words.old.rest.now) }
{
    let object = Object::Qdisc;
    match words.needed()? {
        "add" => qdisc_head(words, QdiscVerb::Add),
        "change" => qdisc_head(words, QdiscVerb::Change),
        "del" | "delete" => qdisc_head(words, QdiscVerb::Del),
        "show" | "list" | "ls" => shown(words, Show { object, counters }),
        _ => Err(words.unknown()),
    }
}

/// Behind `class`: what is done.
#[inline(always)]
fn class_line(words: &mut Words, counters: bool) -> Result<Line, LineFault>
    ensures { result ≡ rest_of (class counters) (suc words.old.taken) (words_in words.old.rest.now) }
{
    let object = Object::Class;
    match words.needed()? {
        "add" => class_head(words, ClassVerb::Add),
        "change" => class_head(words, ClassVerb::Change),
        "del" | "delete" => class_head(words, ClassVerb::Del),
        "show" | "list" | "ls" => shown(words, Show { object, counters }),
        _ => Err(words.unknown()),
    }
}

/// Behind `filter`: what is done.
#[inline(always)]
fn filter_line(words: &mut Words, counters: bool) -> Result<Line, LineFault>
    ensures { result ≡ rest_of (filter counters) (suc words.old.taken) (words_in words.old.rest.now) }
{
    let object = Object::Filter;
    match words.needed()? {
        "add" => filter_head(words, FilterVerb::Add),
        "del" | "delete" => filter_head(words, FilterVerb::Del),
        "show" | "list" | "ls" => shown(words, Show { object, counters }),
        _ => Err(words.unknown()),
    }
}

/// Behind `show`: `dev NAME`, or nothing.
fn shown(words: &mut Words, show: Show) -> Result<Line, LineFault>
    ensures { result ≡ rest_of (show_line show false) (suc words.old.taken) (words_in words.old.rest.now) }
{
    let mut named = false;
    while let Some(word) = words.next()? {
        if word != "dev" {
            return Err(words.unknown());
        }
        let word = words.option(named)?;
        words.placed(name(word.as_bytes()))?;
        named = true;
    }
    Ok(Line::Show(show))
}

ghost use Rattle.std.specs.Prelude.{◌≡◌, ◌<◌, true, false, length, suc, Ok, Err, OnOk, IfErr};
ghost use Rattle.q_words.specs.Words.{words_in};
ghost use Rattle.q_line.specs.Drafts.{Verb, no_head};
ghost use Rattle.q_line.specs.Grammar.{head_fits, rest_of};
ghost use Rattle.q_line.specs.Positions.{head, head_value};
ghost use Rattle.q_line.specs.Reading.{head_has, head_value_of};

use crate::head_option::HeadOption;
use crate::words::Words;
use q_model::{ClassId, FilterPrio, Handle, Place, Protocol};
use q_words::{LineFault, Wrong, class, handle, name, number, protocol};

/// What the head of a tc line has given so far, in any order.
#[derive(Clone, Copy)]
pub struct HeadDraft {
    /// Whether `dev NAME` is there. The name is compared with nothing, since a script has one device.
    pub named: bool,
    /// The place of a qdisc.
    pub place: Option<Place>,
    /// The handle of a qdisc.
    pub handle: Option<Handle>,
    /// The qdisc of a class or a filter.
    pub parent: Option<Handle>,
    pub class: Option<ClassId>,
    /// The priority of a filter.
    pub prio: Option<FilterPrio>,
    /// The protocol of the packets that a filter tests.
    pub protocol: Option<Protocol>,
}

impl HeadDraft {
    /// Nothing yet.
    pub fn new() -> HeadDraft
        ensures { result ≡ no_head }
    {
        HeadDraft {
            named: false,
            place: None,
            handle: None,
            parent: None,
            class: None,
            prio: None,
            protocol: None,
        }
    }

    /// Whether a part that has a value has been given.
    #[inline(always)]
    fn has(&self, option: HeadOption) -> bool
        ensures { result ≡ head_has option self.now }
    {
        match option {
            HeadOption::Dev => self.named,
            HeadOption::InClass => self.place.is_some(),
            HeadOption::Handle => self.handle.is_some(),
            HeadOption::Parent => self.parent.is_some(),
            HeadOption::ClassId => self.class.is_some(),
            HeadOption::Prio => self.prio.is_some(),
            HeadOption::Protocol => self.protocol.is_some(),
        }
    }

    /// Gives a part the value that a word is.
    #[inline(always)]
    fn set(&mut self, option: HeadOption, word: &str) -> Result<(), Wrong>
        ensures ok { OnOk result ((verb : Verb) → head_fits (head_value_of option) verb self.old word.now ≡ Ok (head verb self.new)) }
        ensures err { IfErr result (λ e. (verb : Verb) → head_fits (head_value_of option) verb self.old word.now ≡ Err e) }
    {
        let bytes = word.as_bytes();
        match option {
            HeadOption::Dev => {
                name(bytes)?;
                self.named = true;
            }
            HeadOption::InClass => self.place = Some(Place::Class(class(bytes)?)),
            HeadOption::Handle => self.handle = Some(handle(bytes)?),
            HeadOption::Parent => self.parent = Some(handle(bytes)?),
            HeadOption::ClassId => self.class = Some(class(bytes)?),
            HeadOption::Prio => {
                let prio = number(bytes, 1, 0xffff)? as u16;
                self.prio = Some(FilterPrio::new(prio).unwrap());
            }
            HeadOption::Protocol => self.protocol = Some(protocol(word)?),
        }
        Ok(())
    }

    /// Reads the value of a part, which may be given once, behind its name.
    #[inline(always)]
    pub fn read(&mut self, words: &mut Words, option: HeadOption) -> Result<(), LineFault>
        ensures once { OnOk result (head_has option self.old ≡ false) }
        ensures ok { OnOk result ((verb : Verb) → rest_of (head_value (head_value_of option) verb self.old) (suc words.old.taken) (words_in words.old.rest.now)
            ≡ rest_of (head verb self.new) (suc words.new.taken) (words_in words.new.rest.now)) }
        ensures fewer { OnOk result (length (words_in words.new.rest.now) < length (words_in words.old.rest.now)) }
        ensures twice { IfErr result (λ fault. head_has option self.old ≡ true → fault ≡ LineFault.Twice words.old.taken) }
        ensures err { IfErr result (λ fault. head_has option self.old ≡ false → (verb : Verb)
            → rest_of (head_value (head_value_of option) verb self.old) (suc words.old.taken) (words_in words.old.rest.now) ≡ Err fault) }
    {
        let word = words.option(self.has(option))?;
        words.placed(self.set(option, word))
    }
}

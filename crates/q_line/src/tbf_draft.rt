ghost use Rattle.std.specs.Prelude.{◌≡◌, ◌<◌, true, false, length, suc, None, Ok, Err, OnOk, IfErr};
ghost use Rattle.q_words.specs.Words.{words_in};
ghost use Rattle.q_line.specs.Grammar.{option_fits, rest_of};
ghost use Rattle.q_line.specs.Positions.{option_value, options};
ghost use Rattle.q_line.specs.Reading.{tbf_draft, tbf_has, tbf_value_of};
ghost use Rattle.q_line.specs.declared.head_draft.HeadDraft.{HeadDraft};
ghost use Rattle.q_line.specs.declared.kind_name.KindName.TheVariants.{Tbf};
ghost use Rattle.q_line.specs.declared.qdisc_verb.QdiscVerb.{QdiscVerb};

use crate::tbf_option::TbfOption;
use crate::words::Words;
use q_model::{Burst, Latency, Rate, TbfLimit};
use q_words::{LineFault, Wrong, read_rate, size_within, time_within};

/// The longest latency: 1000 s, in nanoseconds.
const LONGEST: u64 = 1_000_000_000_000;

/// The greatest burst and limit, in bytes.
const MOST: u64 = 0xffff_ffff;

/// What has been given of a tbf so far.
#[derive(Clone, Copy)]
pub struct TbfDraft {
    pub rate: Option<Rate>,
    pub burst: Option<Burst>,
    /// The limit, or the latency in its place.
    pub limit: Option<TbfLimit>,
}

impl TbfDraft {
    /// Nothing yet.
    pub fn new() -> TbfDraft
        ensures { result ≡ record { rate = None; burst = None; limit = None } }
    {
        TbfDraft {
            rate: None,
            burst: None,
            limit: None,
        }
    }

    /// Whether the option, or the one that it is one with, has been given.
    #[inline(always)]
    fn has(&self, option: TbfOption) -> bool
        ensures { result ≡ tbf_has option self.now }
    {
        match option {
            TbfOption::Rate => self.rate.is_some(),
            TbfOption::Burst => self.burst.is_some(),
            TbfOption::Limit | TbfOption::Latency => self.limit.is_some(),
        }
    }

    /// Gives the option the value that a word is.
    #[inline(always)]
    fn set(&mut self, option: TbfOption, word: &[u8]) -> Result<(), Wrong>
        ensures ok { OnOk result ((verb : QdiscVerb) (head : HeadDraft)
            → option_fits (tbf_value_of option) verb head Tbf (tbf_draft self.old) word.now ≡ Ok (options verb head Tbf (tbf_draft self.new))) }
        ensures err { IfErr result (λ e. (verb : QdiscVerb) (head : HeadDraft)
            → option_fits (tbf_value_of option) verb head Tbf (tbf_draft self.old) word.now ≡ Err e) }
    {
        match option {
            TbfOption::Rate => self.rate = Some(Rate::new(read_rate(word)?).unwrap()),
            TbfOption::Burst => {
                let bytes = size_within(word, 1, MOST)? as u32;
                self.burst = Some(Burst::new(bytes).unwrap());
            }
            TbfOption::Limit => {
                let bytes = size_within(word, 0, MOST)? as u32;
                self.limit = Some(TbfLimit::Bytes(bytes));
            }
            TbfOption::Latency => {
                let ns = time_within(word, 0, LONGEST)?;
                self.limit = Some(TbfLimit::Latency(Latency::new(ns).unwrap()));
            }
        }
        Ok(())
    }

    /// Reads the value of an option, which may be given once, behind its name.
    #[inline(always)]
    pub fn read(&mut self, words: &mut Words, option: TbfOption) -> Result<(), LineFault>
        ensures once { OnOk result (tbf_has option self.old ≡ false) }
        ensures ok { OnOk result ((verb : QdiscVerb) (head : HeadDraft)
            → rest_of (option_value (tbf_value_of option) verb head Tbf (tbf_draft self.old)) (suc words.old.taken) (words_in words.old.rest.now)
            ≡ rest_of (options verb head Tbf (tbf_draft self.new)) (suc words.new.taken) (words_in words.new.rest.now)) }
        ensures fewer { OnOk result (length (words_in words.new.rest.now) < length (words_in words.old.rest.now)) }
        ensures twice { IfErr result (λ fault. tbf_has option self.old ≡ true → fault ≡ LineFault.Twice words.old.taken) }
        ensures err { IfErr result (λ fault. tbf_has option self.old ≡ false → (verb : QdiscVerb) (head : HeadDraft)
            → rest_of (option_value (tbf_value_of option) verb head Tbf (tbf_draft self.old)) (suc words.old.taken) (words_in words.old.rest.now) ≡ Err fault) }
    {
        let word = words.option(self.has(option))?;
        words.placed(self.set(option, word.as_bytes()))
    }
}

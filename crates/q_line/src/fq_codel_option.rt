ghost use Rattle.std.specs.Prelude.{◌≡◌, Ok, Err, OnOk, IfErr};
ghost use Rattle.q_line.specs.Grammar.{option_fits};
ghost use Rattle.q_line.specs.Positions.{options as behind};
ghost use Rattle.q_line.specs.Reading.{fq_draft, fq_has, option_value_of};
ghost use Rattle.q_line.specs.declared.head_draft.HeadDraft.{HeadDraft};
ghost use Rattle.q_line.specs.declared.kind_name.KindName.TheVariants.{FqCodel};
ghost use Rattle.q_line.specs.declared.qdisc_verb.QdiscVerb.{QdiscVerb};

use q_fqcodel::Settings;
use q_model::FqCodelOptions;
use q_words::{Wrong, number, size_within, time_within};

/// The greatest limit and quantum.
const MOST: u64 = 0xffff_ffff;

const MOST_FLOWS: u64 = Settings::MOST_FLOWS as u64;

const MOST_BATCH: u64 = Settings::MOST_DROP_BATCH as u64;

/// The longest target and interval, in nanoseconds, and the shortest interval.
const LONGEST: u64 = Settings::LONGEST;

const SHORTEST: u64 = Settings::SHORTEST_INTERVAL;

/// An option of an fq_codel that has a value (tc-fq_codel(8)).
#[derive(Clone, Copy)]
pub enum FqCodelOption {
    Limit,
    Flows,
    Quantum,
    Target,
    Interval,
    DropBatch,
}

impl FqCodelOption {
    /// Whether the option has been given.
    pub fn is_given(self, options: &FqCodelOptions) -> bool
        ensures { result ≡ fq_has self options.now }
    {
        match self {
            FqCodelOption::Limit => options.limit.is_some(),
            FqCodelOption::Flows => options.flows.is_some(),
            FqCodelOption::Quantum => options.quantum.is_some(),
            FqCodelOption::Target => options.target.is_some(),
            FqCodelOption::Interval => options.interval.is_some(),
            FqCodelOption::DropBatch => options.drop_batch.is_some(),
        }
    }

    /// Gives the option the value that a word is.
    pub fn set(self, options: &mut FqCodelOptions, word: &[u8]) -> Result<(), Wrong>
        ensures ok { OnOk result ((verb : QdiscVerb) (head : HeadDraft)
            → option_fits (option_value_of self) verb head FqCodel (fq_draft options.old) word.now ≡ Ok (behind verb head FqCodel (fq_draft options.new))) }
        ensures err { IfErr result (λ e. (verb : QdiscVerb) (head : HeadDraft)
            → option_fits (option_value_of self) verb head FqCodel (fq_draft options.old) word.now ≡ Err e) }
    {
        match self {
            FqCodelOption::Limit => options.limit = Some(number(word, 1, MOST)? as u32),
            FqCodelOption::Flows => options.flows = Some(number(word, 1, MOST_FLOWS)? as u32),
            FqCodelOption::Quantum => options.quantum = Some(size_within(word, 1, MOST)? as u32),
            FqCodelOption::Target => options.target = Some(time_within(word, 0, LONGEST)?),
            FqCodelOption::Interval => {
                options.interval = Some(time_within(word, SHORTEST, LONGEST)?);
            }
            FqCodelOption::DropBatch => {
                options.drop_batch = Some(number(word, 1, MOST_BATCH)? as u32);
            }
        }
        Ok(())
    }
}

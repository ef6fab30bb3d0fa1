ghost use Rattle.std.specs.Prelude.{◌≡◌};
ghost use Rattle.q_model.specs.Options.{FqOptions};
ghost use Rattle.q_line.specs.Grammar.{row_of};
ghost use Rattle.q_line.specs.Positions.{option_rows};
ghost use Rattle.q_line.specs.Reading.{fq_draft, fq_row};
ghost use Rattle.q_line.specs.declared.head_draft.HeadDraft.{HeadDraft};
ghost use Rattle.q_line.specs.declared.kind_name.KindName.TheVariants.{FqCodel};
ghost use Rattle.q_line.specs.declared.qdisc_verb.QdiscVerb.{QdiscVerb};

use crate::fq_codel_option::FqCodelOption;
use q_words::Wrong;

/// A word of an fq_codel (tc-fq_codel(8)).
#[derive(Clone, Copy)]
pub enum FqCodelWord {
    /// An option, whose value follows.
    Option(FqCodelOption),
    /// `ecn` or `noecn`.
    Ecn(bool),
}

impl FqCodelWord {
    /// The word of this name; any other is unknown.
    pub fn named(word: &str) -> Result<FqCodelWord, Wrong>
        ensures { (verb : QdiscVerb) (head : HeadDraft) (o : FqOptions)
            → row_of (option_rows verb head FqCodel (fq_draft o)) word.now ≡ fq_row verb head o result }
    {
        match word {
            "limit" => Ok(FqCodelWord::Option(FqCodelOption::Limit)),
            "flows" => Ok(FqCodelWord::Option(FqCodelOption::Flows)),
            "quantum" => Ok(FqCodelWord::Option(FqCodelOption::Quantum)),
            "target" => Ok(FqCodelWord::Option(FqCodelOption::Target)),
            "interval" => Ok(FqCodelWord::Option(FqCodelOption::Interval)),
            "drop_batch" => Ok(FqCodelWord::Option(FqCodelOption::DropBatch)),
            "ecn" => Ok(FqCodelWord::Ecn(true)),
            "noecn" => Ok(FqCodelWord::Ecn(false)),
            _ => Err(Wrong::UnknownWord),
        }
    }
}

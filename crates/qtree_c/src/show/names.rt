//! The names of numbers.
ghost use Rattle.std.specs.Prelude.{◌≡◌, ◌≤◌, ◌<◌};
ghost use Rattle.q_model.specs.Refusal.{refusal_name, refusal_number};
ghost use Rattle.q_model.specs.declared.refusal.Refusal.{Refusal};
ghost use Rattle.q_packet.specs.Cause.{cause_name, cause_number};
ghost use Rattle.q_packet.specs.declared.cause.Cause.{Cause};
ghost use Rattle.q_words.specs.FaultText.{fault_name, fault_number};
ghost use Rattle.q_words.specs.declared.line_fault.LineFault.{LineFault};
ghost use Rattle.qtree_c.specs.events.Scripts.{IsUnwritten, IsWritten};
ghost use Rattle.qtree_c.specs.show.Names.{code_in_words, fault_in_words, kind_in_words, name_of};

use crate::abi::codes::OUT_OF_RANGE;
use crate::events::scripts::lend;

/// The name of an answer (0), of a line's fault (1) or of a kind of qdisc (2), by its number.
#[unsafe(no_mangle)]
pub extern "C" fn qtree_name_of(what: u32, number: u32, text: &mut [u8], needed: &mut usize) -> u32
    ensures name { what ≤ 2 → IsWritten (name_of what number) result needed.new text.old text.new }
    ensures out_of_range { 2 < what → IsUnwritten 42 result needed.new text.old text.new }
{
    *needed = 0;
    let name = match what {
        0 => code_name(number),
        1 => fault_name(number),
        2 => kind_name(number),
        _ => return OUT_OF_RANGE,
    };
    lend(name.as_bytes(), text, needed)
}

/// The name of an answer.
fn code_name(code: u32) -> &'static str
    ensures value { result.now ≡ code_in_words code }
    ensures causes { (cause : Cause) → code ≡ cause_number cause → result.now ≡ cause_name cause }
    ensures refusals { (refusal : Refusal) → code ≡ refusal_number refusal → result.now ≡ refusal_name refusal }
{
    listed_name(code)
}

/// The name of an answer, by the list.
fn listed_name(code: u32) -> &'static str
    ensures { result.now ≡ code_in_words code }
{
    match code {
        0 => "Done",
        1 => "TooLong",
        2 => "NoClass",
        3 => "OverLimit",
        4 => "CoDel",
        5 => "FatFlow",
        6 => "Purged",
        10 => "NoParent",
        11 => "Exists",
        12 => "NoQdisc",
        13 => "HandleTaken",
        14 => "NotClassful",
        15 => "NoClass",
        16 => "Busy",
        17 => "CannotChange",
        18 => "TooDeep",
        19 => "TooMany",
        20 => "SmallBurst",
        21 => "NoFilter",
        30 => "Idle",
        31 => "Later",
        32 => "Nothing",
        33 => "Full",
        40 => "Faulty",
        41 => "NoCommand",
        42 => "OutOfRange",
        43 => "Room",
        44 => "Undone",
        50 => "IsClosed",
        51 => "IsOpen",
        90 => "Memory",
        _ => "Unknown",
    }
}

/// The name of a line's fault.
fn fault_name(number: u32) -> &'static str
    ensures value { result.now ≡ fault_in_words number }
    ensures faults { (fault : LineFault) → number ≡ fault_number fault → result.now ≡ fault_name fault }
{
    listed_fault(number)
}

/// The name of a line's fault, by the list.
fn listed_fault(number: u32) -> &'static str
    ensures { result.now ≡ fault_in_words number }
{
    match number {
        1 => "UnknownWord",
        2 => "Missing",
        3 => "BadNumber",
        4 => "OutOfRange",
        5 => "Twice",
        6 => "BadUtf8",
        _ => "Unknown",
    }
}

/// The name of a kind of qdisc, as tc has it.
fn kind_name(kind: u32) -> &'static str
    ensures { result.now ≡ kind_in_words kind }
{
    match kind {
        1 => "pfifo",
        2 => "bfifo",
        3 => "prio",
        4 => "tbf",
        5 => "drr",
        6 => "fq_codel",
        _ => "unknown",
    }
}

//! Why a line was not done, in words for its writer.
ghost use Rattle.std.specs.Prelude.{◌≡◌, ◌≢◌, ◌↔◌, IfOk, IfErr, IsSome};
ghost use Rattle.std.specs.Io.BufRead.{strip_last};
ghost use Rattle.q_line.specs.Grammar.{line_of};
ghost use Rattle.q_model.specs.Refusal.{refusal_number};
ghost use Rattle.q_model.specs.declared.refusal.Refusal.{Refusal as Refused};
ghost use Rattle.q_words.specs.declared.line_fault.LineFault.{LineFault as Faulty};
ghost use Rattle.qtree_c.specs.device.Lines.{fault_of};
ghost use Rattle.qtree_c.specs.events.Scripts.{IsUnwritten};
ghost use Rattle.qtree_c.specs.show.Explaining.{fault_at, refusal_at, IsExplained, IsOther, IsSomeText};

use crate::abi::c_fault::CFault;
use crate::abi::codes::{FAULTY, MEMORY, NO_COMMAND, OUT_OF_RANGE};
use crate::device::lines::without_newline;
use crate::events::scripts::lend;
use q_explain::{explain_fault, explain_other, explain_refusal};
use q_line::{Line, LineFault, read_line};
use q_model::Refusal;
use std::alloc::Global;

/// The line, a mark under the word at which it failed, and a sentence on what to do, of what `qtree_command` answered on the line.
#[unsafe(no_mangle)]
pub extern "C" fn qtree_explain(
    alloc: Global,
    line: &[u8],
    number: u64,
    code: u32,
    fault: &CFault,
    text: &mut [u8],
    needed: &mut usize,
) -> u32
    ensures explained { result ≢ 42 → IsExplained code fault.now (line_of (strip_last 10 line.now)) }
    ensures text { result ≢ 42 → result ≢ 90 → IsSomeText result needed.new text.old text.new }
    ensures out_of_range { result ≡ 42 → IsUnwritten 42 result needed.new text.old text.new }
    ensures memory { result ≡ 90 → IsUnwritten 90 result needed.new text.old text.new }
    ensures refusals { (r : Refused) → code ≡ refusal_number r → result ≢ 42 }
    ensures faults { (f : Faulty) → code ≡ 40 → fault.now ≡ fault_of f → result ≢ 42 }
    ensures others { code ≡ 41 → IsOther (line_of (strip_last 10 line.now)) → result ≢ 42 }
{
    *needed = 0;
    match told(alloc, without_newline(line), number, code, fault) {
        Ok(told) => lend(told.as_bytes(), text, needed),
        Err(why) => why,
    }
}

/// The text, of a line without a newline.
///
/// # Errors
///
/// `OUT_OF_RANGE` where there is nothing to explain, `MEMORY` if an allocation fails.
fn told(alloc: Global, line: &[u8], number: u64, code: u32, fault: &CFault) -> Result<String, u32>
    ensures explained { IfOk result (λ _. IsExplained code fault.now (line_of line.now)) }
    ensures memory { IfErr result (λ why. why ≢ 42 → (why ≡ 90) × IsExplained code fault.now (line_of line.now)) }
    ensures refusals { IfErr result (λ why. (r : Refused) → code ≡ refusal_number r → why ≢ 42) }
    ensures faults { IfErr result (λ why. (f : Faulty) → code ≡ 40 → fault.now ≡ fault_of f → why ≢ 42) }
    ensures others { IfErr result (λ why. code ≡ 41 → IsOther (line_of line.now) → why ≢ 42) }
{
    let explained = if code == FAULTY {
        let Some(found) = fault_at(fault) else {
            return Err(OUT_OF_RANGE);
        };
        explain_fault(alloc, number, line, found)
    } else if code == NO_COMMAND {
        let Some(sentence) = other_sentence(line) else {
            return Err(OUT_OF_RANGE);
        };
        explain_other(alloc, number, line, sentence)
    } else {
        let Some(refusal) = refusal_at(code) else {
            return Err(OUT_OF_RANGE);
        };
        explain_refusal(alloc, number, line, refusal)
    };
    match explained {
        Ok(text) => Ok(text),
        Err(_) => Err(MEMORY),
    }
}

/// What a line that is no command is, and which call does what it asks for; `None` for a command and for a line with a fault.
fn other_sentence(line: &[u8]) -> Option<&'static str>
    ensures { IsSome result ↔ IsOther (line_of line.now) }
{
    match read_line(line) {
        Ok(Line::Blank) => Some(blank_sentence(line)),
        Ok(Line::Show(_)) => Some(
            "this line asks for a text and changes no tree. qtree_show writes that text (in Rust Device::show).",
        ),
        Ok(Line::At(_)) => Some(
            "this line of a script sets the time. A program passes the time to each call, as its argument now.",
        ),
        Ok(Line::Pkt(_)) => Some(
            "this line of a script brings a packet. A program calls qtree_arrive for that (in Rust Device::arrive).",
        ),
        Ok(Line::Frame { .. }) => Some(
            "this line of a script brings a packet by its first bytes. A program calls qtree_arrive_frame for that (in Rust Device::arrive_frame).",
        ),
        Ok(Line::Poll(_)) => Some(
            "this line of a script polls. A program calls qtree_poll for that (in Rust Device::poll).",
        ),
        Ok(Line::Reap) => Some(
            "this line of a script asks for the losses. A program calls qtree_reap for that (in Rust Device::losses).",
        ),
        Ok(Line::Totals) => Some(
            "this line of a script asks for the counters of the device. A program calls qtree_totals for that (in Rust Device::totals).",
        ),
        Ok(Line::Tc(_)) | Err(_) => None,
    }
}

/// What a line is that asks for nothing.
fn blank_sentence(line: &[u8]) -> &'static str {
    if line.contains(&b'#') {
        "this line is a comment and changes no tree. A program that reads its lines from a file goes on with the next one."
    } else {
        "this line is empty and changes no tree. A program that reads its lines from a file goes on with the next one."
    }
}

/// The refusal of this number.
fn refusal_at(code: u32) -> Option<Refusal>
    ensures { result ≡ refusal_at code }
{
    match code {
        10 => Some(Refusal::NoParent),
        11 => Some(Refusal::Exists),
        12 => Some(Refusal::NoQdisc),
        13 => Some(Refusal::HandleTaken),
        14 => Some(Refusal::NotClassful),
        15 => Some(Refusal::NoClass),
        16 => Some(Refusal::Busy),
        17 => Some(Refusal::CannotChange),
        18 => Some(Refusal::TooDeep),
        19 => Some(Refusal::TooMany),
        20 => Some(Refusal::SmallBurst),
        21 => Some(Refusal::NoFilter),
        90 => Some(Refusal::Memory),
        _ => None,
    }
}

/// The fault that these numbers say.
fn fault_at(fault: &CFault) -> Option<LineFault>
    ensures { result ≡ fault_at fault.now }
{
    match fault.number {
        1 => Some(LineFault::UnknownWord(fault.word)),
        2 => Some(LineFault::Missing(fault.word)),
        3 => Some(LineFault::BadNumber(fault.word)),
        4 => Some(LineFault::OutOfRange(fault.word)),
        5 => Some(LineFault::Twice(fault.word)),
        6 => Some(LineFault::BadUtf8(fault.word)),
        _ => None,
    }
}

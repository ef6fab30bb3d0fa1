use q_explain::{Remark, explain_fault, explain_refusal, explain_remark};
use q_session::{LineNote, NotedLine, Notes};
use q_show::write_whole;
use std::alloc::{AllocError, Global};
use std::io::Write;

/// Explains each line that was noted, and says where one could not be. An error of the writer is not reported, and ends it.
pub fn explain<E: Write>(alloc: Global, notes: &Notes, errors: &mut E) {
    let mut missed = notes.missed();
    for line in notes.lines() {
        match explanation(alloc, line) {
            Ok(text) => {
                if write_whole(errors, text.as_bytes()).is_err() {
                    return;
                }
            }
            Err(_) => missed = missed.saturating_add(1),
        }
    }
    if missed > 0 {
        let _ = writeln!(
            errors,
            "qtree: memory is refused: lines that are not explained: {missed}"
        );
    }
}

/// The text on a line.
fn explanation(alloc: Global, line: &NotedLine) -> Result<String, AllocError> {
    let (number, text) = (line.number, line.text.as_slice());
    match line.note {
        LineNote::Fault(fault) => explain_fault(alloc, number, text, fault),
        LineNote::Refusal(refusal) => explain_refusal(alloc, number, text, refusal),
        LineNote::SmallBurst { mtu } => {
            explain_remark(alloc, number, text, Remark::SmallBurst { mtu })
        }
        LineNote::OtherDevice => explain_remark(alloc, number, text, Remark::OtherDevice),
    }
}

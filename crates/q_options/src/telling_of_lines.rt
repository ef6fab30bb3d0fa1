//! What the error output says of lines that were not done, behind a report.
ghost use Rattle.std.specs.Prelude.{◌≡◌, ◌++◌, List, ℕ, false};
ghost use Rattle.q_options.specs.Answer.{IsCounted, counted_line};

use crate::explaining::explain;
use q_session::Notes;
use q_show::{Text, write_whole};
use std::alloc::Global;
use std::io::Write;

/// The status of a whole report.
const CLEAN: u8 = 0;

/// The status of a whole report in which a line had a fault or was refused.
const REFUSED: u8 = 1;

/// Notes of lines, which are kept where they are to be explained.
pub fn notes_for(alloc: Global, explains: bool) -> Notes {
    if explains {
        Notes::keeping(alloc)
    } else {
        Notes::counting(alloc)
    }
}

/// Says of the lines behind a report with this status what was noted: where that is asked for, what explains each; else how many were not
/// done.
pub fn tell_lines<E: Write>(
    alloc: Global,
    explains: bool,
    status: u8,
    notes: &Notes,
    errors: &mut E,
)
    ensures fault { status ≡ 2 → E.contents errors.new ≡ E.contents errors.old }
    ensures clean { explains ≡ false → status ≡ 0 → E.contents errors.new ≡ E.contents errors.old }
    ensures counted { explains ≡ false → status ≡ 1 → IsCounted notes.now (E.contents errors.old) (E.contents errors.new) }
{
    match (explains, status) {
        (true, CLEAN | REFUSED) => explain(alloc, notes, errors),
        (false, REFUSED) => tell_count(notes.not_done(), errors),
        _ => {}
    }
}

/// Writes the line that says how many lines were not done, where there are any. An error of this writer is not reported.
fn tell_count<E: Write>(lines: u64, errors: &mut E)
    ensures { IsCounted lines (E.contents errors.old) (E.contents errors.new) }
{
    if lines > 0 {
        let _ = write_whole(errors, count_line(lines).as_bytes());
    }
}

/// That line, which names the option that explains them.
fn count_line(lines: u64) -> Text
    ensures { result ≡ counted_line lines }
{
    let mut text = Text::new();
    text.put(b"qtree: lines that were not done: ");
    text.put_number(lines);
    text.put(b"; --explain says why\n");
    text
}

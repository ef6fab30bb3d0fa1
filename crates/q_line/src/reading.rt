ghost use Rattle.std.specs.Prelude.{◌≡◌, suc};
ghost use Rattle.q_words.specs.Words.{words_in};
ghost use Rattle.q_line.specs.Grammar.{line_of, rest_of};
ghost use Rattle.q_line.specs.Positions.{at, first, poll};

use crate::frame::frame_line;
use crate::line::Line;
use crate::packet::pkt_line;
use crate::tc::tc_line;
use crate::words::Words;
use q_packet::Moment;
use q_words::{LineFault, number};

/// The most polls that one line may ask for.
const MAX_POLLS: u64 = 100_000;

/// Reads one line of a script. `line` has its bytes, without the newline. Allocates nothing.
///
/// # Errors
///
/// Returns the leftmost fault of the line: what is wrong, and the index of the word that is wrong, counted from 1.
pub fn read_line(line: &[u8]) -> Result<Line, LineFault>
    ensures { result ≡ line_of line.now }
{
    let mut words = Words::new(line);
    if words.is_blank_line() {
        return Ok(Line::Blank);
    }
    first_word(&mut words)
}

/// The first word of a line that says something.
#[inline(always)]
fn first_word(words: &mut Words) -> Result<Line, LineFault>
    ensures { result ≡ rest_of first (suc words.old.taken) (words_in words.old.rest.now) }
{
    match words.needed()? {
        "pkt" => pkt_line(words),
        "frame" => frame_line(words),
        "poll" => poll_line(words),
        "at" => at_line(words),
        "tc" => tc_line(words),
        "reap" => words.ended(Line::Reap),
        "totals" => words.ended(Line::Totals),
        _ => Err(words.unknown()),
    }
}

/// Behind `at`: N, nanoseconds.
#[inline(always)]
fn at_line(words: &mut Words) -> Result<Line, LineFault>
    ensures { result ≡ rest_of at (suc words.old.taken) (words_in words.old.rest.now) }
{
    let word = words.needed()?;
    let ns = words.placed(number(word.as_bytes(), 0, Moment::MAX))?;
    let moment = Moment::new(ns).unwrap();
    words.ended(Line::At(moment))
}

/// Behind `poll`: N, which is 1 where it is not there.
#[inline(always)]
fn poll_line(words: &mut Words) -> Result<Line, LineFault>
    ensures { result ≡ rest_of poll (suc words.old.taken) (words_in words.old.rest.now) }
{
    let Some(word) = words.next()? else {
        return Ok(Line::Poll(1));
    };
    let polls = words.placed(number(word.as_bytes(), 1, MAX_POLLS))? as u32;
    words.ended(Line::Poll(polls))
}

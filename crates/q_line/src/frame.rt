ghost use Rattle.std.specs.Prelude.{◌≡◌, suc};
ghost use Rattle.q_words.specs.Words.{words_in};
ghost use Rattle.q_line.specs.Grammar.{rest_of};
ghost use Rattle.q_line.specs.Positions.{frame};

use crate::line::Line;
use crate::words::Words;
use q_words::{LineFault, frame_head, number};

/// Behind `frame`: LEN, bytes, and HEX, the first of them.
pub fn frame_line(words: &mut Words) -> Result<Line, LineFault>
    ensures { result ≡ rest_of frame (suc words.old.taken) (words_in words.old.rest.now) }
{
    let word = words.needed()?;
    let len = words.placed(number(word.as_bytes(), 1, u64::from(u16::MAX)))? as u16;
    let word = words.needed()?;
    let head = words.placed(frame_head(word.as_bytes()))?;
    words.ended(Line::Frame { len, head })
}

use crate::draft::Draft;
use crate::fault_sentence::push_fault;
use crate::line_words::{LineWords, behind, first_word};
use crate::marked::push_marked;
use crate::refusal_sentence::refusal_sentence;
use crate::refused_word::{candidates, marked_word};
use crate::remark::Remark;
use crate::spot::Spot;
use crate::word::Word;
use q_model::Refusal;
use q_words::LineFault;
use std::alloc::{AllocError, Global};

/// The line of this number, which has no newline and `read_line` reads with this fault; a mark under the word that has it; and
/// a sentence that says what may be there or what is missing. Each ends with a newline. Of a longer line 200 bytes are
/// shown, and what is no text is written as `\xNN`.
///
/// # Errors
///
/// `AllocError` if the allocation for the text fails.
pub fn explain_fault(
    alloc: Global,
    number: u64,
    line: &[u8],
    fault: LineFault,
) -> Result<String, AllocError> {
    let line = trimmed(line);
    let mut words = LineWords::new(line);
    let spot = Spot::behind(alloc, &mut words, fault.word().saturating_sub(1))?;
    let word = words.next().unwrap_or(behind(line));
    let mut text = Draft::new(alloc);
    push_marked(&mut text, number, line, word);
    push_fault(&mut text, fault, &spot, word.bytes, words);
    text.push("\n");
    text.finish()
}

/// The same for a line without a fault whose command was refused, or for whose packet an allocation failed: a mark under the word to
/// which the refusal belongs, what it means and what to do.
///
/// # Errors
///
/// `AllocError` if the allocation for the text fails.
pub fn explain_refusal(
    alloc: Global,
    number: u64,
    line: &[u8],
    refusal: Refusal,
) -> Result<String, AllocError> {
    let line = trimmed(line);
    let word = marked_word(alloc, line, candidates(refusal))?;
    let head = Spot::behind(alloc, &mut LineWords::new(line), usize::MAX)?.head;
    explained(alloc, number, line, word, refusal_sentence(refusal, head))
}

/// The same of a line that was done, of which there is a remark.
///
/// # Errors
///
/// `AllocError` if the allocation for the text fails.
pub fn explain_remark(
    alloc: Global,
    number: u64,
    line: &[u8],
    remark: Remark,
) -> Result<String, AllocError> {
    let line = trimmed(line);
    let word = marked_word(alloc, line, remark.words())?;
    let mut text = Draft::new(alloc);
    push_marked(&mut text, number, line, word);
    push_remark(&mut text, remark);
    text.finish()
}

/// The same of a line that is no command, with this sentence, and with the mark under its first word.
///
/// # Errors
///
/// `AllocError` if the allocation for the text fails.
pub fn explain_other(
    alloc: Global,
    number: u64,
    line: &[u8],
    sentence: &str,
) -> Result<String, AllocError> {
    let line = trimmed(line);
    explained(alloc, number, line, first_word(line), sentence)
}

/// A line with the mark under a word, and a sentence.
fn explained(
    alloc: Global,
    number: u64,
    line: &[u8],
    word: Word<'_>,
    sentence: &str,
) -> Result<String, AllocError> {
    let mut text = Draft::new(alloc);
    push_marked(&mut text, number, line, word);
    text.push_parts(&[sentence, "\n"]);
    text.finish()
}

/// Adds the sentences on a remark, and the end of their line.
fn push_remark(text: &mut Draft, remark: Remark) {
    match remark {
        Remark::SmallBurst { mtu } => {
            text.push("the burst is below the mtu of ");
            text.push_number(u64::from(mtu));
            text.push(
                " bytes: each packet longer than the burst is lost. Give a burst of the mtu or more.\n",
            );
        }
        Remark::OtherDevice => text.push(
            "a line before this one has another name. A script has one device, and each line is for it, whatever name it has.\n",
        ),
    }
}

/// A line without the blanks behind its last word.
fn trimmed(line: &[u8]) -> &[u8] {
    let mut words = LineWords::new(line);
    let mut end = 0usize;
    for _ in 0..line.len() {
        let Some(word) = words.next() else {
            break;
        };
        end = word.start.saturating_add(word.bytes.len());
    }
    &line[..end.min(line.len())]
}

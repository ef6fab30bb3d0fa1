use crate::cut::Cut;
use crate::draft::Draft;
use crate::quoting::push_shown;
use crate::word::Word;

/// Adds a line by its number, and a line with a mark under one of its words; then what comes before a sentence on it. Without any
/// byte the word is one that is missing behind the line.
pub fn push_marked(text: &mut Draft, number: u64, line: &[u8], word: Word<'_>) {
    let cut = Cut::around(line, word.start, word.bytes.len());
    let from = text.len();
    text.push("line ");
    text.push_number(number);
    text.push_parts(&[": ", dots(cut.begins_later)]);
    let head = text.len().saturating_sub(from);
    let before = push_shown(text, cut.before);
    let columns = push_shown(text, cut.word);
    push_shown(text, cut.behind);
    text.push_parts(&[dots(cut.ends_sooner), "\n"]);
    let gap = usize::from(word.bytes.is_empty());
    text.push_times(" ", head.saturating_add(before).saturating_add(gap));
    text.push_times("^", columns.max(1));
    text.push("\n  ");
}

/// What is shown in the place of bytes that are left out.
fn dots(left_out: bool) -> &'static str {
    if left_out { "..." } else { "" }
}

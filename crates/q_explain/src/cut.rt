/// The most bytes of a line that are shown.
const MOST: usize = 200;

/// What is shown of a line around one of its words.
#[derive(Clone, Copy)]
pub struct Cut<'a> {
    /// Whether bytes before these are left out.
    pub begins_later: bool,
    /// The bytes before the word.
    pub before: &'a [u8],
    /// The word.
    pub word: &'a [u8],
    /// The bytes behind it.
    pub behind: &'a [u8],
    /// Whether bytes behind these are left out.
    pub ends_sooner: bool,
}

impl<'a> Cut<'a> {
    /// What is shown of a line, whose word begins there and has so many bytes: 200 bytes at most, the word's first.
    pub fn around(line: &'a [u8], start: usize, len: usize) -> Cut<'a> {
        let (before, rest) = line.split_at(start.min(line.len()));
        let (word, behind) = rest.split_at(len.min(rest.len()));
        let shown = word.len().min(MOST);
        let room = MOST - shown;
        let left = before
            .len()
            .min((room / 2).max(room - behind.len().min(room)));
        let right = behind.len().min(room - left);
        Cut {
            begins_later: left < before.len(),
            before: &before[before.len() - left..],
            word: &word[..shown],
            behind: &behind[..right],
            ends_sooner: shown < word.len() || right < behind.len(),
        }
    }
}

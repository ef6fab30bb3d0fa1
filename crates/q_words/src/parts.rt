ghost use Rattle.std.specs.Prelude.{◌≡◌, ◌==◌, [], ◌∷◌, MatchOption};
ghost use Rattle.std.specs.List.{slice_split, before_first, after_first, position};
ghost use Rattle.q_words.specs.Parts.{parts_in};

/// The pieces of a word between the bytes that part them, from the left.
#[derive(Clone, Copy)]
pub struct Parts<'a> {
    rest: &'a [u8],
    /// The byte that parts them.
    mark: u8,
    /// Whether the rest is a piece or more.
    more: bool,
}

impl<'a> Parts<'a> {
    /// All pieces of a word: one where the byte is not in it.
    pub fn new(word: &'a [u8], mark: u8) -> Parts<'a>
        ensures { parts_in result ≡ slice_split (λ b. b == mark) word.now }
    {
        Parts {
            rest: word,
            mark,
            more: true,
        }
    }

    /// The next piece; `None` after the last.
    pub fn next(&mut self) -> Option<&'a [u8]>
        ensures { MatchOption result (parts_in self.old ≡ []) (λ part. parts_in self.old ≡ part.now ∷ parts_in self.new) }
    {
        if !self.more {
            return None;
        }
        let word = self.rest;
        match first_mark(word, self.mark) {
            Some(at) => {
                self.rest = &word[at + 1..];
                Some(&word[..at])
            }
            None => {
                self.more = false;
                Some(word)
            }
        }
    }
}

/// The place of the first such byte.
pub fn first_mark(word: &[u8], mark: u8) -> Option<usize>
    ensures { result ≡ position (λ b. b == mark) word.now }
{
    word.iter().position(|byte| *byte == mark)
}

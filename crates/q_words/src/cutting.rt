ghost use Rattle.std.specs.Prelude.{◌≡◌, ◌<◌, ◌≤◌, false, not, ◌∷◌, length, slice_index};
ghost use Rattle.std.specs.List.{position};
ghost use Rattle.q_words.specs.Words.{words_in, is_blank};

/// Whether a byte parts words: a space, a tab or a carriage return.
fn is_blank(byte: u8) -> bool
    ensures { result ≡ is_blank byte }
{
    byte == b' ' || byte == b'\t' || byte == b'\r'
}

/// The place of the first byte of a word.
pub fn first_filled(bytes: &[u8]) -> Option<usize>
    ensures { result ≡ position (λ byte. not (is_blank byte)) bytes.now }
{
    bytes.iter().position(|byte| !is_blank(*byte))
}

/// The place of the first blank.
pub fn first_blank(bytes: &[u8]) -> Option<usize>
    ensures { result ≡ position is_blank bytes.now }
{
    bytes.iter().position(|byte| is_blank(*byte))
}

/// The bytes from the first word on.
pub fn skip_blanks(bytes: &[u8]) -> &[u8]
    ensures words { words_in result.now ≡ words_in bytes.now }
    ensures first { 0 < length result.now → is_blank (slice_index result.now 0) ≡ false }
    ensures shorter { length result.now ≤ length bytes.now }
{
    let start = first_filled(bytes).unwrap_or(bytes.len());
    bytes.split_at(start).1
}

/// The word that the bytes begin with, and the bytes after it.
pub fn cut_word(bytes: &[u8]) -> (&[u8], &[u8])
    requires some { 0 < length bytes.now }
    requires first { is_blank (slice_index bytes.now 0) ≡ false }
    ensures words { words_in bytes.now ≡ result.0.now ∷ words_in result.1.now }
    ensures shorter { length result.1.now < length bytes.now }
{
    let end = first_blank(bytes).unwrap_or(bytes.len());
    bytes.split_at(end)
}

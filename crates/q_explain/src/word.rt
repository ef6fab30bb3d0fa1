/// A word of a line.
#[derive(Clone, Copy)]
pub struct Word<'a> {
    /// The place of its first byte in the line.
    pub start: usize,
    /// Its bytes, at least one.
    pub bytes: &'a [u8],
}

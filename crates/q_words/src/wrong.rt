/// What is wrong with a word by itself, before it is said which word of the line it is.
#[derive(Clone, Copy, PartialEq, Eq, Debug)]
pub enum Wrong {
    /// It fits nowhere in such a line, or not here.
    UnknownWord,
    /// It is not of the form of a number or a handle.
    BadNumber,
    /// It is a number, a handle or a name outside its range.
    OutOfRange,
    /// It is an option that was given before.
    Twice,
    /// It is not UTF-8.
    BadUtf8,
}

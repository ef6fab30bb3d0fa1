use crate::drive_options::DriveOptions;
use crate::play_options::PlayOptions;

/// What the command line asks for.
#[derive(PartialEq, Eq, Debug, Drop)]
pub enum Options {
    /// `qtree play`: a script of a file or of standard input, its report on standard output.
    Play(PlayOptions),
    /// `qtree drive`: tc's lines on standard input, what they and the senders came to on standard output.
    Drive(DriveOptions),
}

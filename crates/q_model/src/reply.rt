use crate::fate::Fate;
use crate::polled::Polled;
use crate::refusal::Refusal;

/// The result of an event.
#[derive(Clone, Copy, PartialEq, Eq, Debug)]
pub enum Reply {
    /// To an arrival.
    Fate(Fate),
    /// To a poll.
    Polled(Polled),
    /// To a command.
    Done(Result<(), Refusal>),
}

//! What holds of every line that is written. A law is the contract of a function that does nothing.
ghost use Rattle.q_spelling.specs.Events.{EventsAreReadBack};

/// The line of an event is read as what the event does: the command, one poll, or the packet but for its port, its number and its
/// buffer. The event's numbers are in their ranges; a packet that is not IP has no addresses, and a command is one that a line gives.
pub fn events_are_read_back()
    ensures { EventsAreReadBack }
{}

//! The numbers that the functions answer beside those of causes (1 to 6) and of refusals (10 to 21).

/// It was done.
pub const DONE: u32 = 0;

/// The poll gives no packet, and none is queued.
pub const IDLE: u32 = 30;

/// The poll gives no packet, though one is queued.
pub const LATER: u32 = 31;

/// No loss waits, there is no such node, there is no such event, or a class is promised nothing.
pub const NOTHING: u32 = 32;

/// The ring of a port has no room.
pub const FULL: u32 = 33;

/// The line is none of the language.
pub const FAULTY: u32 = 40;

/// The line changes no tree.
pub const NO_COMMAND: u32 = 41;

/// An argument is out of its range.
pub const OUT_OF_RANGE: u32 = 42;

/// The memory that the caller lends is too small.
pub const ROOM: u32 = 43;

/// A line of the file is not done, and so none is.
pub const UNDONE: u32 = 44;

/// The device, or the end of a ring, is closed.
pub const IS_CLOSED: u32 = 50;

/// It is open already.
pub const IS_OPEN: u32 = 51;

/// An allocation failed.
pub const MEMORY: u32 = 90;

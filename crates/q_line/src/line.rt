use crate::arrival::Arrival;
use crate::show::Show;
use q_model::Command;
use q_packet::{Head, Moment};

/// What a line of a script says.
#[derive(Clone, Copy, PartialEq, Eq, Debug)]
pub enum Line {
    /// Nothing: the line has no words, or its first word begins with `#`.
    Blank,
    /// A `tc` line that changes the tree.
    Tc(Command),
    /// A `tc` line that shows something: it asks for a text.
    Show(Show),
    /// `at N`: sets the time of the lines that follow, in nanoseconds.
    At(Moment),
    /// `pkt`: a packet arrives, whose fields the line gives.
    Pkt(Arrival),
    /// `frame`: a packet arrives, whose fields are read from its first bytes.
    Frame {
        /// Its length in bytes, 1 to 65535.
        len: u16,
        head: Head,
    },
    /// `poll [N]`: polls the device this many times, 1 to 100000. Without a number it polls once.
    Poll(u32),
    /// `reap`: asks for the losses that were not handed out yet.
    Reap,
    /// `totals`: asks for the counters of the device itself.
    Totals,
}

ghost use Rattle.std.specs.Prelude.{◌<◌, ◌≤◌, ◌^◌};

use crate::commands::qdiscs::Qdiscs;
use q_packet::Moment;
use std::alloc::Global;

/// What a command is planned over: the qdiscs of a tree, what the device lends to new ones (ip-link(8)), their memory, and the time.
#[derive(Clone, Copy)]
pub(crate) struct Planner<'a> {
    pub(crate) qdiscs: Qdiscs<'a>,
    /// The device's mtu in bytes.
    pub(crate) mtu: u16,
    /// The packets of the device's queue.
    pub(crate) txqueuelen: u32,
    pub(crate) alloc: Global,
    pub(crate) moment: Moment,
    ghost positive: { 1 ≤ mtu },
    ghost small: { mtu < 2 ^ 16 },
}

use crate::trees::{UDP, add_class, class, graft, prio, tbf, to_port};
use q_device::Device;
use q_model::{FilterKeys, Kind, Place};

/// The queues of the last traffic class of a pipe.
const QUEUES: [u16; 4] = [1, 2, 3, 4];

/// The port before that from which the packets of the first queue come.
const SOURCE_BEFORE: u16 = 999;

/// The bands of the priorities: one for each of the first three traffic classes, and one for all others.
const TRAFFIC_CLASSES: [u8; 16] = [0, 1, 2, 3, 3, 3, 3, 3, 3, 3, 3, 3, 3, 3, 3, 3];

/// The tree of DPDK's rte_sched, with so many pipes: a tbf for the port, a drr of pipes, and for each pipe a tbf, a prio of four traffic
/// classes and, in the last of them, a drr of four queues.
pub fn sched(device: &mut Device, pipes: u16) -> Option<()> {
    tbf(device, Place::Root, 1)?;
    graft(device, Place::Class(class(1, 1)?), 2, Kind::Drr)?;
    for before in 0..pipes {
        add_pipe(device, before.saturating_add(1))?;
    }
    Some(())
}

/// The pipe of this number, with its class and its filter.
fn add_pipe(device: &mut Device, pipe: u16) -> Option<()> {
    let shaper = pipe.saturating_mul(3).saturating_add(13);
    let bands = shaper.saturating_add(1);
    let last = shaper.saturating_add(2);
    add_class(device, class(2, pipe)?, to_port(pipe))?;
    tbf(device, Place::Class(class(2, pipe)?), shaper)?;
    let below_shaper = Place::Class(class(shaper, 1)?);
    prio(device, below_shaper, bands, 4, TRAFFIC_CLASSES)?;
    graft(device, Place::Class(class(bands, 4)?), last, Kind::Drr)?;
    for queue in QUEUES {
        add_class(device, class(last, queue)?, from_port(queue))?;
    }
    Some(())
}

/// Packets from the port of this queue.
fn from_port(queue: u16) -> FilterKeys {
    FilterKeys {
        ip_proto: Some(UDP),
        src_ip: None,
        dst_ip: None,
        src_port: Some(SOURCE_BEFORE.saturating_add(queue)),
        dst_port: None,
    }
}

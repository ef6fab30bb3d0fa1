use q_device::Device;
use q_model::{Row, Totals};
use q_packet::Moment;
use q_session::{show_classes, show_filters, show_qdiscs};
use std::alloc::Global;
use std::test::Fail;

/// All that is seen of a device without a change of it, but for the losses that wait: its counters, and
/// what tc's show lines print of qdiscs with theirs, of classes and of filters.
#[derive(Drop)]
pub struct Seen {
    totals: Row,
    clock: Moment,
    events: u64,
    recorded: usize,
    texts: Vec<u8>,
}

impl Seen {
    /// What is seen of a device, at the second try if an allocation fails.
    pub fn of(alloc: Global, device: &Device) -> Result<Seen, Fail> {
        match look(alloc, device) {
            Some(seen) => Ok(seen),
            None => Ok(look(alloc, device).ok_or("refused twice")?),
        }
    }

    /// Whether nothing that is seen differs.
    pub fn is_same(&self, other: &Seen) -> bool {
        self.totals == other.totals
            && self.clock == other.clock
            && self.events == other.events
            && self.recorded == other.recorded
            && self.texts.as_slice() == other.texts.as_slice()
    }
}

// `None` if an allocation fails.
fn look(alloc: Global, device: &Device) -> Option<Seen> {
    let tree = device.tree();
    let mut texts = Vec::new(alloc);
    show_qdiscs(alloc, tree, true, &mut texts).ok()?;
    show_classes(alloc, tree, &mut texts).ok()?;
    show_filters(alloc, tree, &mut texts).ok()?;
    Some(Seen {
        totals: device.totals(),
        clock: device.clock(),
        events: device.events(),
        recorded: device.recorded().len(),
        texts,
    })
}

/// Whether arrived is sent, refused, dropped and queued together, in packets and in bytes.
pub fn adds_up(row: &Row) -> bool {
    row.arrived == sum(&[row.sent, row.refused, row.dropped, row.queued])
}

// In a loop, so that no proof works out the ceiling of each sum.
fn sum(parts: &[Totals]) -> Totals {
    let (mut packets, mut bytes) = (0u64, 0u64);
    for part in parts {
        packets = packets.saturating_add(part.packets);
        bytes = bytes.saturating_add(part.bytes);
    }
    Totals { packets, bytes }
}

ghost use Rattle.std.specs.Prelude.{◌≡◌, ◌≤◌, map, replicate, IfOk};
ghost use Rattle.q_ports.specs.Driven.{packets_of};
ghost use Rattle.q_drive.specs.Loads.{packet_of, AreLoads};

use crate::settings::DriveSettings;
use q_packet::{Ecn, FlowKey, Packet};
use std::alloc::{AllocError, Global};

/// A load for each sender.
pub fn loads(alloc: Global, settings: &DriveSettings) -> Result<Vec<Vec<Packet>>, AllocError>
    ensures { IfOk result (λ loads. AreLoads settings.now settings.now.senders (map packets_of loads.items)) }
{
    settings.ranges();
    let senders = settings.senders();
    let mut loads = Vec::with_capacity(alloc, senders)?;
    for port in 0..senders {
        loads.push_reserved(load(alloc, port as u32, settings.len(), settings.count())?);
    }
    Ok(loads)
}

/// The load of a port: so many packets of this length, with its index for their hash.
fn load(alloc: Global, port: u32, len: u16, count: usize) -> Result<Vec<Packet>, AllocError>
    requires { 1 ≤ len }
    ensures { IfOk result (λ load. load.items ≡ replicate count (packet_of len port)) }
{
    let packet = Packet {
        key: FlowKey::zero(),
        number: 0,
        port: 0,
        buf: 0,
        hash: port,
        len,
        prio: 0,
        ecn: Ecn::NotEct,
    };
    vec![in alloc; packet; count]
}

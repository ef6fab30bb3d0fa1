//! Calls on a device, with what each has to answer: a new device is asked for one after another, and their events are played too.
//!
//! With ample memory no allocation fails. `rt try --test --fail-alloc N` refuses the Nth allocation of each test, and these pass for every N: what
//! could not be done is done again.
use crate::lines::{Ask, Spot, packet};
use q_device::{Device, Event, Fate, Polled, Refusal, Reply, Settings, play};
use q_model::{ClassKind, Handle, QdiscView};
use q_packet::Moment;
use std::alloc::{AllocError, Global};
use std::test::Fail;

/// A call, and what it has to answer.
#[derive(Clone, Copy)]
pub enum Call {
    // The line, its time, and whether it is done.
    Do(Ask, u64, Result<(), Refusal>),
    // The number, the length, the priority and the time of a packet, and what becomes of it.
    Arrive(u64, u16, u8, u64, Fate),
    // The time of a poll, and the number, the length and the priority of the packet that it gives.
    Poll(u64, u64, u16, u8),
    // The time of a poll that gives no packet, since none is queued.
    Idle(u64),
    // The same, though one is queued.
    Later(u64),
    // No loss waits.
    ReapNone,
    // A place in the recorder, and the line and the time there.
    Recorded(usize, Ask, u64),
    // How many events are recorded, and how many there were.
    Events(usize, u64),
    // A node's place in the tree's order, its handle (0 for none), how many bands it has as a prio (0 where it is a pfifo of 100 packets), and how many
    // packets are queued in it. Packets of priority 0 go to the first band, and all others to the second.
    Node(usize, u16, u8, u64),
    // How many nodes there are. The root has no filters.
    Nodes(usize),
    // A node's place in the tree's order, that of a class of a drr in it, and its deficit.
    Deficit(usize, usize, u64),
    // The bytes that arrived in a place, those that were sent and those that were refused there.
    Bytes(Spot, [u64; 3]),
}

impl Call {
    // The event that the call is, if it is one, and the reply to it.
    fn event(&self) -> Option<(Event, Reply)> {
        match *self {
            Call::Do(ask, ns, done) => {
                let event = Event::Command(ask.command()?, Moment::new(ns)?);
                Some((event, Reply::Done(done)))
            }
            Call::Arrive(number, len, prio, ns, fate) => {
                let event = Event::Arrive(packet(number, len, prio)?, Moment::new(ns)?);
                Some((event, Reply::Fate(fate)))
            }
            Call::Poll(ns, number, len, prio) => {
                let polled = Polled::Packet(packet(number, len, prio)?);
                Some((Event::Poll(Moment::new(ns)?), Reply::Polled(polled)))
            }
            Call::Idle(ns) => Some((Event::Poll(Moment::new(ns)?), Reply::Polled(Polled::Idle))),
            Call::Later(ns) => Some((Event::Poll(Moment::new(ns)?), Reply::Polled(Polled::Later))),
            _ => None,
        }
    }

    // Whether a call that is no event answers as it has to.
    fn is_seen(&self, device: &mut Device) -> bool {
        match *self {
            Call::ReapNone => device.reap().is_none(),
            Call::Recorded(i, ask, ns) => match Call::Do(ask, ns, Ok(())).event() {
                Some((event, _)) => device.recorded().get(i) == Some(&event),
                None => false,
            },
            Call::Events(recorded, events) => {
                device.recorded().len() == recorded && device.events() == events
            }
            Call::Node(i, major, bands, packets) => match device.tree().node(i) {
                Some(node) => {
                    node.handle == Handle::new(major)
                        && is_qdisc(node.qdisc, bands)
                        && node.row.queued.packets == packets
                }
                None => false,
            },
            Call::Nodes(count) => {
                device.tree().node(count).is_none() && device.tree().filter(0, 0).is_none()
            }
            Call::Deficit(i, j, wanted) => has_deficit(device, (i, j), wanted),
            Call::Bytes(spot, wanted) => bytes(device, spot) == Some(wanted),
            _ => false,
        }
    }
}

// Whether a class of a drr is active with this deficit.
fn has_deficit(device: &Device, (i, j): (usize, usize), wanted: u64) -> bool {
    match device.tree().class(i, j) {
        Some(class) => match class.kind {
            ClassKind::Drr { deficit, .. } => deficit == Some(wanted),
            _ => false,
        },
        None => false,
    }
}

// The bytes that arrived in a place, those that were sent and those that were refused there.
fn bytes(device: &Device, spot: Spot) -> Option<[u64; 3]> {
    let row = device.stats(spot.place()?)?;
    Some([row.arrived.bytes, row.sent.bytes, row.refused.bytes])
}

// Whether a qdisc is a prio of so many bands, or with 0 a pfifo.
fn is_qdisc(qdisc: QdiscView, wanted: u8) -> bool {
    match qdisc {
        QdiscView::Prio { bands, priomap } => {
            bands == wanted && priomap == [0, 1, 1, 1, 1, 1, 1, 1, 1, 1, 1, 1, 1, 1, 1, 1]
        }
        QdiscView::Pfifo { limit } => wanted == 0 && limit == 100,
        _ => false,
    }
}

// What a device answers to an event.
fn reply(device: &mut Device, event: Event) -> Result<Reply, AllocError> {
    match event {
        Event::Arrive(packet, now) => match device.arrive(packet, now) {
            Ok(fate) => Ok(Reply::Fate(fate)),
            Err(_) => Err(AllocError),
        },
        Event::Poll(now) => Ok(Reply::Polled(device.poll(now))),
        Event::Command(command, now) => match device.command(command, now) {
            Err(Refusal::Memory) => Err(AllocError),
            done => Ok(Reply::Done(done)),
        },
    }
}

// A play that promises nothing: what `play` promises is a whole replay, which would be carried through each proof.
fn replies(alloc: Global, settings: Settings, events: &[Event]) -> Result<Vec<Reply>, AllocError> {
    play(alloc, settings, events)
}

// The events among these calls, for which there is room.
fn add_events(events: &mut Vec<Event>, calls: &[Call]) {
    for call in calls {
        if let Some((event, _)) = call.event() {
            if events.len() < events.capacity() {
                events.push_reserved(event);
            }
        }
    }
}

// The place of the first call that the device does not answer as it has to, or the play with these replies did not; `None` if there is no such call.
fn first_wrong(
    device: &mut Device,
    calls: &[Call],
    replies: &[Reply],
) -> Result<Option<usize>, AllocError> {
    let mut played = 0usize;
    for (place, call) in calls.iter().enumerate() {
        let is_right = match call.event() {
            Some((event, wanted)) => {
                let of_play = replies.get(played);
                played = played.saturating_add(1);
                of_play == Some(&wanted) && reply(device, event)? == wanted
            }
            None => call.is_seen(device),
        };
        if !is_right {
            return Ok(Some(place));
        }
    }
    Ok(if played == replies.len() {
        None
    } else {
        Some(calls.len())
    })
}

// The settings of a pfifo of 100 packets, of at most 1500 bytes each, with a recorder of three events.
fn settings() -> Option<Settings> {
    Settings::new(1500, 100, 3)
}

// What a play of the events among these calls replies.
fn played(alloc: Global, settings: Settings, calls: &[Call]) -> Result<Vec<Reply>, AllocError> {
    let mut events = Vec::with_capacity(alloc, calls.len())?;
    add_events(&mut events, calls);
    replies(alloc, settings, events.as_slice())
}

/// What a play of the events among these calls replies.
pub fn play_calls(alloc: Global, calls: &[Call]) -> Result<Vec<Reply>, Fail> {
    let settings = settings().ok_or("settings")?;
    Ok(played(alloc, settings, calls)?)
}

// The same of a play and a new device.
fn tried(alloc: Global, calls: &[Call]) -> Result<Option<usize>, AllocError> {
    let Some(settings) = settings() else {
        return Ok(Some(0));
    };
    let replies = played(alloc, settings, calls)?;
    let mut device = Device::open(alloc, settings)?;
    first_wrong(&mut device, calls, replies.as_slice())
}

/// Fails at the first call that a new device or a play does not answer as it has to, with its place. If an allocation fails, all is done again.
pub fn called(alloc: Global, calls: &[Call]) -> Result<(), Fail> {
    let wrong = match tried(alloc, calls) {
        Ok(wrong) => wrong,
        Err(_) => tried(alloc, calls)?,
    };
    match wrong {
        None => Ok(()),
        Some(place) => Err(Fail::new(format_args!("call {place}"))),
    }
}

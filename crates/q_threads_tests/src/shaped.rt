//! A tree in which some packets are sent, marked, dropped or refused while others are queued, and packets for it.
use q_device::{
    Burst, ClassId, Command, Ecn, FlowKey, FqCodelOptions, Handle, Kind, Minor, Packet, Place,
    PrioOptions, Rate, TbfLimit,
};
use q_packet::Moment;
use q_ports::Booked;
use std::process::Abort;
use std::sync::ledger::Ledger;
use std::sync::{Mutex, Wait};

/// Makes the tree: a prio whose first band is a tbf of ten bytes a microsecond over an fq_codel of one flow and 1000 packets, late
/// after a microsecond. Its second band has room for no packet.
pub fn set_up<P: Ledger, B: Ledger, R: Wait + Abort>(rt: &R, booked: &Mutex<Booked<P, B>>) {
    let commands = commands().expect(rt, "in range");
    let mut locked = booked.lock(rt);
    for command in &commands {
        assert_eq!(rt; locked.command(*command, Moment::zero()), Ok(()));
    }
}

fn commands() -> Option<[Command; 4]> {
    let bands = PrioOptions::new(2, [0, 1, 1, 1, 1, 1, 1, 1, 1, 1, 1, 1, 1, 1, 1, 1])?;
    let prio = add(Some(Place::Root), 1, Kind::Prio(bands))?;
    let tbf = add(class(1, 1), 2, bucket()?)?;
    let fq_codel = add(class(2, 1), 3, flows()?)?;
    let pfifo = add(class(1, 2), 4, Kind::Pfifo { limit: Some(0) })?;
    Some([prio, tbf, fq_codel, pfifo])
}

fn bucket() -> Option<Kind> {
    let rate = Rate::new(80_000_000)?;
    let burst = Burst::new(1514)?;
    Some(Kind::Tbf {
        rate,
        burst,
        limit: TbfLimit::Bytes(1_000_000),
    })
}

fn flows() -> Option<Kind> {
    let options = FqCodelOptions::new(
        Some(1000),
        Some(1),
        None,
        Some(1_000),
        Some(10_000),
        Some(true),
        None,
    )?;
    Some(Kind::FqCodel(options))
}

fn add(place: Option<Place>, major: u16, kind: Kind) -> Option<Command> {
    let place = place?;
    let handle = Some(Handle::new(major)?);
    Some(Command::QdiscAdd {
        place,
        handle,
        kind,
    })
}

fn class(major: u16, minor: u16) -> Option<Place> {
    let major = Handle::new(major)?;
    let minor = Minor::new(minor)?;
    Some(Place::Class(ClassId { major, minor }))
}

/// Packets of 100 bytes: one that is dropped where it is late, one that is marked then, and one for the second band.
pub fn kinds() -> Option<[Packet; 3]> {
    let dropped = packet(0, Ecn::NotEct)?;
    let marked = packet(0, Ecn::Ect0)?;
    let refused = packet(1, Ecn::NotEct)?;
    Some([dropped, marked, refused])
}

fn packet(prio: u8, ecn: Ecn) -> Option<Packet> {
    Packet::new(7, 5, 0, 100, FlowKey::zero(), 0, prio, ecn)
}

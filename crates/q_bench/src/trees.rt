use crate::pipes::sched;
use q_device::Device;
use q_model::{
    Burst, ClassId, Command, Filter, FilterKeys, FilterPrio, FqCodelOptions, Handle, Kind, Minor,
    Place, PrioOptions, Protocol, Quantum, Rate, TbfLimit,
};
use q_packet::Moment;

/// The bands of the priorities, as Linux has them.
const PRIOMAP: [u8; 16] = [1, 2, 2, 2, 1, 2, 0, 0, 1, 1, 1, 1, 1, 1, 1, 1];

/// The protocol of all packets, UDP.
pub const UDP: u8 = 17;

/// The port before that of the first class.
const PORT_BEFORE: u16 = 4999;

/// The major number before that of the first qdisc of a class.
const MAJOR_BEFORE: u16 = 0x10;

/// The classes of a drr, by their minor numbers.
const CLASSES: [u16; 8] = [1, 2, 3, 4, 5, 6, 7, 8];

/// The prios of the deep tree that have another below them, by their major numbers.
const INNER: [u16; 6] = [1, 2, 3, 4, 5, 6];

/// The disciplines of a tree that is timed.
#[derive(Clone, Copy)]
pub enum Shape {
    Pfifo,
    Prio,
    Tbf,
    DrrOfPfifos,
    FqCodel,
    DrrOfFqCodels,
    Deep,
    Sched,
    SchedOf16,
    PrioOf16,
}

impl Shape {
    /// The disciplines to which the caller of the library gives this number.
    pub fn of(number: u32) -> Option<Shape> {
        match number {
            0 => Some(Shape::Pfifo),
            1 => Some(Shape::Prio),
            2 => Some(Shape::Tbf),
            3 => Some(Shape::DrrOfPfifos),
            4 => Some(Shape::FqCodel),
            5 => Some(Shape::DrrOfFqCodels),
            6 => Some(Shape::Deep),
            7 => Some(Shape::Sched),
            8 => Some(Shape::SchedOf16),
            9 => Some(Shape::PrioOf16),
            _ => None,
        }
    }
}

/// What is set of each fq_codel.
#[derive(Clone, Copy)]
pub struct Tree {
    pub limit: u32,
    pub flows: u32,
    pub drop_batch: u32,
    pub ecn: bool,
}

/// Sets the tree up on a new device; `None` where a command is refused.
pub fn set_up(device: &mut Device, shape: Shape, tree: Tree) -> Option<()> {
    match shape {
        Shape::Pfifo => pfifo(device),
        Shape::Prio => prio(device, Place::Root, 1, 3, PRIOMAP),
        Shape::Tbf => tbf(device, Place::Root, 1),
        Shape::DrrOfPfifos => drr(device),
        Shape::FqCodel => fq_codel(device, Place::Root, 1, tree),
        Shape::DrrOfFqCodels => drr_of_fq_codels(device, tree),
        Shape::Deep => deep(device),
        Shape::Sched => sched(device, 1),
        Shape::SchedOf16 => sched(device, 16),
        Shape::PrioOf16 => prio(device, Place::Root, 1, 16, [15; 16]),
    }
}

fn pfifo(device: &mut Device) -> Option<()> {
    let limit = Some(1_000_000);
    graft(device, Place::Root, 1, Kind::Pfifo { limit })
}

pub fn prio(
    device: &mut Device,
    place: Place,
    major: u16,
    bands: u8,
    priomap: [u8; 16],
) -> Option<()> {
    let options = PrioOptions::new(bands, priomap)?;
    graft(device, place, major, Kind::Prio(options))
}

/// Seven prios, each in the first band of the one above, to which all packets go; with its pfifo the path has eight qdiscs.
fn deep(device: &mut Device) -> Option<()> {
    prio(device, Place::Root, 1, 3, [0; 16])?;
    for major in INNER {
        let place = Place::Class(class(major, 1)?);
        prio(device, place, major.saturating_add(1), 3, [0; 16])?;
    }
    Some(())
}

/// A tbf that is faster than the packets come.
pub fn tbf(device: &mut Device, place: Place, major: u16) -> Option<()> {
    let rate = Rate::new(34_000_000_000)?;
    let burst = Burst::new(1 << 30)?;
    let limit = TbfLimit::Bytes(1 << 30);
    graft(device, place, major, Kind::Tbf { rate, burst, limit })
}

fn fq_codel(device: &mut Device, place: Place, major: u16, tree: Tree) -> Option<()> {
    let options = FqCodelOptions::new(
        Some(tree.limit),
        Some(tree.flows),
        None,
        None,
        None,
        Some(tree.ecn),
        Some(tree.drop_batch),
    )?;
    graft(device, place, major, Kind::FqCodel(options))
}

fn drr_of_fq_codels(device: &mut Device, tree: Tree) -> Option<()> {
    drr(device)?;
    for minor in CLASSES {
        let place = Place::Class(class(1, minor)?);
        fq_codel(device, place, MAJOR_BEFORE.saturating_add(minor), tree)?;
    }
    Some(())
}

pub fn graft(device: &mut Device, place: Place, major: u16, kind: Kind) -> Option<()> {
    do_command(
        device,
        Command::QdiscAdd {
            place,
            handle: Handle::new(major),
            kind,
        },
    )
}

fn do_command(device: &mut Device, command: Command) -> Option<()> {
    match device.command(command, Moment::zero()) {
        Ok(()) => Some(()),
        Err(_) => None,
    }
}

/// A drr of eight classes, with a filter for each by its port.
fn drr(device: &mut Device) -> Option<()> {
    graft(device, Place::Root, 1, Kind::Drr)?;
    for minor in CLASSES {
        add_class(device, class(1, minor)?, to_port(minor))?;
    }
    Some(())
}

/// Adds a class of a drr, with a filter for its packets.
pub fn add_class(device: &mut Device, class: ClassId, keys: FilterKeys) -> Option<()> {
    do_command(
        device,
        Command::ClassAdd {
            parent: class.major,
            class,
            quantum: Quantum::new(1514),
        },
    )?;
    let filter = Filter {
        prio: FilterPrio::new(class.minor.number())?,
        protocol: Protocol::Ip,
        keys,
        minor: class.minor,
    };
    do_command(
        device,
        Command::FilterAdd {
            parent: class.major,
            major: class.major,
            filter,
        },
    )
}

/// Packets to the port of the class with this minor number.
pub fn to_port(minor: u16) -> FilterKeys {
    FilterKeys {
        ip_proto: Some(UDP),
        src_ip: None,
        dst_ip: None,
        src_port: None,
        dst_port: Some(PORT_BEFORE.saturating_add(minor)),
    }
}

pub fn class(major: u16, minor: u16) -> Option<ClassId> {
    Some(ClassId {
        major: Handle::new(major)?,
        minor: Minor::new(minor)?,
    })
}

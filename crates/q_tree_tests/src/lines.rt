//! What the tests ask of a tree or a device: the commands of lines of tc, by numbers alone, and packets.
//!
//! A class has its major and its minor number. Where a number is out of its range there is no command and no packet.
use q_model::{
    Burst, ClassId, Command, Filter, FilterKeys, FilterPrio, FqCodelOptions, Handle, Kind, Minor,
    Place, PrioOptions, Protocol, Quantum, Rate, TbfLimit,
};
use q_packet::{Ecn, FlowKey, Packet};

/// A place of the tree.
#[derive(Clone, Copy)]
pub enum Spot {
    // The line names none.
    None,
    Top,
    Root,
    Class(u16, u16),
}

impl Spot {
    pub fn place(self) -> Option<Place> {
        match self {
            Spot::None => None,
            Spot::Top => Some(Place::Top),
            Spot::Root => Some(Place::Root),
            Spot::Class(major, minor) => Some(Place::Class(class(major, minor)?)),
        }
    }
}

/// A qdisc to make.
#[derive(Clone, Copy)]
pub enum New {
    // The limit in packets.
    Pfifo(Option<u32>),
    // So many bands; a priority has the band of its number, or the last.
    Prio(u8),
    // The limit in packets; there is one flow.
    FqCodel(u32),
    // The burst; the rate is 1 mbit a second, and the limit 10,000 bytes.
    Tbf(u32),
    // A tbf of this rate in bits a second, with this burst; the limit is 5,000 bytes.
    Shaper(u64, u32),
    // It has no classes yet.
    Drr,
}

impl New {
    fn kind(self) -> Option<Kind> {
        match self {
            New::Pfifo(limit) => Some(Kind::Pfifo { limit }),
            New::Prio(bands) => prio(bands),
            New::FqCodel(limit) => {
                let (limit, flows) = (Some(limit), Some(1));
                let options = FqCodelOptions::new(limit, flows, None, None, None, None, None);
                Some(Kind::FqCodel(options?))
            }
            New::Tbf(burst) => tbf(1_000_000, burst, 10_000),
            New::Shaper(rate, burst) => tbf(rate, burst, 5_000),
            New::Drr => Some(Kind::Drr),
        }
    }
}

fn prio(bands: u8) -> Option<Kind> {
    let mut priomap = [0; 16];
    for (i, band) in priomap.iter_mut().enumerate() {
        *band = (i as u8).min(bands.saturating_sub(1));
    }
    Some(Kind::Prio(PrioOptions::new(bands, priomap)?))
}

fn tbf(rate: u64, burst: u32, limit: u32) -> Option<Kind> {
    Some(Kind::Tbf {
        rate: Rate::new(rate)?,
        burst: Burst::new(burst)?,
        limit: TbfLimit::Bytes(limit),
    })
}

/// What a line of tc asks for. A handle or a quantum of 0 is none.
#[derive(Clone, Copy)]
pub enum Ask {
    // Where, the handle (with 0 the device chooses), and what.
    Graft(Spot, u16, New),
    // Where what is changed is, its handle, and what it becomes.
    Change(Spot, u16, New),
    // Where what is removed is, and its handle.
    Prune(Spot, u16),
    // The class, and its quantum.
    AddClass(u16, u16, u32),
    // The same.
    ChangeClass(u16, u16, u32),
    // The class.
    DelClass(u16, u16),
    // The class, and the IP protocol whose packets go there, or all packets do.
    Match(u16, u16, Option<u8>),
    // The handle of a qdisc all of whose filters go: they have the priority 1.
    Unfilter(u16),
}

impl Ask {
    /// The command of the line.
    pub fn command(self) -> Option<Command> {
        match self {
            Ask::Graft(spot, major, new) => Some(Command::QdiscAdd {
                place: spot.place()?,
                handle: Handle::new(major),
                kind: new.kind()?,
            }),
            Ask::Change(spot, major, new) => Some(Command::QdiscChange {
                place: spot.place(),
                handle: Handle::new(major),
                kind: new.kind()?,
            }),
            Ask::Prune(spot, major) => Some(Command::QdiscDel {
                place: spot.place(),
                handle: Handle::new(major),
            }),
            Ask::AddClass(major, minor, quantum) => Some(Command::ClassAdd {
                parent: Handle::new(major)?,
                class: class(major, minor)?,
                quantum: Quantum::new(quantum),
            }),
            Ask::ChangeClass(major, minor, quantum) => Some(Command::ClassChange {
                parent: None,
                class: class(major, minor)?,
                quantum: Quantum::new(quantum),
            }),
            Ask::DelClass(major, minor) => Some(Command::ClassDel {
                parent: None,
                class: class(major, minor)?,
            }),
            Ask::Match(major, minor, proto) => add_filter(class(major, minor)?, proto),
            Ask::Unfilter(major) => Some(Command::FilterDel {
                parent: Handle::new(major)?,
                prio: FilterPrio::new(1)?,
            }),
        }
    }
}

fn class(major: u16, minor: u16) -> Option<ClassId> {
    Some(ClassId {
        major: Handle::new(major)?,
        minor: Minor::new(minor)?,
    })
}

// A filter into this class, for every packet or for those of an IP protocol.
fn add_filter(class: ClassId, ip_proto: Option<u8>) -> Option<Command> {
    Some(Command::FilterAdd {
        parent: class.major,
        major: class.major,
        filter: Filter {
            prio: FilterPrio::new(1)?,
            protocol: Protocol::All,
            keys: FilterKeys {
                ip_proto,
                src_ip: None,
                dst_ip: None,
                src_port: None,
                dst_port: None,
            },
            minor: class.minor,
        },
    })
}

/// The packet with this number, length and priority, which is the number of its IP protocol and its hash too.
pub fn packet(number: u64, len: u16, prio: u8) -> Option<Packet> {
    let key = FlowKey::new(4, prio, 0, 0, 0, 0)?;
    Packet::new(0, number, 0, len, key, u32::from(prio), prio, Ecn::NotEct)
}

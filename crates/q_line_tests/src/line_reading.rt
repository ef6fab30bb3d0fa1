//! What a line of the language is read as, for the tests over tables of lines.
use q_line::{Line, read_line};
use q_model::{Command, FilterKeys, Protocol, Quantum};
use q_packet::{Ecn, FlowKey};
use std::process::Abort;

/// The family, the protocol, the source and the destination, and the ports of a packet.
pub type Flow = (u8, u8, u128, u128, u16, u16);

pub const NO_FLOW: Flow = (0, 0, 0, 0, 0, 0);

/// The numbers of a line. A class has its major and its minor number. Those of a variant are a tuple, whose comparison is proved in std:
/// the prover takes longer for that of a variant with several fields.
#[derive(Clone, Copy, PartialEq, Eq)]
pub enum Says {
    /// A class of a drr: the parent, the class and the quantum.
    Class((u16, (u16, u16), Option<u32>)),
    /// A filter for every packet: the parent, the priority and the class.
    Filter((u16, u16, (u16, u16))),
    At(u64),
    Poll(u32),
    /// The length, the flow, the hash, the priority and the codepoint of a packet.
    Packet((u16, Flow, Option<u32>, u8, Ecn)),
    /// The length of a frame, and what its head says.
    Frame((u16, Flow, u8, Ecn)),
    /// What no row says.
    Other,
}

fn flow_of(key: &FlowKey) -> Flow {
    (
        key.family, key.proto, key.src, key.dst, key.sport, key.dport,
    )
}

const NO_KEYS: FilterKeys = FilterKeys {
    ip_proto: None,
    src_ip: None,
    dst_ip: None,
    src_port: None,
    dst_port: None,
};

fn bytes(quantum: &Option<Quantum>) -> Option<u32> {
    match quantum {
        None => None,
        Some(quantum) => Some(quantum.bytes()),
    }
}

fn command(command: &Command) -> Says {
    match command {
        Command::ClassAdd {
            parent,
            class,
            quantum,
        } => Says::Class((
            parent.major(),
            (class.major.major(), class.minor.number()),
            bytes(quantum),
        )),
        Command::FilterAdd {
            parent,
            major,
            filter,
        } if filter.protocol == Protocol::All && filter.keys == NO_KEYS => Says::Filter((
            parent.major(),
            filter.prio.number(),
            (major.major(), filter.minor.number()),
        )),
        _ => Says::Other,
    }
}

fn said(line: &Line) -> Says {
    match line {
        Line::Tc(it) => command(it),
        Line::At(moment) => Says::At(moment.ns()),
        Line::Poll(count) => Says::Poll(*count),
        Line::Pkt(it) => Says::Packet((it.len, flow_of(&it.key), it.hash, it.prio, it.ecn)),
        Line::Frame { len, head } => Says::Frame((*len, flow_of(&head.key), head.prio, head.ecn)),
        _ => Says::Other,
    }
}

// What a line says, where it is read. This promises nothing: what `read_line` promises is the whole grammar.
fn read(line: &str) -> Option<Says> {
    match read_line(line.as_bytes()) {
        Ok(line) => Some(said(&line)),
        Err(_) => None,
    }
}

fn assert_line(rt: &impl Abort, line: &str, expected: Says) {
    assert!(rt;
        read(line) == Some(expected),
        "{line}: {:?}",
        read_line(line.as_bytes())
    );
}

/// Each line says what is beside it.
pub fn assert_lines(rt: &impl Abort, rows: &[(&str, Says)]) {
    for (line, expected) in rows {
        assert_line(rt, line, *expected);
    }
}

/// Each line says a packet of one byte with the flow beside it, and nothing else.
pub fn assert_flows(rt: &impl Abort, rows: &[(&str, Flow)]) {
    for (line, flow) in rows {
        assert_line(rt, line, Says::Packet((1, *flow, None, 0, Ecn::NotEct)));
    }
}

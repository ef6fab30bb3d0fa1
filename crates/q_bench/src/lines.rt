use crate::checksum;
use q_line::{Arrival, Line, read_line};
use q_model::{ClassId, Command, Filter, FqCodelOptions, IpPrefix, Kind, Place, TbfLimit};
use q_words::LineFault;

/// Reads each line of a text, so many times over. A line ends before the byte at its place in `ends`, where the next begins.
#[unsafe(no_mangle)]
pub extern "C" fn q_bench_read_line(text: &[u8], ends: &[u32], passes: u32) -> u64 {
    let mut sum = 0;
    for _ in 0..passes {
        let mut start = 0;
        for end in ends {
            let end = *end as usize;
            if start > end || end > text.len() {
                return 0;
            }
            sum = checksum::with(sum, summary(&read_line(&text[start..end])));
            start = end;
        }
    }
    sum
}

fn summary(read: &Result<Line, LineFault>) -> u64 {
    match read {
        Ok(Line::At(moment)) => moment.ns(),
        Ok(Line::Pkt(arrival)) => of_packet(arrival),
        Ok(Line::Poll(polls)) => 2 << 60 | u64::from(*polls),
        Ok(Line::Tc(command)) => of_command(command),
        Ok(_) => 4 << 60,
        Err(_) => 6 << 60,
    }
}

fn of_packet(arrival: &Arrival) -> u64 {
    let Arrival {
        len,
        key,
        prio,
        ecn,
        hash,
    } = *arrival;
    let numbers = u64::from(hash.unwrap_or(0)) << 32
        ^ u64::from(ecn.bits()) << 24
        ^ u64::from(prio) << 16
        ^ u64::from(len);
    let kind = u64::from(key.family) << 8 ^ u64::from(key.proto);
    let ports = u64::from(key.sport) << 40 ^ u64::from(key.dport) << 20;
    numbers ^ kind ^ ports ^ of_address(key.src) ^ of_address(key.dst) << 1
}

fn of_address(address: u128) -> u64 {
    checksum::low(address >> 64) ^ checksum::low(address)
}

fn of_command(command: &Command) -> u64 {
    match command {
        Command::QdiscAdd {
            place,
            handle,
            kind,
        } => {
            let handle = match handle {
                Some(handle) => u64::from(handle.major()),
                None => 0,
            };
            of_place(*place) << 4 ^ handle << 40 ^ of_kind(kind)
        }
        Command::FilterAdd {
            parent,
            major,
            filter,
        } => {
            let class = ClassId {
                major: *major,
                minor: filter.minor,
            };
            u64::from(parent.major()) << 48 ^ of_class(class) ^ of_filter(filter)
        }
        _ => 7 << 60,
    }
}

fn of_place(place: Place) -> u64 {
    match place {
        Place::Class(class) => of_class(class),
        _ => 1,
    }
}

fn of_class(class: ClassId) -> u64 {
    u64::from(class.major.major()) << 16 ^ u64::from(class.minor.number())
}

fn of_kind(kind: &Kind) -> u64 {
    match kind {
        Kind::Pfifo { limit } => u64::from(limit.unwrap_or(0)),
        Kind::Bfifo { limit } => 1 << 60 ^ u64::from(limit.unwrap_or(0)),
        Kind::Tbf { rate, burst, limit } => {
            let limit = match limit {
                TbfLimit::Bytes(bytes) => u64::from(*bytes),
                TbfLimit::Latency(latency) => 1 << 59 ^ latency.nanoseconds(),
            };
            2 << 60 ^ rate.bits() << 8 ^ u64::from(burst.bytes()) << 16 ^ limit
        }
        Kind::FqCodel(options) => of_fq_codel(options),
        _ => 4 << 60,
    }
}

fn of_fq_codel(options: &FqCodelOptions) -> u64 {
    let counts = u64::from(options.limit.unwrap_or(0)) << 8
        ^ u64::from(options.flows.unwrap_or(0)) << 32
        ^ u64::from(options.quantum.unwrap_or(0)) << 16
        ^ u64::from(options.drop_batch.unwrap_or(0));
    let times = options.target.unwrap_or(0) ^ options.interval.unwrap_or(0) << 4;
    3 << 60 ^ counts ^ times ^ u64::from(options.ecn.unwrap_or(false)) << 63
}

fn of_filter(filter: &Filter) -> u64 {
    let keys = filter.keys;
    let ports = u64::from(keys.src_port.unwrap_or(0)) << 20 ^ u64::from(keys.dst_port.unwrap_or(0));
    let addresses = of_prefix(keys.src_ip) ^ of_prefix(keys.dst_ip) << 1;
    u64::from(filter.prio.number()) << 32
        ^ u64::from(keys.ip_proto.unwrap_or(0)) << 4
        ^ ports
        ^ addresses
}

fn of_prefix(prefix: Option<IpPrefix>) -> u64 {
    match prefix {
        Some(prefix) => of_address(prefix.address) ^ u64::from(prefix.len) << 36,
        None => 0,
    }
}

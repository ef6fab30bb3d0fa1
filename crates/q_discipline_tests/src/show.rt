//! What show prints of a qdisc, a class or a filter, into writers that take it whole, in bits, or in part.
//! The texts are written by docs/LANGUAGE.md, "Show texts", and docs/TC.md.
use q_fqcodel::Settings;
use q_model::{
    ClassId, ClassKind, ClassView, Filter, FilterKeys, FilterPrio, FilterView, Handle, IpPrefix,
    IpVersion, Minor, NodeView, Place, Protocol, QdiscView, Row, Totals,
};
use q_show::{Text, WriteFault, class_text, filter_text, qdisc_text, write_whole};
use std::alloc::Global;
use std::io::{Error, ErrorKind, Result as IoResult, Write};
use std::process::Abort;
use std::test::Fail;

/// A writer that takes at most `step` bytes a time, and fails once it has no room.
#[derive(Drop)]
struct Sipping {
    written: Vec<u8>,
    step: usize,
    room: usize,
    /// So many writes are interrupted before each that takes bytes.
    interrupts: usize,
    interrupted: usize,
}

impl Sipping {
    fn new(alloc: Global, step: usize, room: usize) -> Sipping {
        Sipping {
            written: Vec::new(alloc),
            step,
            room,
            interrupts: 0,
            interrupted: 0,
        }
    }
}

impl Write for Sipping {
    fn write(&mut self, buf: &[u8]) -> IoResult<usize> {
        if self.interrupted < self.interrupts {
            self.interrupted += 1;
            return Err(Error::from(ErrorKind::Interrupted));
        }
        self.interrupted = 0;
        if self.room == 0 {
            return Err(Error::from(ErrorKind::BrokenPipe));
        }
        let count = buf.len().min(self.step).min(self.room);
        if self.written.extend_from_slice(&buf[..count]).is_err() {
            return Err(Error::from(ErrorKind::OutOfMemory));
        }
        self.room -= count;
        Ok(count)
    }

    fn flush(&mut self) -> IoResult<()> {
        Ok(())
    }
}

fn write_text<W: Write>(writer: &mut W, text: &Text) -> Result<(), WriteFault> {
    write_whole(writer, text.as_bytes())
}

fn totals(packets: u64, bytes: u64) -> Totals {
    Totals { packets, bytes }
}

fn counted() -> Row {
    Row {
        arrived: totals(7, 700),
        sent: totals(1, 60),
        refused: totals(2, 140),
        dropped: totals(3, 400),
        queued: totals(1, 100),
        marked: totals(4, u64::MAX),
    }
}

fn class(major: u16, minor: u16) -> Result<ClassId, &'static str> {
    Ok(ClassId {
        major: Handle::new(major).ok_or("no handle")?,
        minor: Minor::new(minor).ok_or("no minor")?,
    })
}

/// A node with the handle 10: at the root.
fn root(qdisc: QdiscView) -> NodeView {
    NodeView {
        handle: Handle::new(0x10),
        place: Place::Root,
        qdisc,
        row: counted(),
    }
}

const COUNTERS: &str =
    " arrived 7p 700b sent 1p 60b refused 2p 140b dropped 3p 400b queued 1p 100b\n";

const FQ_CODEL: &str =
    "qdisc fq_codel 10: root limit 10240p flows 1024 quantum 1514 target 5000000ns interval 100000000ns ecn drop_batch 1\n";

/// Whether a text is written whole, and is this one.
fn is_written(alloc: Global, text: &Text, line: &str) -> bool {
    let mut written = Vec::new(alloc);
    write_text(&mut written, text) == Ok(()) && written.as_slice() == line.as_bytes()
}

fn assert_text(rt: &impl Abort, alloc: Global, text: &Text, line: &str) {
    assert!(rt; is_written(alloc, text, line), "{line}");
}

/// Checks what is shown of a qdisc without its counters, or with them.
fn assert_shown(rt: &impl Abort, alloc: Global, node: &NodeView, counters: bool, line: &str) {
    assert_text(rt, alloc, &qdisc_text(node, counters), line);
}

fn assert_qdisc(rt: &impl Abort, alloc: Global, node: &NodeView, line: &str) -> Result<(), Fail> {
    assert_shown(rt, alloc, node, false, line);
    let whole = format!(in alloc; "{line}{COUNTERS}")?;
    assert_shown(rt, alloc, node, true, whole.as_str());
    Ok(())
}

#[test]
fn shows_every_kind(rt: HostRuntime) -> Result<(), Fail> {
    let alloc = rt.alloc();
    let priomap = [1, 2, 2, 2, 1, 2, 0, 0, 1, 1, 1, 1, 1, 1, 1, 15];
    for (qdisc, line) in [
        (
            QdiscView::Pfifo { limit: 1000 },
            "qdisc pfifo 10: root limit 1000p\n",
        ),
        (
            QdiscView::Bfifo { limit: u64::MAX },
            "qdisc bfifo 10: root limit 18446744073709551615b\n",
        ),
        (
            QdiscView::Prio { bands: 16, priomap },
            "qdisc prio 10: root bands 16 priomap 1 2 2 2 1 2 0 0 1 1 1 1 1 1 1 15\n",
        ),
        (
            QdiscView::Tbf {
                rate: 1_000_000,
                burst: 1514,
                limit: 0,
            },
            "qdisc tbf 10: root rate 1000000bit burst 1514b limit 0b\n",
        ),
        (QdiscView::Drr, "qdisc drr 10: root\n"),
    ] {
        assert_qdisc(&rt, alloc, &root(qdisc), line)?;
    }
    Ok(())
}

#[test]
fn shows_marks_of_an_fq_codel(rt: HostRuntime) -> Result<(), Fail> {
    let alloc = rt.alloc();
    let node = root(QdiscView::FqCodel(Settings::defaults(1514)));
    let counters =
        " arrived 7p 700b sent 1p 60b refused 2p 140b dropped 3p 400b queued 1p 100b marked 4p 18446744073709551615b\n";
    let whole = format!(in alloc; "{FQ_CODEL}{counters}")?;
    assert_shown(&rt, alloc, &node, true, whole.as_str());
    Ok(())
}

#[test]
fn shows_handles_and_places(rt: HostRuntime) -> Result<(), Fail> {
    let alloc = rt.alloc();
    for (handle, (major, minor), line) in [
        (0, (1, 1), "qdisc drr 0: parent 1:1\n"),
        (0xf, (0xfff, 0x1000), "qdisc drr f: parent fff:1000\n"),
        (0x8001, (0xa, 0xff), "qdisc drr 8001: parent a:ff\n"),
        (
            0xfffe,
            (0xfffe, 0xffff),
            "qdisc drr fffe: parent fffe:ffff\n",
        ),
    ] {
        let node = NodeView {
            handle: Handle::new(handle),
            place: Place::Class(class(major, minor)?),
            qdisc: QdiscView::Drr,
            row: counted(),
        };
        assert_qdisc(&rt, alloc, &node, line)?;
    }
    Ok(())
}

fn drr(quantum: u32, deficit: Option<u64>) -> ClassKind {
    ClassKind::Drr { quantum, deficit }
}

fn assert_class(rt: &impl Abort, alloc: Global, kind: ClassKind, line: &str) -> Result<(), Fail> {
    let view = ClassView {
        class: class(1, 0xa)?,
        kind,
    };
    assert_text(rt, alloc, &class_text(&view), line);
    Ok(())
}

#[test]
fn shows_classes(rt: HostRuntime) -> Result<(), Fail> {
    let alloc = rt.alloc();
    for (kind, line) in [
        (ClassKind::Prio, "class prio 1:a\n"),
        (ClassKind::Tbf, "class tbf 1:a\n"),
        (drr(1514, None), "class drr 1:a quantum 1514 asleep\n"),
        (
            drr(u32::MAX, Some(0)),
            "class drr 1:a quantum 4294967295 active deficit 0\n",
        ),
        (
            drr(1, Some(u64::MAX)),
            "class drr 1:a quantum 1 active deficit 18446744073709551615\n",
        ),
    ] {
        assert_class(&rt, alloc, kind, line)?;
    }
    Ok(())
}

const NO_KEYS: FilterKeys = FilterKeys {
    ip_proto: None,
    src_ip: None,
    dst_ip: None,
    src_port: None,
    dst_port: None,
};

fn filter(prio: u16, protocol: Protocol, keys: FilterKeys) -> Result<FilterView, &'static str> {
    let class = class(0x1f, 2)?;
    Ok(FilterView {
        parent: class.major,
        filter: Filter {
            prio: FilterPrio::new(prio).ok_or("no prio")?,
            protocol,
            keys,
            minor: class.minor,
        },
    })
}

fn assert_filter(rt: &impl Abort, alloc: Global, view: &FilterView, line: &str) {
    assert_text(rt, alloc, &filter_text(view), line);
}

/// The keys of version 4 that a filter may compare.
fn keys_of_version_4() -> FilterKeys {
    FilterKeys {
        ip_proto: Some(17),
        src_ip: IpPrefix::new(IpVersion::V4, 0x0a01_0203, 8),
        dst_ip: IpPrefix::new(IpVersion::V4, 0, 0),
        src_port: Some(0),
        dst_port: Some(65535),
    }
}

/// Addresses of version 6, and no port.
fn keys_of_version_6() -> FilterKeys {
    FilterKeys {
        ip_proto: Some(0xff),
        src_ip: IpPrefix::new(IpVersion::V6, 0x2001_0db8_0000_0000_0000_0000_0000_0001, 64),
        dst_ip: IpPrefix::new(IpVersion::V6, u128::MAX, 128),
        ..NO_KEYS
    }
}

#[test]
fn shows_filters(rt: HostRuntime) -> Result<(), Fail> {
    for (prio, protocol, keys, line) in [
        (
            65535,
            Protocol::All,
            NO_KEYS,
            "filter parent 1f: prio 65535 protocol all classid 1f:2\n",
        ),
        (
            1,
            Protocol::Ip,
            keys_of_version_4(),
            "filter parent 1f: prio 1 protocol ip ip_proto 11 src_ip 10.1.2.3/8 dst_ip 0.0.0.0/0 src_port 0 dst_port 65535 classid 1f:2\n",
        ),
        (
            1,
            Protocol::Ipv6,
            keys_of_version_6(),
            "filter parent 1f: prio 1 protocol ipv6 ip_proto ff src_ip 2001:db8:0:0:0:0:0:1/64 dst_ip ffff:ffff:ffff:ffff:ffff:ffff:ffff:ffff/128 classid 1f:2\n",
        ),
    ] {
        assert_filter(&rt, rt.alloc(), &filter(prio, protocol, keys)?, line);
    }
    Ok(())
}

/// Whether an fq_codel comes whole to a writer that takes so many bytes a time.
fn is_sipped(alloc: Global, node: &NodeView, step: usize) -> bool {
    let mut writer = Sipping::new(alloc, step, usize::MAX);
    writer.interrupts = step.checked_rem(3).unwrap_or(0);
    let wrote = write_text(&mut writer, &qdisc_text(node, false));
    wrote == Ok(()) && writer.written.as_slice() == FQ_CODEL.as_bytes()
}

#[test]
fn writers_that_take_a_few_bytes_a_time(rt: HostRuntime) {
    let node = root(QdiscView::FqCodel(Settings::defaults(1514)));
    for step in 1..FQ_CODEL.len() {
        assert!(rt; is_sipped(rt.alloc(), &node, step), "{step} bytes a time");
    }
}

/// What is answered where that writer has no more room.
const FULL: Result<(), WriteFault> = Err(WriteFault {
    kind: ErrorKind::BrokenPipe,
});

/// Checks that a writer has a front of a text, as long as it can be.
fn assert_front(rt: &impl Abort, mut writer: Sipping, text: &Text, whole: &str) {
    let room = writer.room;
    assert_eq!(rt; write_text(&mut writer, text), FULL);
    assert!(rt; Some(writer.written.as_slice()) == whole.as_bytes().get(..room));
}

fn assert_front_of_qdisc(rt: &impl Abort, alloc: Global, node: &NodeView, room: usize) {
    let text = qdisc_text(node, false);
    assert_front(rt, Sipping::new(alloc, 7, room), &text, FQ_CODEL);
}

#[test]
fn writers_that_fail(rt: HostRuntime) -> Result<(), Fail> {
    let alloc = rt.alloc();
    let node = root(QdiscView::FqCodel(Settings::defaults(1514)));
    for room in 0..FQ_CODEL.len() {
        assert_front_of_qdisc(&rt, alloc, &node, room);
    }
    let view = ClassView {
        class: class(1, 0xa)?,
        kind: ClassKind::Prio,
    };
    let text = class_text(&view);
    assert_front(&rt, Sipping::new(alloc, 4, 6), &text, "class prio 1:a\n");
    let text = filter_text(&filter(1, Protocol::All, NO_KEYS)?);
    assert_front(&rt, Sipping::new(alloc, 4, 6), &text, "filter");
    Ok(())
}

/// A writer whose every write is interrupted. It counts them.
#[derive(Drop)]
struct Interrupted {
    writes: u64,
}

impl Write for Interrupted {
    fn write(&mut self, _: &[u8]) -> IoResult<usize> {
        self.writes = self.writes.wrapping_add(1);
        Err(Error::from(ErrorKind::Interrupted))
    }

    fn flush(&mut self) -> IoResult<()> {
        Ok(())
    }
}

#[test]
fn interrupted_without_end(rt: HostRuntime) {
    let mut writer = Interrupted { writes: 0 };
    assert!(rt;
        write_whole(&mut writer, b"text")
            == Err(WriteFault {
                kind: ErrorKind::Interrupted
            })
    );
    assert!(rt; writer.writes == 16_777_217);
    assert!(rt; write_whole(&mut writer, b"") == Ok(()));
    assert!(rt; writer.writes == 16_777_217);
}

//! Runs whose reader or writer is slow or fails.
use crate::shows::{QDISCS, close, opened, set_up};
use q_device::Device;
use q_options::{play, run};
use q_script::{MAX_LENGTH, Outcome, RunFault, RunSettings, Source};
use q_session::{ShowFault, show_qdiscs};
use q_show::Target;
use std::alloc::Global;
use std::io::{Error, ErrorKind, Read, Result as IoResult, Write};
use std::process::Abort;
use std::test::Fail;

pub const TWO_OF_THREE: &[u8] = b"tc qdisc add dev eth0 root handle 1: pfifo limit 2\n\
      pkt 100\n\
      pkt 200\n\
      pkt 300\n\
      poll 3\n\
      tc -s qdisc show dev eth0\n";

const TWO_OF_THREE_REPORT: &str = "sent 1 100\n\
     sent 2 200\n\
     idle\n\
     qdisc pfifo 1: root limit 2p\n \
     arrived 3p 600b sent 2p 300b refused 1p 300b dropped 0p 0b queued 0p 0b\n";

/// A reader that gives a text and then so many blanks, at most `step` bytes a time.
#[derive(Drop)]
struct Slow<'a> {
    text: &'a [u8],
    blanks: usize,
    step: usize,
    /// The read of this number fails, counted from 0.
    failing: Option<usize>,
    /// So many reads are interrupted before each byte that is given.
    interrupts: usize,
    /// How many reads there were.
    reads: usize,
    interrupted: usize,
}

impl<'a> Slow<'a> {
    fn new(text: &'a [u8], blanks: usize, step: usize) -> Slow<'a> {
        Slow {
            text,
            blanks,
            step,
            failing: None,
            interrupts: 0,
            reads: 0,
            interrupted: 0,
        }
    }
}

impl Read for Slow<'_> {
    fn read(&mut self, buf: &mut [u8]) -> IoResult<usize> {
        let number = self.reads;
        self.reads = number.saturating_add(1);
        if self.failing == Some(number) {
            return Err(Error::from(ErrorKind::ConnectionReset));
        }
        if self.interrupted < self.interrupts {
            self.interrupted += 1;
            return Err(Error::from(ErrorKind::Interrupted));
        }
        self.interrupted = 0;
        let most = self.step.min(buf.len());
        if self.text.is_empty() {
            let count = most.min(self.blanks);
            buf[..count].fill(b' ');
            self.blanks -= count;
            return Ok(count);
        }
        let count = most.min(self.text.len());
        let (given, rest) = self.text.split_at(count);
        buf[..count].copy_from_slice(given);
        self.text = rest;
        Ok(count)
    }
}

/// A writer that has room for so many bytes, and then fails or takes none.
#[derive(Drop)]
pub struct Narrow {
    pub written: Vec<u8>,
    /// How many writes there were.
    writes: usize,
    room: usize,
    fails: bool,
}

impl Narrow {
    pub fn new(alloc: Global, room: usize, fails: bool) -> Narrow {
        Narrow {
            written: Vec::new(alloc),
            writes: 0,
            room,
            fails,
        }
    }

    /// The error of a write that it has no room for.
    fn failure(&self) -> ErrorKind {
        if self.fails {
            ErrorKind::BrokenPipe
        } else {
            ErrorKind::WriteZero
        }
    }
}

impl Write for Narrow {
    fn write(&mut self, buf: &[u8]) -> IoResult<usize> {
        self.writes = self.writes.saturating_add(1);
        if self.room == 0 && self.fails {
            return Err(Error::from(ErrorKind::BrokenPipe));
        }
        let count = buf.len().min(self.room);
        if self.written.extend_from_slice(&buf[..count]).is_err() {
            return Err(Error::from(ErrorKind::OutOfMemory));
        }
        self.room -= count;
        Ok(count)
    }

    fn flush(&mut self) -> IoResult<()> {
        Ok(())
    }
}

/// A run of what a reader has. It promises nothing: what a run promises of its reader and its writer is long, and no test needs it.
fn run_through<R: Read, W: Write>(
    alloc: Global,
    reader: &mut R,
    writer: &mut W,
    settings: RunSettings,
) -> Result<Outcome, RunFault> {
    run(alloc, reader, writer, settings)
}

/// The status of a play with the default settings. It promises nothing: what a play promises is long, and no test needs it.
fn play_through<R: Read, W: Write, E: Write>(
    alloc: Global,
    reader: &mut R,
    writer: &mut W,
    errors: &mut E,
) -> u8 {
    play(
        alloc,
        RunSettings::defaults(),
        &mut Source::new(reader),
        &mut Target::new(writer),
        errors,
    )
}

#[test]
fn readers_that_are_slow(rt: HostRuntime) {
    let alloc = rt.alloc();
    for step in 1..TWO_OF_THREE.len() {
        let mut reader = Slow::new(TWO_OF_THREE, 0, step);
        reader.interrupts = step % 3;
        let mut written = Vec::new(alloc);
        let told = run_through(alloc, &mut reader, &mut written, RunSettings::defaults());
        assert_eq!(rt; told, Ok(Outcome::Clean), "{step} bytes a time");
        assert_eq!(rt;
            written.as_slice(),
            TWO_OF_THREE_REPORT.as_bytes(),
            "{step} bytes a time"
        );
    }
}

// A reader of a byte at a time, each of whose reads fails in turn: from the first to the one that finds the end. There is none
// behind it.
#[test]
fn each_read_fails(rt: HostRuntime) {
    let alloc = rt.alloc();
    let last = TWO_OF_THREE.len();
    for failing in 0..=last + 1 {
        let mut reader = Slow::new(TWO_OF_THREE, 0, 1);
        reader.failing = Some(failing);
        let mut written = Vec::new(alloc);
        let told = run_through(alloc, &mut reader, &mut written, RunSettings::defaults());
        let (want, report) = if failing <= last {
            (Err(RunFault::Read(ErrorKind::ConnectionReset)), "")
        } else {
            (Ok(Outcome::Clean), TWO_OF_THREE_REPORT)
        };
        assert_eq!(rt; told, want, "failing at read {failing}");
        assert_eq!(rt; written.as_slice(), report.as_bytes());
    }
}

/// What the polls of a line report is written together, and not line by line.
#[test]
fn polls_are_written_together(rt: HostRuntime) {
    let alloc = rt.alloc();
    let mut script: &[u8] = b"poll 10000\n";
    let mut writer = Narrow::new(alloc, usize::MAX, false);
    let told = run_through(alloc, &mut script, &mut writer, RunSettings::defaults());
    assert_eq!(rt; told, Ok(Outcome::Clean));
    assert_eq!(rt; writer.written.len(), 50_000);
    assert!(rt; writer.writes <= 20, "{} writes", writer.writes);
}

/// Blanks behind a line of five bytes, each with what a run comes to.
const LENGTHS: &[(usize, Result<Outcome, RunFault>, &str)] = &[
    (MAX_LENGTH - 5, Ok(Outcome::Clean), "idle\n"),
    (MAX_LENGTH - 4, Err(RunFault::TooLong), ""),
];

#[test]
fn scripts_at_the_greatest_length_and_over_it(rt: HostRuntime) {
    let alloc = rt.alloc();
    for (blanks, want, report) in LENGTHS {
        let mut reader = Slow::new(b"poll\n", *blanks, usize::MAX);
        let mut written = Vec::new(alloc);
        let told = run_through(alloc, &mut reader, &mut written, RunSettings::defaults());
        assert_eq!(rt; told, *want);
        assert_eq!(rt; written.as_slice(), report.as_bytes());
    }
}

/// A reader whose every read is interrupted. It counts them.
#[derive(Drop)]
struct Interrupted {
    reads: u64,
}

impl Read for Interrupted {
    fn read(&mut self, _: &mut [u8]) -> IoResult<usize> {
        self.reads = self.reads.wrapping_add(1);
        Err(Error::from(ErrorKind::Interrupted))
    }
}

#[test]
fn interrupted_without_end(rt: HostRuntime) {
    let alloc = rt.alloc();
    let mut reader = Interrupted { reads: 0 };
    let mut written = Vec::new(alloc);
    let told = run_through(alloc, &mut reader, &mut written, RunSettings::defaults());
    assert_eq!(rt; told, Err(RunFault::Read(ErrorKind::Interrupted)));
    assert_eq!(rt; reader.reads, 16_777_218);
    assert!(rt; written.is_empty());
}

/// Runs a script into a writer with this much room, and checks that it has a front of the report, as long as it can be.
fn assert_front(
    rt: &impl Abort,
    alloc: Global,
    script: &[u8],
    report: &[u8],
    room: usize,
    fails: bool,
) {
    let mut reader = script;
    let mut writer = Narrow::new(alloc, room, fails);
    let told = run_through(alloc, &mut reader, &mut writer, RunSettings::defaults());
    let kind = writer.failure();
    assert_eq!(rt; told, Err(RunFault::Write(kind)), "room for {room} bytes");
    assert!(rt;
        Some(writer.written.as_slice()) == report.get(..room),
        "room for {room} bytes"
    );
}

/// Places for bytes of a report of 100,000.
const ROOMS: &[usize] = &[0, 64_000, 65_535, 65_536, 70_000, 99_999];

#[test]
fn writers_that_are_full(rt: HostRuntime) -> Result<(), Fail> {
    let alloc = rt.alloc();
    for room in 0..TWO_OF_THREE_REPORT.len() {
        let report = TWO_OF_THREE_REPORT.as_bytes();
        assert_front(&rt, alloc, TWO_OF_THREE, report, room, false);
        assert_front(&rt, alloc, TWO_OF_THREE, report, room, true);
    }
    let report = b"idle\n".repeat(alloc, 20_000)?;
    for room in ROOMS {
        assert_front(&rt, alloc, b"poll 20000", report.as_slice(), *room, true);
    }
    Ok(())
}

/// Whether a writer that is full fails, and what is reported then.
const TOLD_OF_WRITERS: &[(bool, &str)] = &[
    (true, "qtree: the report cannot be written: Broken pipe\n"),
    (false, "qtree: the report cannot be written: write zero\n"),
];

#[test]
fn failures_are_told(rt: HostRuntime) {
    let alloc = rt.alloc();
    let mut reader = Slow::new(TWO_OF_THREE, 0, 10);
    reader.failing = Some(2);
    let (mut written, mut errors) = (Vec::new(alloc), Vec::new(alloc));
    let status = play_through(alloc, &mut reader, &mut written, &mut errors);
    assert_eq!(rt; status, 2);
    assert!(rt; written.is_empty());
    assert_eq!(rt;
        errors.as_slice(),
        "qtree: the script cannot be read: connection reset\n".as_bytes()
    );

    for (fails, told) in TOLD_OF_WRITERS {
        let mut reader = TWO_OF_THREE;
        let mut writer = Narrow::new(alloc, 10, *fails);
        let mut errors = Vec::new(alloc);
        let status = play_through(alloc, &mut reader, &mut writer, &mut errors);
        assert_eq!(rt; status, 2);
        assert_eq!(rt; errors.as_slice(), told.as_bytes());
    }
}

#[test]
fn show_texts_in_writers_that_are_full(rt: HostRuntime) -> Result<(), Fail> {
    let mut device = opened(rt.alloc())?;
    let answer = set_up(&mut device);
    for room in 0..QDISCS.len() {
        assert_front_shown(&rt, rt.alloc(), &device, room);
    }
    close(device);
    answer
}

/// Shows the qdiscs to a writer with this much room, less than they take, and checks what it has.
fn assert_front_shown(rt: &impl Abort, alloc: Global, device: &Device, room: usize) {
    let mut writer = Narrow::new(alloc, room, room % 2 == 0);
    let told = show_qdiscs(alloc, device.tree(), false, &mut writer);
    let kind = writer.failure();
    assert_eq!(rt; told, Err(ShowFault::Write(kind)), "room for {room} bytes");
    let front = QDISCS.as_bytes().get(..room);
    assert!(rt;
        Some(writer.written.as_slice()) == front,
        "room for {room} bytes"
    );
}

ghost use Rattle.std.specs.Prelude.{◌≡◌, ◌≢◌, ◌<◌, ◌≤◌, ◌+◌, ◌^◌, OnOk, OnErr, IfOk, IfErr, Err, length, take};
ghost use Rattle.std.specs.Io.{WritesAtMost};
ghost use Rattle.std.specs.Io.KnownBytes.{Appends, WriteAppends};
ghost use Rattle.q_show.specs.Writes.{MayWrite, WriteFailed, no_writes, after_bytes, after_interruption, after_failure};
ghost use Rattle.q_show.specs.Written.{AppendsFront};

use crate::write_fault::WriteFault;
use std::io::{ErrorKind, Write};

/// How many writes of one text may be interrupted.
const MAX_INTERRUPTS: u32 = 16_777_216;

/// A writer on which no write is made after one that failed. It keeps how its writes ended.
#[derive(Drop)]
pub struct Target<'a, W> {
    writer: &'a mut W,
    writes: Writes,
}

/// How the writes of a [`Target`](crate::Target) ended.
#[derive(Clone, Copy, PartialEq, Eq, Debug)]
pub struct Writes {
    /// How many bytes of the latest text were taken.
    pub(crate) taken: usize,
    /// How many writes of the latest text were interrupted.
    pub(crate) interrupted: u32,
    /// The kind of the write that failed, `WriteZero` for one that took no byte. An interrupted write is no failure.
    pub(crate) failure: Option<ErrorKind>,
}

impl<'a, W: Write> Target<'a, W> {
    /// A writer on which no write was made.
    pub fn new(writer: &'a mut W) -> Target<'a, W>
        ensures same_writer { result.writer.ghost_name ≡ writer.entry.ghost_name }
        ensures same { result.writer.now ≡ writer.old }
        ensures unused { result.writes ≡ no_writes }
    {
        let writes = Writes {
            taken: 0,
            interrupted: 0,
            failure: None,
        };
        Target { writer, writes }
    }

    /// Writes once: how many bytes the writer took, one or more. A write that takes none is one that failed.
    fn write(&mut self, bytes: &[u8]) -> Result<usize, ErrorKind>
        requires some { 0 < length bytes.now }
        requires room { self.old.writes.taken + length bytes.now < 2 ^ 64 }
        requires going { MayWrite self.old.writes }
        ensures same_writer { self.new.writer.ghost_name ≡ self.old.writer.ghost_name }
        ensures bound { WritesAtMost result bytes.now }
        ensures bytes { WriteAppends (W.contents self.old.writer.now) (W.contents self.new.writer.now) result bytes.now }
        ensures some { IfOk result (λ n. 0 < n) }
        ensures taken { IfOk result (λ n. self.new.writes ≡ after_bytes self.old.writes n) }
        ensures interrupted { result ≡ Err ErrorKind.Interrupted → self.new.writes ≡ after_interruption self.old.writes }
        ensures failed { IfErr result (λ kind. kind ≢ ErrorKind.Interrupted → self.new.writes ≡ after_failure self.old.writes kind) }
    {
        let kind = match self.writer.write(bytes) {
            Ok(0) => ErrorKind::WriteZero,
            Ok(n) => {
                self.writes.taken += n;
                return Ok(n);
            }
            Err(error) => error.kind(),
        };
        if kind == ErrorKind::Interrupted {
            self.writes.interrupted += 1;
        } else {
            self.writes.failure = Some(kind);
        }
        Err(kind)
    }

    /// Writes all the bytes. After an error the writer holds a front of them, and not all, and the last write is the one that
    /// failed.
    ///
    /// An interrupted write is made again, as by Rust's `write_all`; one interrupted write more than 16,777,216 is a failure.
    pub fn write_whole(&mut self, bytes: &[u8]) -> Result<(), WriteFault>
        requires going { MayWrite self.old.writes }
        ensures same_writer { self.new.writer.ghost_name ≡ self.old.writer.ghost_name }
        ensures ok { OnOk result (Appends (W.contents self.old.writer.now) (W.contents self.new.writer.now) bytes.now) }
        ensures err { OnErr result (AppendsFront (W.contents self.old.writer.now) (W.contents self.new.writer.now) bytes.now) }
        ensures whole { OnOk result (self.new.writes.taken ≡ length bytes.now) }
        ensures part { OnErr result (self.new.writes.taken < length bytes.now) }
        ensures taken { Appends (W.contents self.old.writer.now) (W.contents self.new.writer.now) (take self.new.writes.taken bytes.now) }
        ensures few { self.new.writes.interrupted ≤ 16777217 }
        ensures going { OnOk result (MayWrite self.new.writes) }
        ensures failed { IfErr result (λ fault. WriteFailed self.new.writes fault.kind) }
    {
        self.writes.taken = 0;
        self.writes.interrupted = 0;
        let mut rest = bytes;
        while !rest.is_empty() {
            match self.write(rest) {
                Ok(n) => rest = &rest[n..],
                Err(ErrorKind::Interrupted) if self.writes.interrupted <= MAX_INTERRUPTS => {}
                Err(kind) => return Err(WriteFault { kind }),
            }
        }
        Ok(())
    }
}

ghost use Rattle.std.specs.Prelude.{◌≡◌, ◌≢◌, ◌<◌, ◌+◌, ◌^◌, IfOk, IfErr, Err};
ghost use Rattle.std.specs.Io.{ReadsAtMost};
ghost use Rattle.std.specs.Io.KnownBytes.{ReadConsumes};
ghost use Rattle.q_script.specs.Reads.{MayRead, no_reads, after_bytes, after_end, after_interruption, after_failure};

use std::io::{ErrorKind, Read};

/// A reader of which no read is made after one that failed or brought no byte. It keeps how its reads ended.
#[derive(Drop)]
pub struct Source<'a, R> {
    reader: &'a mut R,
    reads: Reads,
}

/// How the reads of a [`Source`](crate::Source) ended.
#[derive(Clone, Copy, PartialEq, Eq, Debug)]
pub struct Reads {
    /// How many reads were made, interrupted ones counted.
    pub(crate) count: u32,
    /// How many of them were interrupted.
    pub(crate) interrupted: u32,
    /// Whether the last one brought no byte: the end.
    pub(crate) ended: bool,
    /// The kind of the read that failed. An interrupted read is no failure.
    pub(crate) failure: Option<ErrorKind>,
}

impl<'a, R: Read> Source<'a, R> {
    /// A reader of which no read was made.
    pub fn new(reader: &'a mut R) -> Source<'a, R>
        ensures same_reader { result.reader.ghost_name ≡ reader.entry.ghost_name }
        ensures same { result.reader.now ≡ reader.old }
        ensures unused { result.reads ≡ no_reads }
    {
        let reads = Reads {
            count: 0,
            interrupted: 0,
            ended: false,
            failure: None,
        };
        Source { reader, reads }
    }

    /// Reads once: how many bytes came, and they themselves at the front of `chunk`, or the kind of the reader's error.
    pub fn read(&mut self, chunk: &mut [u8]) -> Result<usize, ErrorKind>
        requires going { MayRead self.old.reads }
        requires few { self.old.reads.count + 1 < 2 ^ 32 }
        requires few_interrupted { self.old.reads.interrupted + 1 < 2 ^ 32 }
        ensures same_reader { self.new.reader.ghost_name ≡ self.old.reader.ghost_name }
        ensures bound { ReadsAtMost result chunk.new }
        ensures bytes { ReadConsumes (R.remaining self.old.reader.now) (R.remaining self.new.reader.now) result chunk.new }
        ensures some { IfOk result (λ n. 0 < n → self.new.reads ≡ after_bytes self.old.reads) }
        ensures none { IfOk result (λ n. n ≡ 0 → self.new.reads ≡ after_end self.old.reads) }
        ensures interrupted { result ≡ Err ErrorKind.Interrupted → self.new.reads ≡ after_interruption self.old.reads }
        ensures failed { IfErr result (λ kind. kind ≢ ErrorKind.Interrupted → self.new.reads ≡ after_failure self.old.reads kind) }
    {
        let result = self.reader.read(chunk);
        self.reads.count += 1;
        let kind = match result {
            Ok(n) => {
                self.reads.ended = n == 0;
                return Ok(n);
            }
            Err(error) => error.kind(),
        };
        if kind == ErrorKind::Interrupted {
            self.reads.interrupted += 1;
        } else {
            self.reads.failure = Some(kind);
        }
        Err(kind)
    }
}

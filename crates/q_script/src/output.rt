ghost use Rattle.std.specs.Prelude.{◌≡◌, ◌+◌, ◌≤◌, ◌++◌, List, [], ℕ, OnOk, OnErr, IfOk, IfErr, length, decimal};
ghost use Rattle.q_show.specs.Writes.{MayWrite, WriteFailed};
ghost use Rattle.std.specs.Io.KnownBytes.{Appends};
ghost use Rattle.q_show.specs.Written.{AppendsFront, IsBuffered};
ghost use Rattle.q_script.specs.Lengths.{HasRoom, most_step};
ghost use Rattle.q_show.specs.Lengths.{GrowsBy, most_decimal};

use q_show::{Target, WriteFault};
use std::alloc::{AllocError, Global};
use std::io::Write;
use std::marker::Model;

/// The report's text on its way to the writer, in a buffer that is taken once. A contract sees the buffered bytes.
#[derive(Drop)]
pub struct Output {
    buffer: Vec<u8>,
}

/// How many bytes the buffer holds.
const CAPACITY: usize = 65536;

/// How many bytes one step of the report writes at most.
const STEP: usize = 1024;

impl Model for Output {
    ghost use Rattle.std.specs.Prelude.{List, ℕ, ◌≤◌, vec_capacity};
    ghost use Rattle.q_script.specs.Lengths.{capacity};

    ghost Value = { List ℕ };

    ghost view = { λ o. o.buffer.items };

    ghost invariant = { λ o. capacity ≤ vec_capacity o.buffer };
}

impl Output {
    /// An empty buffer.
    pub fn new(alloc: Global) -> Result<Output, AllocError>
        ensures { IfOk result (λ o. o ≡ []) }
    {
        Ok(Output {
            buffer: Vec::with_capacity(alloc, CAPACITY)?,
        })
    }

    /// Adds bytes for which there is room.
    pub fn put(&mut self, bytes: &[u8])
        requires { HasRoom self.old (length bytes.now) }
        ensures text { self.new ≡ self.old ++ bytes.now }
        ensures len { length self.new ≡ length self.old + length bytes.now }
    {
        let Ok(()) = self.buffer.extend_from_slice(bytes) else {
            unreachable!()
        };
    }

    /// Adds a number in decimal digits.
    pub fn put_number(&mut self, n: u64)
        requires { HasRoom self.old most_decimal }
        ensures text { self.new ≡ self.old ++ decimal n }
        ensures short { GrowsBy self.old self.new most_decimal }
    {
        self.put(itoa::Buffer::new().format(n).as_bytes());
    }

    /// Makes room for one step of the report, by writing out what is buffered where there is none.
    pub fn make_room<W: Write>(&mut self, target: &mut Target<'_, W>) -> Result<(), WriteFault>
        requires going { MayWrite target.old.writes }
        ensures same_writer { target.new.writer.ghost_name ≡ target.old.writer.ghost_name }
        ensures room { OnOk result (HasRoom self.new most_step) }
        ensures ok { OnOk result (IsBuffered (W.contents target.old.writer.now) (W.contents target.new.writer.now) self.new self.old) }
        ensures err { OnErr result (AppendsFront (W.contents target.old.writer.now) (W.contents target.new.writer.now) self.old) }
        ensures going { OnOk result (MayWrite target.new.writes) }
        ensures failed { IfErr result (λ fault. WriteFailed target.new.writes fault.kind) }
    {
        if self.buffer.len() > CAPACITY - STEP {
            return self.flush(target);
        }
        Ok(())
    }

    /// Writes all that is buffered. After an error the writer holds a front of it, and not all.
    pub fn flush<W: Write>(&mut self, target: &mut Target<'_, W>) -> Result<(), WriteFault>
        requires going { MayWrite target.old.writes }
        ensures same_writer { target.new.writer.ghost_name ≡ target.old.writer.ghost_name }
        ensures written { OnOk result (Appends (W.contents target.old.writer.now) (W.contents target.new.writer.now) self.old) }
        ensures empty { OnOk result (self.new ≡ []) }
        ensures err { OnErr result (AppendsFront (W.contents target.old.writer.now) (W.contents target.new.writer.now) self.old) }
        ensures whole { OnOk result (target.new.writes.taken ≡ length self.old) }
        ensures going { OnOk result (MayWrite target.new.writes) }
        ensures failed { IfErr result (λ fault. WriteFailed target.new.writes fault.kind) }
    {
        target.write_whole(&self.buffer)?;
        self.buffer.clear();
        Ok(())
    }
}

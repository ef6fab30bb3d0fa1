ghost use Rattle.std.specs.Prelude.{OnOk, OnErr};
ghost use Rattle.std.specs.Io.KnownBytes.{Appends};
ghost use Rattle.q_show.specs.Written.{AppendsFront};

use crate::target::Target;
use std::io::{ErrorKind, Write};

/// A write failed, or was interrupted once too often.
#[derive(Clone, Copy, PartialEq, Eq, Debug)]
pub struct WriteFault {
    /// Its kind: `WriteZero` where the writer took no byte.
    pub kind: ErrorKind,
}

/// Writes all the bytes, as [`Target::write_whole`] does. After an error the writer holds a front of them, and not all.
pub fn write_whole<W: Write>(writer: &mut W, bytes: &[u8]) -> Result<(), WriteFault>
    ensures ok { OnOk result (Appends (W.contents writer.old) (W.contents writer.new) bytes.now) }
    ensures err { OnErr result (AppendsFront (W.contents writer.old) (W.contents writer.new) bytes.now) }
{
    Target::new(writer).write_whole(bytes)
}

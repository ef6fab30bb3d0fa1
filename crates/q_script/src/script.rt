ghost use Rattle.std.specs.Prelude.{◌≡◌, ◌<◌, ◌≤◌, length, IfOk, OnOk, IfSome, IsErrOf, Some, Err};
ghost use Rattle.q_script.specs.Reads.{no_reads, MayRead, IsReadWhole, ReadFailed};

use crate::script_fault::ScriptFault;
use crate::source::Source;
use std::alloc::Global;
use std::io::{ErrorKind, Read};

/// The most bytes that a script may have.
pub const MAX_LENGTH: usize = 16_777_216;

/// The most reads that a script may take, interrupted ones counted: one for each byte, one for the end and one to spare.
const MAX_READS: u32 = 16_777_218;

/// How many bytes a read asks for.
const CHUNK: usize = 65536;

/// Reads a script whole.
///
/// `TooLong` where it has more than [`MAX_LENGTH`] bytes, `Read` where a read fails or more than 16,777,218 are needed, and
/// `Memory` if an allocation fails. An interrupted read is made again.
pub fn read_script<R: Read>(
    alloc: Global,
    source: &mut Source<'_, R>,
) -> Result<Vec<u8>, ScriptFault>
    requires unused { source.old.reads ≡ no_reads }
    ensures same_reader { source.new.reader.ghost_name ≡ source.old.reader.ghost_name }
    ensures script { IfOk result (λ script. IfSome (R.remaining source.old.reader.now) (λ all. script.items ≡ all)) }
    ensures short { IfOk result (λ script. length script.items ≤ 16777216) }
    ensures too_long { IsErrOf result ScriptFault.TooLong → IfSome (R.remaining source.old.reader.now) (λ all. 16777216 < length all) }

    ensures few { source.new.reads.count ≤ 16777218 }
    ensures ok { OnOk result (IsReadWhole source.new.reads) }
    ensures read { (kind : ErrorKind) → result ≡ Err (ScriptFault.Read kind) → ReadFailed source.new.reads kind }
    ensures failed { (kind : ErrorKind) → source.new.reads.failure ≡ Some kind → result ≡ Err (ScriptFault.Read kind) }
    // No read failed, nor came to the end.
    ensures too_long_going { result ≡ Err ScriptFault.TooLong → MayRead source.new.reads }
    ensures memory_going { result ≡ Err ScriptFault.Memory → MayRead source.new.reads }
{
    let mut chunk = vec![in alloc; 0u8; CHUNK].map_err(|_| ScriptFault::Memory)?;
    let mut script = Vec::new(alloc);
    for _ in 0..MAX_READS {
        match source.read(&mut chunk) {
            Ok(0) => return Ok(script),
            Ok(n) if n > MAX_LENGTH - script.len() => return Err(ScriptFault::TooLong),
            Ok(n) => script
                .extend_from_slice(&chunk[..n])
                .map_err(|_| ScriptFault::Memory)?,
            Err(ErrorKind::Interrupted) => {}
            Err(kind) => return Err(ScriptFault::Read(kind)),
        }
    }
    // So many reads of a byte or more would have brought too long a script: some were interrupted.
    Err(ScriptFault::Read(ErrorKind::Interrupted))
}

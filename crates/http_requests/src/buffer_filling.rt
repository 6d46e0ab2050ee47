//! Reads into a buffer, each of which gives at least a byte, the end or a fault.

ghost use Rattle.std.specs.Prelude.{◌≡◌, ◌<◌, ◌≤◌, ℕ, List, ◌++◌, length, take, IfOk, OnErr};
ghost use Rattle.std.specs.Io.KnownBytes.{Consumes, IsAtEnd, Keeps};

use std::io::{self, Read};

/// One read into the buffer after the first `filled` bytes, and how many are filled then.
pub(crate) fn read_once<R: Read>(
    reader: &mut R,
    buffer: &mut [u8],
    filled: usize,
) -> io::Result<usize>
    requires { filled < length buffer.old }
    ensures grows { IfOk result (λ total. (filled ≤ total) × (total ≤ length buffer.old)) }
    ensures bytes { IfOk result (λ total. (piece : List ℕ)
        × (take total buffer.new ≡ take filled buffer.old ++ piece)
        × Consumes (R.remaining reader.old) (R.remaining reader.new) piece) }
    ensures end { IfOk result (λ total. total ≡ filled → IsAtEnd (R.remaining reader.old)) }
    ensures err { OnErr result (Keeps (R.remaining reader.old) (R.remaining reader.new)) }
{
    let count = reader.read(&mut buffer[filled..])?;
    Ok(filled + count)
}

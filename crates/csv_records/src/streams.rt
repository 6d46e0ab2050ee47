//! The reading and the writing of whole streams.

ghost use Rattle.std.specs.Prelude.{◌≡◌, ◌≤◌, ◌+◌, ◌++◌, ℕ, List, IfOk, IfErr, OnOk, OnErr, length};
ghost use Rattle.std.specs.Io.KnownBytes.{Appends};
ghost use Rattle.csv_records.specs.Streams.{InputFits, IsTold, TakesAtMost};

use std::alloc::Global;
use std::io::{Read, Write};
use thiserror::Error;

/// Why a stream was not read.
#[derive(Debug, Drop, Error)]
pub enum InputFault {
    /// A read failed. It is not retried.
    #[error("the input cannot be read")]
    Read,
    /// There are more bytes than may be read.
    #[error("the input is too large")]
    TooLarge,
    /// Memory ran out.
    #[error("out of memory")]
    Memory,
}

/// A write failed or wrote nothing. It is not retried.
#[derive(Debug, Drop, Error)]
#[error("the output cannot be written")]
pub struct WriteFault;

// How many bytes are read at once.
const CHUNK: usize = 4096;

/// Reads to the end, or to one byte past `most` bytes. It never reads more, even where it fails.
pub fn read_input<R: Read>(
    alloc: Global,
    reader: &mut R,
    most: usize,
) -> Result<Vec<u8>, InputFault>
    ensures ok { IfOk result
        (λ bytes. (length bytes.items ≤ most) × IsTold (R.remaining reader.old) bytes.items) }
    ensures err { IfErr result
        (λ f. (text : List ℕ) × IsTold (R.remaining reader.old) text × InputFits most text f) }
    ensures taken { TakesAtMost (most + 1) (R.remaining reader.old) (R.remaining reader.new) }
{
    let mut bytes = Vec::new(alloc);
    let mut chunk = [0u8; CHUNK];
    'reading: while bytes.len() <= most {
        let room = (most - bytes.len()).min(CHUNK - 1) + 1;
        match reader.read(&mut chunk[..room]) {
            Ok(0) => return Ok(bytes),
            Ok(n) => {
                if bytes.extend_from_slice(&chunk[..n]).is_err() {
                    return Err(InputFault::Memory);
                }
            }
            Err(_) => return Err(InputFault::Read),
        }
    }
    Err(InputFault::TooLarge)
}

/// Writes all of the bytes, or, with a fault, a part of them from the first on.
pub fn write_whole<W: Write>(writer: &mut W, bytes: &[u8]) -> Result<(), WriteFault>
    ensures ok { OnOk result (Appends (W.contents writer.old) (W.contents writer.new) bytes.now) }
    ensures err { OnErr result
        ((part rest : List ℕ) × (part ++ rest ≡ bytes.now)
        × Appends (W.contents writer.old) (W.contents writer.new) part) }
{
    let mut at = 0;
    while at < bytes.len() {
        match writer.write(&bytes[at..]) {
            Ok(0) => return Err(WriteFault),
            Ok(n) => at += n,
            Err(_) => return Err(WriteFault),
        }
    }
    Ok(())
}

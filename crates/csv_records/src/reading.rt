//! The reading of a text's records.

ghost use Rattle.std.specs.Prelude.{◌≡◌, ◌≤◌, ◌<◌, ◌++◌, ◌∷◌, [], IfOk, OnOk, OnErr, IsErrOf, IsUtf8, ℕ, List, length, true, false};
ghost use Rattle.csv.specs.Records.{fields_of};
ghost use Rattle.csv_records.specs.RecordTexts.{limit, records_of};

use crate::buffer::RecordBuffer;
use csv::{Reader, ReaderBuilder, StringRecord};
use std::alloc::{AllocError, Global};
use std::marker::Model;
use thiserror::Error;

/// The longest text that is read, in bytes.
pub const LIMIT: usize = 4_194_304;

/// Why a text has no records.
#[derive(Debug, Drop, Error)]
pub enum RecordFault {
    /// More than 4,194,304 bytes.
    #[error("more than 4,194,304 bytes")]
    TooLarge,
    /// The bytes are not valid UTF-8.
    #[error("not UTF-8")]
    NotUtf8,
    /// Memory ran out.
    #[error("out of memory")]
    Memory,
}

// How far a reader has come.
#[derive(Drop)]
enum Stage {
    Reading,
    Ended,
    Failed,
}

/// Reads the records of a text one after the other. Contracts see the list of the records that are
/// left.
#[derive(Drop)]
pub struct RecordReader<'a> {
    rdr: Reader<&'a [u8]>,
    stage: Stage,
}

impl<'a> Model for RecordReader<'a> {
    ghost use Rattle.std.specs.Prelude.{List, ℕ};
    ghost use Rattle.csv_records.specs.ReaderStage.{HoldsReader, records_left};

    ghost Value = { List (List (List ℕ)) };

    ghost view = { λ r. records_left r.stage r.rdr };

    ghost invariant = { λ r. HoldsReader r.stage r.rdr };
}

impl<'a> RecordReader<'a> {
    /// A reader of a text of any length. It does not allocate until it reads.
    pub fn of_text(alloc: Global, text: &'a str) -> RecordReader<'a>
        ensures { result ≡ records_of text.now }
    {
        let rdr = ReaderBuilder::new()
            .has_headers(false)
            .flexible(true)
            .from_reader(alloc, text.as_bytes());
        RecordReader {
            rdr,
            stage: Stage::Reading,
        }
    }

    /// A reader of a text of at most 4,194,304 bytes. `TooLarge` exactly above that, else `NotUtf8`
    /// exactly where the bytes are not valid UTF-8.
    pub fn new(alloc: Global, bytes: &'a [u8]) -> Result<RecordReader<'a>, RecordFault>
        ensures records { IfOk result
            (λ reader. (length bytes.now ≤ limit) × IsUtf8 bytes.now
            × (reader ≡ records_of bytes.now)) }
        ensures too_large { limit < length bytes.now → IsErrOf result RecordFault.TooLarge }
        ensures only_large { IsErrOf result RecordFault.TooLarge → limit < length bytes.now }
        ensures not_utf8 { length bytes.now ≤ limit → ¬ (IsUtf8 bytes.now)
            → IsErrOf result RecordFault.NotUtf8 }
        ensures only_not_utf8 { IsErrOf result RecordFault.NotUtf8
            → (length bytes.now ≤ limit) × ¬ (IsUtf8 bytes.now) }
    {
        if bytes.len() > LIMIT {
            return Err(RecordFault::TooLarge);
        }
        let Ok(text) = std::str::from_utf8(bytes) else {
            return Err(RecordFault::NotUtf8);
        };
        Ok(RecordReader::of_text(alloc, text))
    }

    /// Reads the next record in place of what `into` held, or tells that there is none. One `into`
    /// serves all records of a text. If memory runs out, the reader has no records left.
    pub fn read(&mut self, into: &mut StringRecord) -> Result<bool, AllocError>
        ensures found { IfOk result
            (λ found. found ≡ true → self.old ≡ fields_of into.new ∷ self.new) }
        ensures ended { IfOk result (λ found. found ≡ false → (self.old ≡ []) × (self.new ≡ [])) }
        ensures err { OnErr result (self.new ≡ []) }
    {
        match self.stage {
            Stage::Reading => {}
            Stage::Ended => return Ok(false),
            Stage::Failed => return Err(AllocError),
        }
        // A text in memory is read with no fault but out of memory.
        let Ok(found) = self.rdr.read_record(into) else {
            self.stage = Stage::Failed;
            return Err(AllocError);
        };
        if found {
            return Ok(true);
        }
        self.stage = Stage::Ended;
        Ok(false)
    }
}

/// Adds a copy of a record that was read. If memory runs out, the records stay as they were.
/// It is no call of the buffer, so that a crate that names that type has nothing of `csv` to load.
pub fn push_read(buffer: &mut RecordBuffer, from: &StringRecord) -> Result<(), AllocError>
    ensures ok { OnOk result (buffer.new ≡ buffer.old ++ fields_of from.now ∷ []) }
    ensures err { OnErr result (buffer.new ≡ buffer.old) }
{
    buffer.push_read(from)
}

// Adds the records that a reader has left, or, where it fails, some of them.
fn append_each(
    alloc: Global,
    buffer: &mut RecordBuffer,
    reader: &mut RecordReader<'_>,
) -> Result<(), AllocError>
    ensures ok { OnOk result ((buffer.new ≡ buffer.old ++ reader.old) × (reader.new ≡ [])) }
    ensures err { OnErr result ((some : List (List (List ℕ))) × (buffer.new ≡ buffer.old ++ some)) }
{
    let mut record = StringRecord::new(alloc);
    'reading: while reader.read(&mut record)? {
        buffer.push_read(&record)?;
    }
    Ok(())
}

// Adds all records that a reader has left. If memory runs out, the buffer's records stay as they
// were, and how many the reader has left is not said.
fn append_records(
    alloc: Global,
    buffer: &mut RecordBuffer,
    reader: &mut RecordReader<'_>,
) -> Result<(), AllocError>
    ensures ok { OnOk result ((buffer.new ≡ buffer.old ++ reader.old) × (reader.new ≡ [])) }
    ensures err { OnErr result (buffer.new ≡ buffer.old) }
{
    let count = buffer.len();
    let Ok(()) = append_each(alloc, buffer, reader) else {
        buffer.truncate(count);
        return Err(AllocError);
    };
    Ok(())
}

/// Adds the records of a text of any length. If memory runs out, the buffer's records stay as
/// they were.
pub fn append_text(alloc: Global, buffer: &mut RecordBuffer, text: &str) -> Result<(), AllocError>
    ensures ok { OnOk result (buffer.new ≡ buffer.old ++ records_of text.now) }
    ensures err { OnErr result (buffer.new ≡ buffer.old) }
{
    let mut reader = RecordReader::of_text(alloc, text);
    append_records(alloc, buffer, &mut reader)
}

/// The records of a text of at most 4,194,304 bytes.
pub fn read_records(alloc: Global, bytes: &[u8]) -> Result<RecordBuffer, RecordFault>
    ensures records { IfOk result
        (λ rows. (length bytes.now ≤ limit) × IsUtf8 bytes.now × (rows ≡ records_of bytes.now)) }
    ensures too_large { limit < length bytes.now → IsErrOf result RecordFault.TooLarge }
    ensures only_large { IsErrOf result RecordFault.TooLarge → limit < length bytes.now }
    ensures not_utf8 { length bytes.now ≤ limit → ¬ (IsUtf8 bytes.now)
        → IsErrOf result RecordFault.NotUtf8 }
    ensures only_not_utf8 { IsErrOf result RecordFault.NotUtf8
        → (length bytes.now ≤ limit) × ¬ (IsUtf8 bytes.now) }
{
    let mut reader = RecordReader::new(alloc, bytes)?;
    let mut buffer = RecordBuffer::new(alloc);
    let Ok(()) = append_records(alloc, &mut buffer, &mut reader) else {
        return Err(RecordFault::Memory);
    };
    Ok(buffer)
}

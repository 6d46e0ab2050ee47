//! The parts of a message for standard output: the first of them in memory, those beyond in a file
//! that has no name.

ghost use Rattle.std.specs.Prelude.{◌≡◌, ◌+◌, ◌++◌, ◌&&◌, ℕ, List, [], OnOk, Some, is_some, length, nat_le, not, true};
ghost use Rattle.std.specs.Io.KnownBytes.{Appends};
ghost use Rattle.csv_records.specs.RecordTexts.{limit};
ghost use Rattle.program_files.specs.Texts.{IsWritten, told_texts, with_text};

use crate::fault::FileFault;
use crate::files::NamedFiles;
use csv_records::reading::LIMIT;
use csv_records::streams::{WriteFault, write_whole};
use std::alloc::Global;
use std::io::{Read, Write};

const CHUNK: usize = 8_192;

// Of what a fault speaks that names no file.
const TEMPORARY: &str = "a temporary file";

const STANDARD_OUTPUT: &str = "standard output";

/// The texts of the parts of one FILE.
#[derive(Drop)]
pub struct Spool<'a, F: NamedFiles> {
    alloc: Global,
    files: &'a F,
    leave: &'a F::Leave,
    first: Vec<u8>,
    rest: Option<F::Scratch>,
}

// Writes bytes to standard output.
fn write_part<W: Write>(alloc: Global, output: &mut W, bytes: &[u8]) -> Result<(), FileFault>
    ensures { (written : List ℕ)
        × Appends (W.contents output.old) (W.contents output.new) written
        × IsWritten (Some bytes.now) result written }
{
    match write_whole(output, bytes) {
        Ok(()) => Ok(()),
        Err(WriteFault) => Err(FileFault::new(alloc, STANDARD_OUTPUT, "cannot be written")),
    }
}

// Writes what a reader has left.
fn copy<R: Read, W: Write>(alloc: Global, reader: &mut R, output: &mut W) -> Result<(), FileFault>
    ensures { (written : List ℕ)
        × Appends (W.contents output.old) (W.contents output.new) written
        × IsWritten (R.remaining reader.old) result written }
{
    let mut chunk = [0u8; CHUNK];
    'copying: for _ in 0..u64::MAX {
        let count = match reader.read(&mut chunk) {
            Ok(0) => return Ok(()),
            Ok(count) => count,
            Err(error) => return Err(FileFault::of(alloc, TEMPORARY, &error)),
        };
        write_part(alloc, output, &chunk[..count])?;
    }
    Err(FileFault::new(alloc, TEMPORARY, "has no end"))
}

// Whether so many bytes more have room in memory.
fn has_room(before: usize, more: usize) -> bool
    ensures { result ≡ nat_le (before + more) limit }
{
    before <= LIMIT && more <= LIMIT - before
}

impl<'a, F: NamedFiles> Spool<'a, F> {
    /// No part yet.
    pub fn new(alloc: Global, files: &'a F, leave: &'a F::Leave) -> Spool<'a, F>
        ensures { told_texts result.first.items result.rest ≡ Some [] }
    {
        Spool {
            alloc,
            files,
            leave,
            first: Vec::new(alloc),
            rest: None,
        }
    }

    // Whether a text has room in memory.
    fn has_room(&self, text: &[u8]) -> bool
        ensures { result ≡ (not (is_some self.now.rest)
            && nat_le (length self.now.first.items + length text.now) limit) }
    {
        match &self.rest {
            Some(_) => false,
            None => has_room(self.first.len(), text.len()),
        }
    }

    // Writes to the file, which is made where there is none.
    fn write_rest(&mut self, text: &[u8]) -> Result<(), FileFault>
        ensures first { self.new.first ≡ self.old.first }
        ensures some { OnOk result (is_some self.new.rest ≡ true) }
    {
        let mut file = match self.rest.take() {
            Some(file) => file,
            None => self.files.new_scratch(self.leave)?,
        };
        self.files.append(&mut file, text)?;
        self.rest = Some(file);
        Ok(())
    }

    /// Writes the texts, one after the other.
    pub fn place<W: Write>(self, output: &mut W) -> Result<(), FileFault>
        ensures { (written : List ℕ)
            × Appends (W.contents output.old) (W.contents output.new) written
            × IsWritten (told_texts self.entry.first.items self.entry.rest)
            result written }
    {
        let Spool {
            alloc,
            files,
            first,
            rest,
            ..
        } = self;
        write_part(alloc, output, first.as_slice())?;
        match rest {
            None => Ok(()),
            Some(file) => {
                let mut reader = files.read_scratch(file)?;
                copy(alloc, &mut reader, output)
            }
        }
    }

    /// Keeps the text of the next part.
    pub fn add(&mut self, text: &[u8]) -> Result<(), FileFault>
        ensures { OnOk result
            (told_texts self.new.first.items self.new.rest
            ≡ with_text
            (told_texts self.old.first.items self.old.rest) text.now) }
    {
        if self.has_room(text) {
            self.first.extend_from_slice(text)?;
            return Ok(());
        }
        self.write_rest(text)
    }
}

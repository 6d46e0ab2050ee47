//! Records in one buffer.

ghost use Rattle.std.specs.Prelude.{◌≡◌, ◌≤◌, ◌<◌, ◌-◌, ◌++◌, ◌∷◌, ◌↔◌, [], IsTrue, IfOk, OnOk, OnErr, Some, length, take, drop, map, slice_get};
ghost use Rattle.std.specs.List.{flat_map};
ghost use Rattle.csv.specs.Records.{fields_of};

use crate::ends::{end_of, span};
use crate::fields::FieldBuffer;
use crate::record::Record;
use crate::records::Records;
use csv::StringRecord;
use std::alloc::{AllocError, Global};
use std::marker::Model;

// Ends a record, or removes its fields, which begin at this index.
fn end_record(
    fields: &mut FieldBuffer,
    ends: &mut Vec<usize>,
    start: usize,
) -> Result<(), AllocError>
    ensures ok { OnOk result
        ((fields.new ≡ fields.old) × (ends.new.items ≡ ends.old.items ++ length fields.old ∷ [])) }
    ensures err { OnErr result
        ((fields.new ≡ take start fields.old) × (ends.new.items ≡ ends.old.items)) }
{
    let Ok(()) = ends.push(fields.len()) else {
        fields.truncate(start);
        return Err(AllocError);
    };
    Ok(())
}

/// Records, one after the other in one buffer. Contracts see the list of them.
#[derive(Drop)]
pub struct RecordBuffer {
    fields: FieldBuffer,
    ends: Vec<usize>,
}

impl Model for RecordBuffer {
    ghost use Rattle.std.specs.Prelude.{List, ℕ, length};
    ghost use Rattle.csv_records.specs.Cuts.{cut, AreEnds};

    ghost Value = { List (List (List ℕ)) };

    ghost view = { λ r. cut 0 r.ends.items r.fields };

    ghost invariant = { λ r. AreEnds 0 r.ends.items (length r.fields) };
}

impl RecordBuffer {
    /// No records. It does not allocate.
    pub fn new(alloc: Global) -> RecordBuffer
        ensures { result ≡ [] }
    {
        RecordBuffer {
            fields: FieldBuffer::new(alloc),
            ends: Vec::new(alloc),
        }
    }

    /// No records, with capacity for this many records, fields and bytes.
    pub fn with_capacity(
        alloc: Global,
        records: usize,
        fields: usize,
        bytes: usize,
    ) -> Result<RecordBuffer, AllocError>
        ensures { IfOk result (λ r. r ≡ []) }
    {
        let fields = FieldBuffer::with_capacity(alloc, fields, bytes)?;
        let ends = Vec::with_capacity(alloc, records)?;
        Ok(RecordBuffer { fields, ends })
    }

    /// How many records there are.
    pub fn len(&self) -> usize
        ensures { result ≡ length self.now }
    {
        self.ends.len()
    }

    /// Whether there are none.
    pub fn is_empty(&self) -> bool
        ensures { IsTrue result ↔ (self.now ≡ []) }
    {
        self.len() == 0
    }

    /// Adds a record of these fields. If memory runs out, the records stay as they were.
    pub fn push_fields(&mut self, fields: &[&str]) -> Result<(), AllocError>
        ensures ok { OnOk result (self.new ≡ self.old ++ map (λ f. f.now) fields.now ∷ []) }
        ensures err { OnErr result (self.new ≡ self.old) }
    {
        let start = self.fields.len();
        self.fields.push_all(fields)?;
        end_record(&mut self.fields, &mut self.ends, start)?;
        Ok(())
    }

    /// Adds a copy of a record. If memory runs out, the records stay as they were.
    pub fn push(&mut self, from: &Record<'_>) -> Result<(), AllocError>
        ensures ok { OnOk result (self.new ≡ self.old ++ from.now ∷ []) }
        ensures err { OnErr result (self.new ≡ self.old) }
    {
        let start = self.fields.len();
        self.fields.push_record(from)?;
        end_record(&mut self.fields, &mut self.ends, start)?;
        Ok(())
    }

    // Adds a copy of a record that csv read. If memory runs out, the records stay as they were.
    pub(crate) fn push_read(&mut self, from: &StringRecord) -> Result<(), AllocError>
        ensures ok { OnOk result (self.new ≡ self.old ++ fields_of from.now ∷ []) }
        ensures err { OnErr result (self.new ≡ self.old) }
    {
        let start = self.fields.len();
        self.fields.push_read(from)?;
        end_record(&mut self.fields, &mut self.ends, start)?;
        Ok(())
    }

    /// Removes the records from this index on, counted from 0. It keeps the capacity.
    pub fn truncate(&mut self, count: usize)
        ensures { self.new ≡ take count self.old }
    {
        if count < self.ends.len() {
            let end = end_of(&self.ends, count);
            self.ends.truncate(count);
            self.fields.truncate(end);
        }
    }

    /// The record at an index within range, counted from 0.
    pub fn record(&self, index: usize) -> Record<'_>
        requires { index < length self.now }
        ensures { slice_get self.now index ≡ Some result }
    {
        let (start, end) = span(&self.ends, index);
        Record::of(&self.fields, start, end)
    }

    // The fields of the records from one index to before another, one after the other.
    pub(crate) fn fields_of(&self, start: usize, end: usize) -> Record<'_>
        requires { (start ≤ end) × (end ≤ length self.now) }
        ensures { result ≡ flat_map (λ r. r) (take (end - start) (drop start self.now)) }
    {
        let first = end_of(&self.ends, start);
        let last = end_of(&self.ends, end);
        Record::of(&self.fields, first, last)
    }

    /// All records.
    pub fn as_records(&self) -> Records<'_>
        ensures { result ≡ self.now }
    {
        Records::of(self, 0, self.len())
    }
}

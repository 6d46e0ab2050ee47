//! The fields of one record.

ghost use Rattle.std.specs.Prelude.{◌≡◌, ◌≤◌, ◌<◌, ◌-◌, ◌++◌, ◌∷◌, [], IfOk, OnOk, OnErr, Some, length, take, drop, map, slice_get, option_map};
ghost use Rattle.std.specs.List.{flat_map};
ghost use Rattle.csv.specs.Records.{fields_of};

use crate::ends::{add_ends, end_of, span};
use crate::record::Record;
use csv::StringRecord;
use std::alloc::{AllocError, Global};
use std::marker::Model;

/// Fields, one after the other in one buffer. Contracts see the list of them.
#[derive(Drop)]
pub struct FieldBuffer {
    bytes: Vec<u8>,
    ends: Vec<usize>,
}

impl Model for FieldBuffer {
    ghost use Rattle.std.specs.Prelude.{List, ℕ};
    ghost use Rattle.csv_records.specs.Cuts.{cut, HoldsTexts};

    ghost Value = { List (List ℕ) };

    ghost view = { λ f. cut 0 f.ends.items f.bytes.items };

    ghost invariant = { λ f. HoldsTexts f.ends.items f.bytes.items };
}

impl FieldBuffer {
    /// No fields. It does not allocate.
    pub fn new(alloc: Global) -> FieldBuffer
        ensures { result ≡ [] }
    {
        FieldBuffer {
            bytes: Vec::new(alloc),
            ends: Vec::new(alloc),
        }
    }

    /// No fields, with capacity for this many fields and bytes.
    pub fn with_capacity(
        alloc: Global,
        fields: usize,
        bytes: usize,
    ) -> Result<FieldBuffer, AllocError>
        ensures { IfOk result (λ f. f ≡ []) }
    {
        let bytes = Vec::with_capacity(alloc, bytes)?;
        let ends = Vec::with_capacity(alloc, fields)?;
        Ok(FieldBuffer { bytes, ends })
    }

    /// How many fields there are.
    pub fn len(&self) -> usize
        ensures { result ≡ length self.now }
    {
        self.ends.len()
    }

    /// Adds a field at the end. If memory runs out, the fields stay as they were.
    pub fn push(&mut self, text: &str) -> Result<(), AllocError>
        ensures ok { OnOk result (self.new ≡ self.old ++ text.now ∷ []) }
        ensures err { OnErr result (self.new ≡ self.old) }
    {
        let size = self.bytes.len();
        self.bytes.extend_from_slice(text.as_bytes())?;
        let end = self.bytes.len();
        let Ok(()) = self.ends.push(end) else {
            self.bytes.truncate(size);
            return Err(AllocError);
        };
        Ok(())
    }

    /// Adds these fields at the end, all of them, or none if memory runs out.
    pub fn push_all(&mut self, fields: &[&str]) -> Result<(), AllocError>
        ensures ok { OnOk result (self.new ≡ self.old ++ map (λ f. f.now) fields.now) }
        ensures err { OnErr result (self.new ≡ self.old) }
    {
        let count = self.len();
        for text in fields {
            let Ok(()) = self.push(text) else {
                self.truncate(count);
                return Err(AllocError);
            };
        }
        Ok(())
    }

    /// Adds the fields of a record at the end, all of them, or none if memory runs out.
    pub fn push_record(&mut self, from: &Record<'_>) -> Result<(), AllocError>
        ensures ok { OnOk result (self.new ≡ self.old ++ from.now) }
        ensures err { OnErr result (self.new ≡ self.old) }
    {
        from.copy_to(self)
    }

    // Adds the fields of another buffer from one index to before another, all of them, or none
    // if memory runs out. Their bytes are copied at once.
    pub(crate) fn push_part(
        &mut self,
        from: &FieldBuffer,
        start: usize,
        end: usize,
    ) -> Result<(), AllocError>
        requires { (start ≤ end) × (end ≤ length from.now) }
        ensures ok { OnOk result (self.new ≡ self.old ++ take (end - start) (drop start from.now)) }
        ensures err { OnErr result (self.new ≡ self.old) }
    {
        let first = end_of(&from.ends, start);
        let last = end_of(&from.ends, end);
        let size = self.bytes.len();
        self.bytes
            .extend_from_slice(&from.bytes.as_slice()[first..last])?;
        let ends = &from.ends.as_slice()[start..end];
        let Ok(()) = add_ends(&mut self.ends, ends, first, size) else {
            self.bytes.truncate(size);
            return Err(AllocError);
        };
        Ok(())
    }

    // Adds the fields of a record that csv read, all of them, or none if memory runs out.
    pub(crate) fn push_read(&mut self, from: &StringRecord) -> Result<(), AllocError>
        ensures ok { OnOk result (self.new ≡ self.old ++ fields_of from.now) }
        ensures err { OnErr result (self.new ≡ self.old) }
    {
        let count = self.len();
        for i in 0..from.len() {
            if let Some(text) = from.get(i) {
                let Ok(()) = self.push(text) else {
                    self.truncate(count);
                    return Err(AllocError);
                };
            }
        }
        Ok(())
    }

    /// Removes the fields from this index on, counted from 0. It keeps the capacity.
    pub fn truncate(&mut self, count: usize)
        ensures { self.new ≡ take count self.old }
    {
        if count < self.ends.len() {
            let end = end_of(&self.ends, count);
            self.ends.truncate(count);
            self.bytes.truncate(end);
        }
    }

    /// Removes all fields. It keeps the capacity.
    pub fn clear(&mut self)
        ensures { self.new ≡ [] }
    {
        self.truncate(0);
    }

    /// The field at an index, counted from 0.
    pub fn get(&self, index: usize) -> Option<&str>
        ensures { option_map (λ s. s.now) result ≡ slice_get self.now index }
    {
        if index >= self.len() {
            return None;
        }
        Some(self.at(index))
    }

    // The field at an index within range, counted from 0.
    pub(crate) fn at(&self, index: usize) -> &str
        requires { index < length self.now }
        ensures { slice_get self.now index ≡ Some result.now }
    {
        let (start, end) = span(&self.ends, index);
        unsafe { str::from_utf8_unchecked(&self.bytes.as_slice()[start..end]) }
    }

    // The bytes of the fields from one index to before another.
    pub(crate) fn bytes_of(&self, start: usize, end: usize) -> &[u8]
        requires { (start ≤ end) × (end ≤ length self.now) }
        ensures { result.now ≡ flat_map (λ f. f) (take (end - start) (drop start self.now)) }
    {
        let first = end_of(&self.ends, start);
        let last = end_of(&self.ends, end);
        &self.bytes.as_slice()[first..last]
    }

    /// The fields as one record.
    pub fn as_record(&self) -> Record<'_>
        ensures { result ≡ self.now }
    {
        Record::of(self, 0, self.len())
    }
}

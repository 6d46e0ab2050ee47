//! One borrowed record.

ghost use Rattle.std.specs.Prelude.{◌≡◌, ◌≤◌, ◌<◌, ◌-◌, ◌++◌, ◌∷◌, [], OnOk, OnErr, IfSome, IfNone, Some, length, take, drop, map, slice_get, option_map};
ghost use Rattle.std.specs.List.{flat_map};

use crate::fields::FieldBuffer;
use std::alloc::AllocError;
use std::marker::Model;

/// A record, borrowed from the buffer that holds it. Contracts see the list of its fields.
#[derive(Drop)]
pub struct Record<'a> {
    fields: &'a FieldBuffer,
    start: usize,
    end: usize,
}

impl<'a> Model for Record<'a> {
    ghost use Rattle.std.specs.Prelude.{List, ℕ, ◌≤◌, ◌-◌, length, take, drop};

    ghost Value = { List (List ℕ) };

    ghost view = { λ r. take (r.end - r.start) (drop r.start r.fields.now) };

    ghost invariant = { λ r. (r.start ≤ r.end) × (r.end ≤ length r.fields.now) };
}

impl<'a> Record<'a> {
    // The fields from one index to before another.
    pub(crate) fn of(fields: &'a FieldBuffer, start: usize, end: usize) -> Record<'a>
        requires { (start ≤ end) × (end ≤ length fields.now) }
        ensures { result ≡ take (end - start) (drop start fields.now) }
    {
        Record { fields, start, end }
    }

    /// How many fields there are.
    pub fn len(&self) -> usize
        ensures { result ≡ length self.now }
    {
        self.end - self.start
    }

    /// The field at an index, counted from 0.
    pub fn get(&self, index: usize) -> Option<&'a str>
        ensures { option_map (λ s. s.now) result ≡ slice_get self.now index }
    {
        if index >= self.end - self.start {
            return None;
        }
        Some(self.at(index))
    }

    /// The field at an index within range, counted from 0.
    pub fn at(&self, index: usize) -> &'a str
        requires { index < length self.now }
        ensures { slice_get self.now index ≡ Some result.now }
    {
        let _end = self.end;
        self.fields.at(self.start + index)
    }

    /// The bytes of all fields, one after the other.
    pub fn as_bytes(&self) -> &'a [u8]
        ensures { result.now ≡ flat_map (λ f. f) self.now }
    {
        self.fields.bytes_of(self.start, self.end)
    }

    // Adds the fields to others, all of them, or none if memory runs out.
    pub(crate) fn copy_to(&self, to: &mut FieldBuffer) -> Result<(), AllocError>
        ensures ok { OnOk result (to.new ≡ to.old ++ self.now) }
        ensures err { OnErr result (to.new ≡ to.old) }
    {
        to.push_part(self.fields, self.start, self.end)
    }

    /// The fields from one index to before another, counted from 0.
    pub fn part(&self, start: usize, end: usize) -> Record<'a>
        requires { (start ≤ end) × (end ≤ length self.now) }
        ensures { result ≡ take (end - start) (drop start self.now) }
    {
        Record {
            fields: self.fields,
            start: self.start + start,
            end: self.start + end,
        }
    }

    /// The first field, and the record of the others.
    pub fn split_first(&self) -> Option<(&'a str, Record<'a>)>
        ensures some { IfSome result (λ p. self.now ≡ p.0.now ∷ p.1) }
        ensures none { IfNone result (self.now ≡ []) }
    {
        if self.len() == 0 {
            return None;
        }
        Some((self.at(0), self.part(1, self.len())))
    }

    /// Puts the fields into a list, in place of what it held, so that they can be taken apart by a
    /// pattern. One list serves all records of a text. If memory runs out, what the list holds
    /// is not said.
    pub fn fill(&self, list: &mut Vec<&'a str>) -> Result<(), AllocError>
        ensures { OnOk result (map (λ f. f.now) list.new.items ≡ self.now) }
    {
        list.clear();
        list.reserve(self.len())?;
        for i in 0..self.len() {
            list.push_reserved(self.at(i));
        }
        Ok(())
    }
}

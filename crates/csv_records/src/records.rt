//! Borrowed records.

ghost use Rattle.std.specs.Prelude.{◌≡◌, ◌≤◌, ◌<◌, ◌-◌, ◌∷◌, [], ◌↔◌, IfSome, IfNone, IsTrue, Some, length, take, drop, slice_get};
ghost use Rattle.std.specs.List.{flat_map};

use crate::buffer::RecordBuffer;
use crate::record::Record;
use std::marker::Model;

/// Records that lie one after the other in a buffer, borrowed from it. Contracts see the list of
/// them.
#[derive(Drop)]
pub struct Records<'a> {
    buffer: &'a RecordBuffer,
    start: usize,
    end: usize,
}

impl<'a> Model for Records<'a> {
    ghost use Rattle.std.specs.Prelude.{List, ℕ, ◌≤◌, ◌-◌, length, take, drop};

    ghost Value = { List (List (List ℕ)) };

    ghost view = { λ r. take (r.end - r.start) (drop r.start r.buffer.now) };

    ghost invariant = { λ r. (r.start ≤ r.end) × (r.end ≤ length r.buffer.now) };
}

impl<'a> Records<'a> {
    // The records from one index to before another.
    pub(crate) fn of(buffer: &'a RecordBuffer, start: usize, end: usize) -> Records<'a>
        requires { (start ≤ end) × (end ≤ length buffer.now) }
        ensures { result ≡ take (end - start) (drop start buffer.now) }
    {
        Records { buffer, start, end }
    }

    /// How many records there are.
    pub fn len(&self) -> usize
        ensures { result ≡ length self.now }
    {
        self.end - self.start
    }

    /// Whether there are none.
    pub fn is_empty(&self) -> bool
        ensures { IsTrue result ↔ (self.now ≡ []) }
    {
        self.len() == 0
    }

    /// The record at an index within range, counted from 0.
    pub fn record(&self, index: usize) -> Record<'a>
        requires { index < length self.now }
        ensures { slice_get self.now index ≡ Some result }
    {
        let _end = self.end;
        self.buffer.record(self.start + index)
    }

    // The fields of all records, one after the other.
    pub(crate) fn as_fields(&self) -> Record<'a>
        ensures { result ≡ flat_map (λ r. r) self.now }
    {
        self.buffer.fields_of(self.start, self.end)
    }

    /// The records from one index to before another, counted from 0.
    pub fn part(&self, start: usize, end: usize) -> Records<'a>
        requires { (start ≤ end) × (end ≤ length self.now) }
        ensures { result ≡ take (end - start) (drop start self.now) }
    {
        Records {
            buffer: self.buffer,
            start: self.start + start,
            end: self.start + end,
        }
    }

    /// The first record, and the others.
    pub fn split_first(&self) -> Option<(Record<'a>, Records<'a>)>
        ensures some { IfSome result (λ p. self.now ≡ p.0 ∷ p.1) }
        ensures none { IfNone result (self.now ≡ []) }
    {
        if self.len() == 0 {
            return None;
        }
        Some((self.record(0), self.part(1, self.len())))
    }
}

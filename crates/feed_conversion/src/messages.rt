//! The texts of records.

ghost use Rattle.std.specs.Prelude.{◌≡◌, ◌∷◌, [], IfOk};
ghost use Rattle.std.specs.String.{string_bytes};
ghost use Rattle.csv_records.specs.RecordTexts.{records_text};
ghost use Rattle.feed_conversion.specs.Messages.{closing_record};

use csv_records::buffer::RecordBuffer;
use csv_records::fields::FieldBuffer;
use csv_records::writing::write_records;
use itoa::Buffer;
use std::alloc::{AllocError, Global};

/// The text of one record.
pub(crate) fn record_text(alloc: Global, fields: &FieldBuffer) -> Result<String, AllocError>
    ensures { IfOk result (λ text. string_bytes text ≡ records_text (fields.now ∷ [])) }
{
    let mut records = RecordBuffer::new(alloc);
    records.push(&fields.as_record())?;
    write_records(alloc, &records.as_records())
}

/// The text of the record that ends a message, behind so many.
pub(crate) fn end_text(alloc: Global, before: usize) -> Result<String, AllocError>
    ensures { IfOk result (λ text. string_bytes text ≡ records_text (closing_record before ∷ [])) }
{
    let mut buffer = Buffer::new();
    let mut fields = FieldBuffer::new(alloc);
    fields.push("EndMessage")?;
    fields.push(buffer.format(before))?;
    record_text(alloc, &fields)
}

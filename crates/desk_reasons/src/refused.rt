//! The first field of a record that the desk refuses: it is asked, field by field.

ghost use Rattle.std.specs.Prelude.{◌≡◌, ◌<◌, ◌++◌, ◌∷◌, [], IfOk, length, suc, take, drop};
ghost use Rattle.csv_records.specs.RecordTexts.{records_of};
ghost use Rattle.desk_reasons.specs.Refused.{IsFirst, ends_malformed, is_refused_at, malformed_row, row_of_message};
ghost use Rattle.desk_texts.specs.RequestRows.{request_of};

use csv_records::buffer::RecordBuffer;
use csv_records::fields::FieldBuffer;
use csv_records::reading::append_text;
use csv_records::record::Record;
use csv_records::records::Records;
use desk_texts::request_rows::read_request;
use onix_message::message::MessageFault;
use series_rules::delivery::read_delivery;
use series_rules::requests::Request;
use std::alloc::{AllocError, Global};

/// The row at which records stop being a message; none where they are one.
pub(crate) fn row_of_message(
    alloc: Global,
    records: &Records<'_>,
) -> Result<Option<u32>, AllocError>
    ensures { IfOk result (λ row. row ≡ row_of_message records.now) }
{
    match read_delivery(alloc, records) {
        Ok(_) => Ok(None),
        Err(MessageFault::Malformed { row }) => Ok(Some(row)),
        Err(MessageFault::Memory) => Err(AllocError),
    }
}

// The row at which the desk refuses a piece as malformed; none where it does not.
fn malformed_row(alloc: Global, piece: RecordBuffer) -> Result<Option<u32>, AllocError>
    ensures { IfOk result (λ row. row ≡ malformed_row (request_of piece)) }
{
    match read_request(alloc, piece, &mut ())? {
        Request::Malformed { row } => Ok(Some(row)),
        Request::Deliver(records) => row_of_message(alloc, &records.as_records()),
        _ => Ok(None),
    }
}

// Whether it refuses a piece at the last of its records.
fn ends_malformed(alloc: Global, piece: RecordBuffer) -> Result<bool, AllocError>
    ensures { IfOk result (λ answer. answer ≡ ends_malformed piece) }
{
    let last = piece.len();
    match malformed_row(alloc, piece)? {
        Some(row) => Ok(row as usize == last),
        None => Ok(false),
    }
}

// The fields of a record up to a place, and those of a sample after it.
fn mixed(
    alloc: Global,
    given: &Record<'_>,
    sample: &Record<'_>,
    place: usize,
) -> Result<FieldBuffer, AllocError>
    requires { (place < length given.now) × (length sample.now ≡ length given.now) }
    ensures { IfOk result
        (λ fields. fields ≡ take (suc place) given.now ++ drop (suc place) sample.now) }
{
    let count = sample.len();
    let mut fields = FieldBuffer::new(alloc);
    fields.push_record(&given.part(0, place + 1))?;
    fields.push_record(&sample.part(place + 1, count))?;
    Ok(fields)
}

// Whether the desk refuses, behind the records of a text, one with the fields of this one up to a
// place, and those of a sample after it.
fn is_refused_at(
    alloc: Global,
    before: &str,
    given: &Record<'_>,
    sample: &Record<'_>,
    place: usize,
) -> Result<bool, AllocError>
    requires { (place < length given.now) × (length sample.now ≡ length given.now) }
    ensures { IfOk result
        (λ answer. answer ≡ is_refused_at (records_of before.now) given.now sample.now place) }
{
    let mut piece = RecordBuffer::new(alloc);
    append_text(alloc, &mut piece, before)?;
    let fields = mixed(alloc, given, sample, place)?;
    piece.push(&fields.as_record())?;
    ends_malformed(alloc, piece)
}

/// The place of the first field of a record that the desk refuses behind the records of a text,
/// where the fields of a sample stand after it. None where it takes them all.
pub fn first_refused(
    alloc: Global,
    before: &str,
    given: &Record<'_>,
    sample: &Record<'_>,
) -> Result<Option<usize>, AllocError>
    requires { length sample.now ≡ length given.now }
    ensures { IfOk result (λ place. IsFirst (records_of before.now) given.now sample.now place) }
{
    for place in 0..given.len() {
        if is_refused_at(alloc, before, given, sample, place)? {
            return Ok(Some(place));
        }
    }
    Ok(None)
}

//! The texts of requests that make a desk again.

ghost use Rattle.std.specs.Prelude.{◌≡◌, ◌∷◌, ◌++◌, [], IfOk, OnOk, codes};
ghost use Rattle.std.specs.Str.{bytes_eq};
ghost use Rattle.std.specs.String.{string_bytes};
ghost use Rattle.series_rules.specs.declared.requests.Request.{Request};
ghost use Rattle.series_rules.specs.declared.requests.Standing.{Standing};
ghost use Rattle.series_rules.specs.Listing.{standing_text};
ghost use Rattle.desk_export.specs.Exports.{request_for};
ghost use Rattle.desk_export.specs.RequestRecords.{agree_record, request_text, waive_record};

use crate::message_text::write_message;
use csv_records::buffer::RecordBuffer;
use csv_records::writing::write_records;
use itoa::Buffer;
use onix_records::Agreement;
use onix_terms::number::Number;
use onix_terms::series_name::SeriesName;
use std::alloc::{AllocError, Global};

// Appends the record of an agreement.
fn push_agreement(records: &mut RecordBuffer, agreement: &Agreement) -> Result<(), AllocError>
    ensures { OnOk result (records.new ≡ records.old ++ agree_record agreement.now ∷ []) }
{
    let name = agreement.name.as_str();
    let sender_type = agreement.sender.id_type.as_str();
    let sender_value = agreement.sender.id_value.as_str();
    let mut buffer = Buffer::new();
    let first = buffer.format(agreement.first.value());
    match &agreement.addressee {
        None => {
            records.push_fields(&["Agree", name, sender_type, sender_value, "", "", first])?;
            Ok(())
        }
        Some(party) => {
            let to_type = party.id_type.as_str();
            let to_value = party.id_value.as_str();
            records.push_fields(&[
                "Agree",
                name,
                sender_type,
                sender_value,
                to_type,
                to_value,
                first,
            ])?;
            Ok(())
        }
    }
}

// Appends the record of a waiver.
fn push_waiver(
    records: &mut RecordBuffer,
    series: &SeriesName,
    number: Number,
) -> Result<(), AllocError>
    ensures { OnOk result (records.new ≡ records.old ++ waive_record series.now number ∷ []) }
{
    let mut buffer = Buffer::new();
    records.push_fields(&["Waive", series.as_str(), buffer.format(number.value())])?;
    Ok(())
}

/// The text of the request for an agreement. Fails only if memory runs out.
pub fn write_agreement(alloc: Global, agreement: &Agreement) -> Result<String, AllocError>
    ensures { IfOk result
        (λ text. string_bytes text ≡ request_text (Request.Agree agreement.now)) }
{
    let mut records = RecordBuffer::new(alloc);
    push_agreement(&mut records, agreement)?;
    write_records(alloc, &records.as_records())
}

// The text of a waiver.
fn write_waiver(alloc: Global, series: &SeriesName, number: Number) -> Result<String, AllocError>
    ensures { IfOk result
        (λ text. string_bytes text ≡ request_text (Request.Waive series.now number)) }
{
    let mut records = RecordBuffer::new(alloc);
    push_waiver(&mut records, series, number)?;
    write_records(alloc, &records.as_records())
}

// Whether a text is that of a waiver.
fn is_waived(text: &str) -> bool
    ensures { result ≡ bytes_eq text.now (codes "waived") }
{
    text == "waived"
}

/// The text of the request that puts at a number of an agreed series what has this text there.
/// Fails only if memory runs out.
pub fn write_standing(
    alloc: Global,
    agreement: &Agreement,
    number: Number,
    stored: &str,
) -> Result<String, AllocError>
    ensures { IfOk result (λ text. (h : Standing) → standing_text h ≡ stored.now
        → string_bytes text ≡ request_text (request_for agreement.now number h)) }
{
    if is_waived(stored) {
        write_waiver(alloc, &agreement.name, number)
    } else {
        write_message(alloc, agreement, number, stored)
    }
}

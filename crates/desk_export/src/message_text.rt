//! Messages as text, of what is at their numbers.

ghost use Rattle.std.specs.Prelude.{◌≡◌, ◌∷◌, ◌++◌, [], IfOk, List, OnOk};
ghost use Rattle.std.specs.String.{string_bytes};
ghost use Rattle.csv_records.specs.RecordTexts.{records_of, records_text};
ghost use Rattle.onix_records.specs.ContentsText.{contents_text};
ghost use Rattle.onix_records.specs.declared.parts.Product.{Product};
ghost use Rattle.desk_export.specs.MessageRecords.{framed_by, message_record, message_records};

use csv_records::buffer::RecordBuffer;
use csv_records::laws::one_text;
use csv_records::reading::append_text;
use csv_records::writing::write_records;
use itoa::Buffer;
use onix_records::Agreement;
use onix_terms::number::Number;
use std::alloc::{AllocError, Global};

// Puts the record that a message begins with into a borrowed buffer, so that no early return
// drops it.
fn begin(whole: &mut RecordBuffer, agreement: &Agreement, number: Number) -> Result<(), AllocError>
    ensures { OnOk result (whole.new ≡ whole.old
        ++ message_record agreement.now.sender agreement.now.addressee number ∷ []) }
{
    let sender_type = agreement.sender.id_type.as_str();
    let sender_value = agreement.sender.id_value.as_str();
    let mut buffer = Buffer::new();
    let number = buffer.format(number.value());
    match &agreement.addressee {
        None => {
            whole.push_fields(&[
                "Message",
                "2",
                sender_type,
                sender_value,
                "",
                "",
                number,
                "1",
                "",
                "",
                "",
            ])?;
            Ok(())
        }
        Some(party) => {
            let to_type = party.id_type.as_str();
            let to_value = party.id_value.as_str();
            whole.push_fields(&[
                "Message",
                "2",
                sender_type,
                sender_value,
                to_type,
                to_value,
                number,
                "1",
                "",
                "",
                "",
            ])?;
            Ok(())
        }
    }
}

// Puts the records of a text between that record and the right end, into an empty buffer.
fn frame(
    alloc: Global,
    whole: &mut RecordBuffer,
    agreement: &Agreement,
    number: Number,
    contents: &str,
) -> Result<(), AllocError>
    ensures { whole.old ≡ [] → OnOk result (whole.new ≡ framed_by
        (message_record agreement.now.sender agreement.now.addressee number)
        (records_of contents.now)) }
{
    begin(whole, agreement, number)?;
    append_text(alloc, whole, contents)?;
    let mut buffer = Buffer::new();
    let count = whole.len();
    whole.push_fields(&["EndMessage", buffer.format(count)])?;
    Ok(())
}

/// The text of the message that has these contents, by their text: form 2, with the parties of the
/// agreement and that number, sent once, without defaults. Fails only if memory runs out.
pub(crate) fn write_message(
    alloc: Global,
    agreement: &Agreement,
    number: Number,
    contents: &str,
) -> Result<String, AllocError>
    ensures { IfOk result (λ text. (c : List Product) → contents_text c ≡ contents.now
        → string_bytes text ≡ records_text
        (message_records agreement.now.sender agreement.now.addressee number c)) }
{
    one_text();
    let mut whole = RecordBuffer::new(alloc);
    frame(alloc, &mut whole, agreement, number, contents)?;
    write_records(alloc, &whole.as_records())
}

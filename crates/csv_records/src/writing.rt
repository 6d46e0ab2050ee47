//! The text of records.

ghost use Rattle.std.specs.Prelude.{◌≡◌, ◌++◌, [], IfOk, OnOk};
ghost use Rattle.std.specs.String.{string_bytes};
ghost use Rattle.csv.specs.Writing.{default_writer, escaped, field_text, needs_quotes, row_body, row_text};
ghost use Rattle.csv_records.specs.RecordTexts.{records_text};

use crate::record::Record;
use crate::records::Records;
use std::alloc::{AllocError, Global};

// Whether a field stands in quotes: it has a comma, a quote or the end of a line.
fn needs_quotes(field: &[u8]) -> bool
    ensures { result ≡ needs_quotes default_writer field.now }
{
    for i in 0..field.len() {
        if matches!(field[i], b',' | b'"' | b'\r' | b'\n') {
            return true;
        }
    }
    false
}

// Adds the bytes of a field, each quote twice.
fn push_escaped(field: &[u8], text: &mut Vec<u8>) -> Result<(), AllocError>
    ensures { OnOk result (text.new.items ≡ text.old.items ++ escaped default_writer field.now) }
{
    for i in 0..field.len() {
        if field[i] == b'"' {
            text.push(b'"')?;
        }
        text.push(field[i])?;
    }
    Ok(())
}

// Adds a field, in quotes where it needs them.
fn push_field(field: &[u8], text: &mut Vec<u8>) -> Result<(), AllocError>
    ensures { OnOk result (text.new.items ≡ text.old.items ++ field_text default_writer field.now) }
{
    if !needs_quotes(field) {
        return text.extend_from_slice(field);
    }
    text.push(b'"')?;
    push_escaped(field, text)?;
    text.push(b'"')?;
    Ok(())
}

// Adds the fields of a record, with commas between them.
fn push_fields(from: &Record<'_>, text: &mut Vec<u8>) -> Result<(), AllocError>
    ensures { OnOk result (text.new.items ≡ text.old.items ++ row_body default_writer from.now) }
{
    for i in 0..from.len() {
        if i > 0 {
            text.push(b',')?;
        }
        push_field(from.at(i).as_bytes(), text)?;
    }
    Ok(())
}

// Adds the line of a record. One that shows nothing has two quotes: an empty line is no record.
fn push_record(from: &Record<'_>, text: &mut Vec<u8>) -> Result<(), AllocError>
    ensures { OnOk result (text.new.items ≡ text.old.items ++ row_text default_writer from.now) }
{
    let size = text.len();
    push_fields(from, text)?;
    if from.len() < 2 && text.len() == size {
        text.extend_from_slice(b"\"\"")?;
    }
    text.push(b'\n')?;
    Ok(())
}

// Room for the text of records: for their fields, for what stands after each, and for quotes.
fn room_for(alloc: Global, records: &Records<'_>) -> Result<Vec<u8>, AllocError>
    ensures { IfOk result (λ bytes. bytes.items ≡ []) }
{
    let fields = records.as_fields();
    let marks = fields.len().saturating_mul(3);
    Vec::with_capacity(alloc, fields.as_bytes().len().saturating_add(marks))
}

// The bytes of records, one after the other.
fn write_each(alloc: Global, records: &Records<'_>) -> Result<Vec<u8>, AllocError>
    ensures { IfOk result (λ bytes. bytes.items ≡ records_text records.now) }
{
    let mut text = room_for(alloc, records)?;
    for i in 0..records.len() {
        push_record(&records.record(i), &mut text)?;
    }
    Ok(text)
}

/// The text of records.
pub fn write_records(alloc: Global, records: &Records<'_>) -> Result<String, AllocError>
    ensures { IfOk result (λ text. string_bytes text ≡ records_text records.now) }
{
    let bytes = write_each(alloc, records)?;
    // Fields are text, and so is what stands between them.
    let Ok(text) = String::from_utf8(bytes) else {
        return Err(AllocError);
    };
    Ok(text)
}

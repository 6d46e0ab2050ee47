//! The pieces of a batch.

ghost use Rattle.std.specs.Prelude.{◌≡◌, ◌++◌, [], IfOk, OnOk};
ghost use Rattle.csv.specs.Records.{fields_of};
ghost use Rattle.desk_texts.specs.Pieces.{pieces, question_names, request_names};
ghost use Rattle.desk_texts.specs.Records.{begins_with, is_one_of};
ghost use Rattle.desk_texts.specs.Closed.{closed};

use csv::StringRecord;
use csv_records::buffer::RecordBuffer;
use csv_records::reading::{RecordReader, push_read};
use onix_terms::items::Items;
use std::alloc::{AllocError, Global};

// Whether a name is that of a question.
fn is_question(name: &str) -> bool
    ensures { result ≡ is_one_of question_names name.now }
{
    name == "AskPrice"
        || name == "AskChoice"
        || name == "AskCalendar"
        || name == "AskGaps"
        || name == "AskCatalogue"
}

// Whether a name begins a request.
fn is_request(name: &str) -> bool
    ensures { result ≡ is_one_of request_names name.now }
{
    name == "Message" || name == "Agree" || name == "Waive" || is_question(name)
}

// Whether a record begins a request.
fn begins_piece(from: &StringRecord) -> bool
    ensures { result ≡ begins_with request_names (fields_of from.now) }
{
    match from.get(0) {
        None => false,
        Some(name) => is_request(name),
    }
}

// Appends a piece, unless it has no record.
fn close_piece(cut: &mut Items<RecordBuffer>, piece: RecordBuffer) -> Result<(), AllocError>
    ensures { OnOk result (cut.new ≡ cut.old ++ closed piece) }
{
    if piece.is_empty() {
        return Ok(());
    }
    cut.push(piece)
}

/// Cuts the records that a reader has left before each that begins a request. Each piece has a
/// buffer of its own, so that it can be dropped when its request is answered. With `Ok` nothing is
/// left to read; where memory runs out, how much is left is not said.
pub fn read_pieces(
    alloc: Global,
    reader: &mut RecordReader<'_>,
) -> Result<Items<RecordBuffer>, AllocError>
    ensures pieces { IfOk result (λ cut. cut ≡ pieces reader.old) }
    ensures left { OnOk result (reader.new ≡ []) }
{
    let mut cut = Items::new(alloc);
    let mut piece = RecordBuffer::new(alloc);
    let mut next = StringRecord::new(alloc);
    'reading: while reader.read(&mut next)? {
        if begins_piece(&next) {
            close_piece(&mut cut, piece)?;
            piece = RecordBuffer::new(alloc);
        }
        push_read(&mut piece, &next)?;
    }
    close_piece(&mut cut, piece)?;
    Ok(cut)
}

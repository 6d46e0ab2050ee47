//! Requests, read from the pieces of a batch.

ghost use Rattle.std.specs.Prelude.{◌≡◌, ◌∷◌, [], IfOk, OnOk, map};
ghost use Rattle.desk_texts.specs.Pieces.{pieces};
ghost use Rattle.desk_texts.specs.Requests.{TextFits};
ghost use Rattle.onix_records.specs.Gives.{Gives};
ghost use Rattle.desk_texts.specs.RequestRows.{agreement_of, calendar_asked, prices_asked, prices_on, question_forms, request_by, request_forms, request_of, row_request, series_of, waiver_of};
ghost use Rattle.desk_texts.specs.Records.{begins_with};

use crate::observing::Observer;
use crate::pieces::read_pieces;
use csv_records::buffer::RecordBuffer;
use csv_records::reading::{RecordFault, RecordReader};
use csv_records::record::Record;
use onix_records::Agreement;
use onix_records::fields::{read_fields, read_optional_party, read_party};
use onix_records::row::RowFault;
use onix_terms::day::Day;
use onix_terms::isbn13::Isbn13;
use onix_terms::items::Items;
use onix_terms::number::Number;
use onix_terms::series_name::SeriesName;
use price_rules::offer::{CalendarQuery, PriceQuery};
use series_rules::requests::Request;
use std::alloc::{AllocError, Global};

// The agreement of a name, a sender, perhaps an addressee, and a first number.
#[tactic(auto, unfolding(crate::specs::RequestRows::agreement_of))]
fn make_agreement(
    alloc: Global,
    name: &str,
    sender_type: &str,
    sender_value: &str,
    to_type: &str,
    to_value: &str,
    first: &str,
) -> Result<Agreement, RowFault>
    ensures { Gives result (agreement_of (name.now ∷ sender_type.now ∷ sender_value.now
        ∷ to_type.now ∷ to_value.now ∷ first.now ∷ [])) }
{
    let name = SeriesName::read(name).ok_or(RowFault::Wrong)?;
    let first = Number::read(first).ok_or(RowFault::Wrong)?;
    let sender = read_party(alloc, sender_type, sender_value)?;
    let addressee = read_optional_party(alloc, to_type, to_value)?;
    Ok(Agreement {
        name,
        sender,
        addressee,
        first,
    })
}

// The agreement that the fields after its name make.
#[tactic(auto, unfolding(crate::specs::RequestRows::agreement_of))]
fn read_agreement(alloc: Global, fields: &[&str]) -> Result<Agreement, RowFault>
    ensures { Gives result (agreement_of (map (λ f. f.now) fields.now)) }
{
    let [name, sender_type, sender_value, to_type, to_value, first] = fields else {
        return Err(RowFault::Wrong);
    };
    make_agreement(
        alloc,
        name,
        sender_type,
        sender_value,
        to_type,
        to_value,
        first,
    )
}

// The waiver that the fields after its name make.
fn read_waiver(fields: &[&str]) -> Option<Request>
    ensures { result ≡ waiver_of (map (λ f. f.now) fields.now) }
{
    let [series, number] = fields else {
        return None;
    };
    let series = SeriesName::read(series)?;
    let number = Number::read(number)?;
    Some(Request::Waive { series, number })
}

// The series that the one field of a question names.
fn read_series(fields: &[&str]) -> Option<SeriesName>
    ensures { result ≡ series_of (map (λ f. f.now) fields.now) }
{
    let [series] = fields else {
        return None;
    };
    SeriesName::read(series)
}

// The prices on a day that these fields ask for. The last of them, how many copies, may be left
// out.
#[tactic(auto, unfolding(crate::specs::RequestRows::prices_on))]
fn read_prices(day: &str, fields: &[&str]) -> Option<PriceQuery>
    ensures { result ≡ prices_on day.now (map (λ f. f.now) fields.now) }
{
    match fields {
        [country, currency, price_type] => PriceQuery::read(
            day, country, currency, price_type, None,
        ),
        [country, currency, price_type, quantity] => PriceQuery::read(
            day,
            country,
            currency,
            price_type,
            Some(quantity),
        ),
        _ => None,
    }
}

// The article and the prices that the fields after `AskPrice` or `AskChoice` ask for.
#[tactic(auto, unfolding(crate::specs::RequestRows::prices_asked))]
fn read_price_question(fields: &[&str]) -> Option<(Isbn13, PriceQuery)>
    ensures { result ≡ prices_asked (map (λ f. f.now) fields.now) }
{
    let [isbn, day, terms @ ..] = fields else {
        return None;
    };
    let isbn = Isbn13::read(isbn)?;
    let query = read_prices(day, terms)?;
    Some((isbn, query))
}

// The article and the calendar that the fields after `AskCalendar` ask for. A range that is
// reversed or too long is asked for too: the answer refuses it.
#[tactic(auto, unfolding(crate::specs::RequestRows::calendar_asked))]
fn read_calendar_question(fields: &[&str]) -> Option<(Isbn13, CalendarQuery)>
    ensures { result ≡ calendar_asked (map (λ f. f.now) fields.now) }
{
    let [isbn, from, to, terms @ ..] = fields else {
        return None;
    };
    let isbn = Isbn13::read(isbn)?;
    let first = read_prices(from, terms)?;
    let last = Day::read(to)?;
    Some((isbn, first.until(last)))
}

// The question that the fields after a name ask.
fn read_question(name: &str, fields: &[&str]) -> Option<Request>
    ensures { result ≡ request_by question_forms name.now (map (λ f. f.now) fields.now) }
{
    if name == "AskPrice" {
        let (isbn, query) = read_price_question(fields)?;
        return Some(Request::AskPrice { isbn, query });
    }
    if name == "AskChoice" {
        let (isbn, query) = read_price_question(fields)?;
        return Some(Request::AskChoice { isbn, query });
    }
    if name == "AskCalendar" {
        let (isbn, query) = read_calendar_question(fields)?;
        return Some(Request::AskCalendar { isbn, query });
    }
    if name == "AskGaps" {
        return Some(Request::AskGaps(read_series(fields)?));
    }
    if name == "AskCatalogue" {
        return Some(Request::AskCatalogue(read_series(fields)?));
    }
    None
}

// The request that the fields after a name make.
fn read_named(alloc: Global, name: &str, fields: &[&str]) -> Result<Request, RowFault>
    ensures { Gives result (request_by request_forms name.now (map (λ f. f.now) fields.now)) }
{
    if name == "Agree" {
        return Ok(Request::Agree(read_agreement(alloc, fields)?));
    }
    if name == "Waive" {
        return read_waiver(fields).ok_or(RowFault::Wrong);
    }
    read_question(name, fields).ok_or(RowFault::Wrong)
}

// The request that a record is.
fn read_row(alloc: Global, from: &Record<'_>) -> Result<Request, RowFault>
    ensures { Gives result (row_request from.now) }
{
    let mut list = Vec::new(alloc);
    read_fields(from, &mut list)?;
    let [name, fields @ ..] = list.as_slice() else {
        return Err(RowFault::Wrong);
    };
    read_named(alloc, name, fields)
}

// Whether a record begins a message.
fn is_message(from: &Record<'_>) -> bool
    ensures { result ≡ begins_with ("Message" ∷ []) from.now }
{
    match from.get(0) {
        None => false,
        Some(name) => name == "Message",
    }
}

/// Reads one piece of a batch. A delivery keeps the records of its piece, and these are not looked
/// at; a piece that is no request is observed, and gives the row at which it stops being one.
pub fn read_request<O: Observer>(
    alloc: Global,
    piece: RecordBuffer,
    observer: &mut O,
) -> Result<Request, AllocError>
    ensures { IfOk result (λ r. r ≡ request_of piece) }
{
    if piece.is_empty() {
        return Ok(Request::Malformed { row: 1 });
    }
    let first = piece.record(0);
    if is_message(&first) {
        return Ok(Request::Deliver(piece));
    }
    match read_row(alloc, &first) {
        Ok(request) => {
            if piece.len() == 1 {
                Ok(request)
            } else {
                observer.observe_piece(&piece, 2);
                Ok(Request::Malformed { row: 2 })
            }
        }
        Err(RowFault::Wrong) => {
            observer.observe_piece(&piece, 1);
            Ok(Request::Malformed { row: 1 })
        }
        Err(RowFault::Memory) => Err(AllocError),
    }
}

/// The requests of the records that a reader has left, in order, as `read_request`. With `Ok`
/// nothing is left to read; where memory runs out, how much is left is not said.
pub fn read_requests<O: Observer>(
    alloc: Global,
    reader: &mut RecordReader<'_>,
    observer: &mut O,
) -> Result<Items<Request>, AllocError>
    ensures requests { IfOk result (λ requests. requests ≡ map request_of (pieces reader.old)) }
    ensures left { OnOk result (reader.new ≡ []) }
{
    let mut requests = Items::new(alloc);
    for piece in read_pieces(alloc, reader)?.into_vec() {
        requests.push(read_request(alloc, piece, observer)?)?;
    }
    Ok(requests)
}

/// The requests of a text, as `read_request`, or why it has no records. The records of each piece
/// are dropped as it is read, but for a delivery's.
pub fn requests_in<O: Observer>(
    alloc: Global,
    bytes: &[u8],
    observer: &mut O,
) -> Result<Items<Request>, RecordFault>
    ensures { TextFits bytes.now result }
{
    let mut reader = RecordReader::new(alloc, bytes)?;
    match read_requests(alloc, &mut reader, observer) {
        Ok(requests) => Ok(requests),
        Err(_) => Err(RecordFault::Memory),
    }
}

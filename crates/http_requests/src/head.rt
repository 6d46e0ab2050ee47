//! The head of a request.

ghost use Rattle.std.specs.Prelude.{◌≡◌, ◌≤◌, ℕ, nat_lt, List, ◌++◌, true, length, vec_len, take, Ok, Err, IfOk, IfSome, IfNone, IfErr, OnErr, OnOk, option_map};
ghost use Rattle.std.specs.Io.KnownBytes.{Consumes};
ghost use Rattle.httparse.specs.Grammar.{RequestHead, print_request};
ghost use Rattle.httparse.specs.Spans.{IsRequestOf, IsRequestWithin};
ghost use Rattle.csv_records.specs.RecordTexts.{limit};
ghost use Rattle.csv_records.specs.Streams.{TakesAtMost};
ghost use Rattle.http_requests.specs.Head.{HasNoHead, IsNeverHead, has_empty_line, skip_line_ends, IsRefused};
ghost use Rattle.http_requests.specs.Fields.{at_most_one, field_values};
ghost use Rattle.http_requests.specs.Steps.{IfRefused};
ghost use Rattle.http_requests.specs.Posted.{size_asked};
ghost use Rattle.http_requests.specs.HeadRead.{head_text, IsHeadOf};

use crate::buffer_filling::read_once;
use crate::fault::InputFault;
use crate::fields::{body_size, only_value};
use crate::parts::Head;
use crate::refusal::Refusal;
use crate::scan::{has_empty_line, refusal_of_full, skip_line_ends};
use httparse::Status;
use httparse::spans::{EMPTY_HEADER_SPAN, HeaderSpan, RequestSpans, parse_request};
use std::alloc::{AllocError, Global};
use std::io::Read;

/// The maximum length of a head, in bytes.
const HEAD_LIMIT: usize = 16384;

// A field has at least three bytes.
const MOST_FIELDS: usize = 5461;

impl Head {
    /// The method of the request.
    pub fn method(&self) -> &[u8]
        ensures { (h : RequestHead) → IsHeadOf self.now h → result.now ≡ h.method }
    {
        self.parts.method.of(&self.bytes[..self.filled])
    }

    /// The target of the request.
    pub(crate) fn target(&self) -> &[u8]
        ensures { (h : RequestHead) → IsHeadOf self.now h → result.now ≡ h.target }
    {
        self.parts.path.of(&self.bytes[..self.filled])
    }

    /// The bytes that were read behind the head.
    pub fn behind(&self) -> &[u8]
        ensures { (h : RequestHead) → IsHeadOf self.now h
            → head_text self.now ≡ print_request h ++ result.now }
    {
        &self.bytes[self.parts.len..self.filled]
    }

    /// The value of the only field of a name, `None` if there is none. If there are several,
    /// `why` refuses them.
    pub(crate) fn only_field(&self, name: &[u8], why: Refusal) -> Result<Option<&[u8]>, Refusal>
        ensures one { (h : RequestHead) → IsHeadOf self.now h → IfOk result (λ found.
            at_most_one why (field_values name.now h) ≡ Ok (option_map (λ v. v.now) found)) }
        ensures more { (h : RequestHead) → IsHeadOf self.now h
            → IfErr result (λ e. at_most_one why (field_values name.now h) ≡ Err e) }
    {
        only_value(
            &self.bytes[..self.filled],
            &self.spans[..self.parts.headers],
            name,
            why,
        )
    }

    /// The target as text.
    pub fn target_text(&self) -> &str
        ensures { (h : RequestHead) → IsHeadOf self.now h → result.now ≡ h.target }
    {
        // httparse takes a target only where it is UTF-8.
        str::from_utf8(self.target()).unwrap_or("")
    }

    /// Whether a field of that name is there.
    pub fn has_field(&self, name: &[u8]) -> bool
        ensures { (h : RequestHead) → IsHeadOf self.now h
            → result ≡ nat_lt 0 (length (field_values name.now h)) }
    {
        match self.only_field(name, Refusal::BadHead) {
            Ok(None) => false,
            Ok(Some(_)) => true,
            Err(_) => true,
        }
    }

    /// How many bytes the body of a POST has, by its Content-Length.
    pub(crate) fn body_size(&self) -> Result<usize, Refusal>
        ensures size { (h : RequestHead) → IsHeadOf self.now h → result ≡ size_asked h }
        ensures most { IfOk result (λ size. size ≤ limit) }
    {
        body_size(self.only_field(b"content-length", Refusal::BadLength))
    }
}

/// The head that the bytes begin with, `None` where more bytes have to come, or a refusal that no
/// further bytes change.
fn judge(bytes: &[u8], spans: &mut [HeaderSpan]) -> Result<Option<RequestSpans>, Refusal>
    requires { MOST_FIELDS ≤ length spans.old }
    ensures whole { IfOk result (λ found. IfSome found (IsRequestOf bytes.now spans.new)) }
    ensures within { IfOk result (λ found. IfSome found (IsRequestWithin bytes.now spans.new)) }
    ensures more { IfOk result (λ found. IfNone found (HasNoHead bytes.now)) }
    ensures never { OnErr result (IsNeverHead bytes.now) }
    ensures ended { OnErr result (has_empty_line (skip_line_ends bytes.now) ≡ true) }
    ensures why { IfErr result (λ why. why ≡ Refusal.BadHead) }
{
    match parse_request(bytes, spans) {
        Ok(Status::Complete(parts)) => Ok(Some(parts)),
        Ok(Status::Partial) => Ok(None),
        Err(_) => {
            if has_empty_line(skip_line_ends(bytes)) {
                Err(Refusal::BadHead)
            } else {
                Ok(None)
            }
        }
    }
}

/// How many bytes were read of a head, and where its parts are.
#[derive(Clone, Copy)]
pub(crate) struct Found {
    filled: usize,
    parts: RequestSpans,
}

/// Reads into the bytes until the head is whole or a refusal is decided.
fn fill_head<R: Read>(
    reader: &mut R,
    bytes: &mut [u8],
    spans: &mut [HeaderSpan],
) -> Result<Found, InputFault>
    requires room { length bytes.old ≡ HEAD_LIMIT }
    requires fields { MOST_FIELDS ≤ length spans.old }
    ensures filled { IfOk result (λ found. found.filled ≤ HEAD_LIMIT) }
    ensures whole { IfOk result
        (λ found. IsRequestOf (take found.filled bytes.new) spans.new found.parts) }
    ensures within { IfOk result
        (λ found. IsRequestWithin (take found.filled bytes.new) spans.new found.parts) }
    ensures read { IfOk result (λ found.
        Consumes (R.remaining reader.old) (R.remaining reader.new) (take found.filled bytes.new)) }
    ensures refused { IfRefused result
        (λ why. IfSome (R.remaining reader.old) (λ input. IsRefused input why)) }
    ensures taken { TakesAtMost HEAD_LIMIT (R.remaining reader.old) (R.remaining reader.new) }
{
    let mut filled = 0;
    while filled < HEAD_LIMIT {
        let total = read_once(reader, bytes, filled)?;
        if total == filled {
            return Err(InputFault::Refused(Refusal::BadHead));
        }
        filled = total;
        if let Some(parts) = judge(&bytes[..filled], spans)? {
            return Ok(Found { filled, parts });
        }
    }
    Err(InputFault::Refused(refusal_of_full(bytes)))
}

// A buffer for a head, all zero.
fn head_buffer(alloc: Global) -> Result<Vec<u8>, AllocError>
    ensures { IfOk result (λ bytes. vec_len bytes ≡ HEAD_LIMIT) }
{
    vec![in alloc; 0u8; HEAD_LIMIT]
}

// Room for the fields of a head.
fn field_spans(alloc: Global) -> Result<Vec<HeaderSpan>, AllocError>
    ensures { IfOk result (λ spans. vec_len spans ≡ MOST_FIELDS) }
{
    vec![in alloc; EMPTY_HEADER_SPAN; MOST_FIELDS]
}

/// Reads until the head is whole or a refusal is decided. It never reads more bytes than a head may
/// have, even where it fails.
pub fn read_head<R: Read>(alloc: Global, reader: &mut R) -> Result<Head, InputFault>
    ensures whole { IfOk result (λ head. (h : RequestHead) × IsHeadOf head h) }
    ensures limit { IfOk result (λ head. length (head_text head) ≤ HEAD_LIMIT) }
    ensures read { IfOk result
        (λ head. Consumes (R.remaining reader.old) (R.remaining reader.new) (head_text head)) }
    ensures refused { IfRefused result
        (λ why. IfSome (R.remaining reader.old) (λ input. IsRefused input why)) }
    ensures taken { TakesAtMost HEAD_LIMIT (R.remaining reader.old) (R.remaining reader.new) }
{
    let mut bytes = head_buffer(alloc)?;
    let mut spans = field_spans(alloc)?;
    let Found { filled, parts } = fill_head(reader, &mut bytes, &mut spans)?;
    Ok(Head {
        bytes,
        filled,
        spans,
        parts,
    })
}

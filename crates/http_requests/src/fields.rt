//! Fields of a head, by name, and the length that they give of the body.

ghost use Rattle.std.specs.Prelude.{◌≡◌, nat_lt, if◌then◌else◌, true, map, All, length, Some, None, Ok, Err, IfErr, IfOk, IfSome, ◌≤◌, option_map, IsTrue};
ghost use Rattle.std.specs.List.{list_all};
ghost use Rattle.std.specs.Char.{is_ascii_digit};
ghost use Rattle.std.specs.Str.Parse.{digits_value};
ghost use Rattle.httparse.specs.Spans.{header_bytes, IsHeaderWithin};
ghost use Rattle.csv_records.specs.RecordTexts.{limit};
ghost use Rattle.http_requests.specs.Fields.{at_most_one, is_numeral, same_name, size_by, size_written, values_where};

use crate::refusal::Refusal;
use csv_records::reading::LIMIT;
use httparse::spans::HeaderSpan;
use onix_terms::ascii::are_digits;

fn is_named(name: &[u8], wanted: &[u8]) -> bool
    ensures { result ≡ same_name name.now wanted.now }
{
    name.eq_ignore_ascii_case(wanted)
}

/// The value of the only field of this name. If there are several, `why` refuses them.
pub(crate) fn only_value<'b>(
    bytes: &'b [u8],
    spans: &[HeaderSpan],
    name: &[u8],
    why: Refusal,
) -> Result<Option<&'b [u8]>, Refusal>
    requires { All (IsHeaderWithin (length bytes.now)) spans.now }
    ensures one { IfOk result (λ found. at_most_one why
        (values_where (λ n. same_name n name.now) (map (header_bytes bytes.now) spans.now))
        ≡ Ok (option_map (λ v. v.now) found)) }
    ensures more { IfErr result (λ e. at_most_one why
        (values_where (λ n. same_name n name.now) (map (header_bytes bytes.now) spans.now))
        ≡ Err e) }
{
    let mut found: Option<&'b [u8]> = None;
    let mut rest = spans;
    while let [first, tail @ ..] = rest {
        if is_named(first.name.of(bytes), name) {
            if found.is_some() {
                return Err(why);
            }
            found = Some(first.value.of(bytes));
        }
        rest = tail;
    }
    Ok(found)
}

// Whether a text is one or more digits.
fn is_numeral(text: &[u8]) -> bool
    ensures { result ≡ is_numeral text.now }
{
    !text.is_empty() && are_digits(text)
}

// The number that digits write, where it is within the limit of bodies.
fn value_within(digits: &[u8]) -> Option<usize>
    requires { list_all is_ascii_digit digits.now ≡ true }
    ensures value { result
        ≡ (if nat_lt limit (digits_value 10 digits.now) then None else Some
        (digits_value 10 digits.now)) }
    ensures most { IfSome result (λ size. size ≤ limit) }
{
    let mut value = 0;
    for digit in digits {
        value = value * 10 + (*digit - b'0') as usize;
        if value > LIMIT {
            return None;
        }
    }
    Some(value)
}

// How many bytes a body has whose length is written so.
fn read_size(text: &[u8]) -> Result<usize, Refusal>
    ensures size { result ≡ size_written text.now }
    ensures most { IfOk result (λ size. size ≤ limit) }
{
    if !is_numeral(text) {
        return Err(Refusal::BadLength);
    }
    match value_within(text) {
        None => Err(Refusal::TooLarge),
        Some(size) => Ok(size),
    }
}

/// How many bytes the body of a POST has, by the value of its Content-Length.
pub(crate) fn body_size(found: Result<Option<&[u8]>, Refusal>) -> Result<usize, Refusal>
    ensures one { IfOk found.entry (λ length. result ≡ size_by (option_map (λ v. v.now) length)) }
    ensures more { IfErr found.entry (λ why. result ≡ Err why) }
    ensures most { IfOk result (λ size. size ≤ limit) }
{
    match found {
        Err(why) => Err(why),
        Ok(None) => Err(Refusal::LengthRequired),
        Ok(Some(text)) => read_size(text),
    }
}

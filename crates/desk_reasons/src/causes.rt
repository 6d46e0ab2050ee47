//! Why a record may not stand where it stands, in words.

ghost use Rattle.std.specs.Prelude.{◌≡◌, ◌<◌, ◌++◌, ◌∷◌, [], IfOk, OnOk, chars, length, slice_get, string_bytes, unwrap_or};
ghost use Rattle.csv_records.specs.RecordTexts.{records_of};
ghost use Rattle.desk_reasons.specs.Refused.{IsFirst};
ghost use Rattle.desk_texts.specs.Records.{Fields};
ghost use Rattle.watched_output.specs.Shown.{shown};

use crate::fields::{Field, Kind};
use crate::refused::first_refused;
use crate::rows::{Form, PARTS, REQUESTS};
use csv_records::fields::FieldBuffer;
use csv_records::record::Record;
use csv_records::records::Records;
use csv_records::writing::write_records;
use onix_records::MOST_RECORDS;
use onix_records::fields::is_clean;
use onix_terms::digits::read_digits;
use std::alloc::{AllocError, Global};
use watched_output::shown_texts::push_shown;

// How many fields a record has at most that the desk is asked about.
const MOST_ASKED: usize = 100;

/// The field of a record at a place, which is 0 for its name; empty where it has none.
pub(crate) fn field_at<'a>(record: &Record<'a>, place: usize) -> &'a str
    ensures { result.now ≡ unwrap_or (slice_get record.now place) [] }
{
    record.get(place).unwrap_or("")
}

// A record that is right, of as many fields as this one.
fn sample_of(alloc: Global, form: &Form, given: &Record<'_>) -> Result<FieldBuffer, AllocError>
    ensures { IfOk result (λ fields. length fields ≡ length given.now) }
{
    let mut fields = FieldBuffer::new(alloc);
    for place in 0..given.len() {
        let before = place.saturating_sub(1);
        let text = match form.field(place) {
            None => form.name,
            Some(field) => match field.kind {
                Kind::Type if field_at(given, place).is_empty() => "",
                Kind::Value if field_at(given, before).is_empty() => "",
                _ => field.rule.0,
            },
        };
        fields.push(text)?;
    }
    Ok(fields)
}

/// The place of the first field of a record of this form that the desk refuses behind the records
/// of a text: 0 where it has another number of fields.
pub(crate) fn place_of(
    alloc: Global,
    before: &str,
    form: &Form,
    given: &Record<'_>,
) -> Result<Option<usize>, AllocError>
    ensures { IfOk result (λ place. (sample : Fields) × (length sample ≡ length given.now)
        × IsFirst (records_of before.now) given.now sample place) }
{
    let sample = sample_of(alloc, form, given)?;
    first_refused(alloc, before, given, &sample.as_record())
}

// Adds what stands in a field.
fn push_value(text: &mut String, name: &str, value: &str) -> Result<(), AllocError>
    ensures { OnOk result (string_bytes text.new
        ≡ string_bytes text.old ++ name.now ++ 32 ∷ shown 40 (chars value.now)) }
{
    text.push_str(name)?;
    text.push_str(" ")?;
    push_shown(text, value, 40)
}

/// Adds that a field is refused with this value, and what to do, where its text shows it.
pub(crate) fn push_broken(text: &mut String, field: Field, value: &str) -> Result<(), AllocError> {
    let (_, meaning) = field.rule;
    if value.is_empty() {
        return write!(text, "{} is empty; it has to be {meaning}", field.name);
    }
    push_value(text, field.name, value)?;
    let digits = value.bytes().filter(|byte| byte.is_ascii_digit()).count();
    let hint = match field.kind {
        Kind::Isbn if digits == 13 => "; leave out hyphens and spaces",
        Kind::Isbn if digits == 10 || digits == 9 && value.ends_with(['X', 'x']) => {
            "; this looks like an ISBN of ten digits; write that of thirteen"
        }
        Kind::Day if digits == 8 && value.len() > 8 => {
            "; leave out what is between the digits, and put the year first"
        }
        Kind::Country | Kind::Currency | Kind::Countries
            if value.bytes().any(|byte| byte.is_ascii_lowercase()) => { "; write capital letters" }
        Kind::Countries if value.contains([',', ';']) => "; put spaces between them",
        Kind::Code | Kind::Type if value == "GLN" => "; the code of a GLN is 06",
        Kind::Code | Kind::Type if digits == 1 && value.len() == 1 => {
            "; a spreadsheet may have taken the 0 at its front"
        }
        Kind::Amount if value.contains(',') => "; write a point, and no comma",
        Kind::Series if value.bytes().any(|byte| byte.is_ascii_uppercase()) => {
            "; write small letters"
        }
        Kind::Series if value.contains([' ', '_']) => "; write - in place of a space",
        Kind::FirstNumber => {
            "; it is the MessageNumber of the first message that the sender sends, 1 as a rule"
        }
        _ => "",
    };
    write!(text, " is not {meaning}{hint}")
}

// Adds what is wrong with a record whose field at a place is refused.
fn push_refused(
    text: &mut String,
    given: &Record<'_>,
    form: &Form,
    place: usize,
) -> Result<(), AllocError> {
    let Some(field) = form.field(place) else {
        return Ok(());
    };
    let name = field.name;
    let value = field_at(given, place);
    if !is_clean(value.as_bytes()) {
        push_value(text, name, value)?;
        return text.push_str(" has more than 1024 bytes or a control character");
    }
    let before = form
        .field(place.saturating_sub(1))
        .map_or("", |field| field.name);
    match field.kind {
        Kind::Value if value.is_empty() => {
            write!(
                text,
                "{name} is empty, and {before} is not; fill both, or neither"
            )
        }
        Kind::Value => write!(
            text,
            "{before} is empty, and {name} is not; fill both, or neither"
        ),
        Kind::SupplierName => {
            text.push_str("the supplier has neither an identifier nor a SupplierName")
        }
        Kind::Code | Kind::Currency if value.is_empty() && form.name == "Price" => {
            write!(
                text,
                "{name} is empty, and the Message has no Default{name}"
            )
        }
        _ => push_broken(text, field, value),
    }
}

// Adds that a record has too many fields, or too few, and which it has to have.
fn push_miscounted(text: &mut String, given: &Record<'_>, form: &Form) -> Result<(), AllocError> {
    let (count, most) = (given.len().saturating_sub(1), form.fields.len());
    if form.name == "Product" && count > most {
        return text.push_str("a ProductIDType without an IDValue behind it");
    }
    let fields = if count == 1 { "field" } else { "fields" };
    write!(text, "{count} {fields} behind its name, not {}", form.text)?;
    text.push_str(if form.name == "Waive" {
        "; the Number is that of a message that is missing and will not come, and onixdesk --db FILE gaps NAME shows which are missing"
    } else if count > most && field_at(given, count).is_empty() {
        "; leave out the empty fields at its end, which a spreadsheet adds"
    } else {
        ""
    })
}

// Adds what is wrong with a record of this form behind the records of a text, and says whether
// something is.
fn push_wrong(
    alloc: Global,
    text: &mut String,
    before: &str,
    form: &Form,
    given: &Record<'_>,
) -> Result<bool, AllocError> {
    if given.len() > MOST_ASKED {
        text.push_str("it has too many fields, one of them is wrong, or it is not allowed here")?;
        return Ok(true);
    }
    match place_of(alloc, before, form, given)? {
        None => return Ok(false),
        Some(0) => push_miscounted(text, given, form)?,
        Some(place) => push_refused(text, given, form, place)?,
    }
    Ok(true)
}

// Adds why a name is none that may stand here, where it shows that; else these words.
fn push_misnamed(text: &mut String, name: &str, words: &str) -> Result<(), AllocError> {
    let (front, _) = name.split_once(';').unwrap_or((name, ""));
    let parts = PARTS.iter().map(|part| part.form.name);
    let mut names = REQUESTS.iter().map(|form| form.name).chain(parts);
    match names.find(|known| known.eq_ignore_ascii_case(front.trim())) {
        Some(_) if front.len() < name.len() => {
            text.push_str("separate fields by commas, not by semicolons")
        }
        Some(known) if known != name => write!(text, "write {known}"),
        _ if name.starts_with('<') => text.push_str(
            "this is XML; make records of it first: onixdesk convert FILE > FILE.csv",
        ),
        _ => text.push_str(words),
    }
}

// Adds why the record at an index of a message is wrong.
fn push_part(
    alloc: Global,
    text: &mut String,
    piece: &Records<'_>,
    index: usize,
) -> Result<(), AllocError>
    requires { (0 < index) × (index < length piece.now) }
{
    let given = piece.record(index);
    let name = field_at(&given, 0);
    if index >= MOST_RECORDS {
        return text.push_str("a message has at most 20000 records");
    }
    let Some(part) = PARTS.iter().find(|part| part.form.name == name) else {
        return push_misnamed(text, name, "no record behind a Message has this name");
    };
    let count = field_at(&given, 1);
    let is_end = name == "EndMessage" && given.len() == 2 && read_digits(count).is_some();
    let mut before = write_records(alloc, &piece.part(0, 1))?;
    before.push_str(part.leading)?;
    if !is_end && push_wrong(alloc, text, before.as_str(), &part.form, &given)? {
        return Ok(());
    }
    match field_at(&piece.record(index - 1), 0) {
        "EndMessage" => text.push_str("the message has ended before it, by its EndMessage"),
        "ProductSupply" if part.behind.is_empty() => {
            text.push_str("the ProductSupply before it has no SupplyDetail")
        }
        _ if is_end => write!(
            text,
            "Count {count} is not the number of records before it, which is {index}: a record is missing or one too many; take the file from its sender again, and do not just change Count"
        ),
        _ => text.push_str(part.behind),
    }
}

/// Adds why a piece stops being a request at this row, counted from 1, where its records end at the
/// latest.
pub(crate) fn push_cause(
    alloc: Global,
    text: &mut String,
    piece: &Records<'_>,
    row: u32,
) -> Result<(), AllocError> {
    let index = (row as usize).saturating_sub(1);
    if index >= piece.len() {
        let is_empty = piece.is_empty();
        let ends = " EndMessage: the message ends without it";
        return text.push_str(if is_empty {
            " there is no record"
        } else {
            ends
        });
    }
    let given = piece.record(index);
    let name = field_at(&given, 0);
    push_value(text, "", name)?;
    text.push_str(": ")?;
    if index > 0 {
        if field_at(&piece.record(0), 0) == "Message" {
            return push_part(alloc, text, piece, index);
        }
        let words = "the request before it is one record, and no request has this name";
        return push_misnamed(text, name, words);
    }
    if PARTS.iter().any(|part| part.form.name == name) {
        return text.push_str("it belongs into a message, behind its Message");
    }
    let Some(form) = REQUESTS.iter().find(|form| form.name == name) else {
        let words = "no request has this name; a text of requests has no heading";
        return push_misnamed(text, name, words);
    };
    if push_wrong(alloc, text, "", form, &given)? {
        return Ok(());
    }
    text.push_str(
        "deliver takes one message; batch takes a text of requests: onixdesk --db FILE batch < FILE",
    )
}

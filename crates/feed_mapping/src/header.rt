//! The Header.

ghost use Rattle.std.specs.Prelude.{◌≡◌, ◌+◌, ◌∷◌, ◌<◌, List, ℕ, Err, IsErrOf, OnOk, Some, true, false, codes, decimal, map, option_map};
ghost use Rattle.std.specs.Option.{ok_or};
ghost use Rattle.std.specs.Str.{is_utf8};
ghost use Rattle.std.specs.List.{list_all, list_any};
ghost use Rattle.feed_mapping.specs.Elements.{composites};
ghost use Rattle.feed_mapping.specs.Header.{added, are_identified, behind_zeros, repeat_in, addressee_pair, addressee_in, first_number, heading_in, if_whole, meant, message_fields, number_in, parsed_opening, sender_in};
ghost use Rattle.feed_mapping.specs.HeaderViews.{choices_view, pair_read, IsHeading, IsOpening};
ghost use Rattle.feed_mapping.specs.PartyViews.{pair_view};
ghost use Rattle.feed_mapping.specs.Identifiers.{identifiers_in};
ghost use Rattle.feed_mapping.specs.PriceViews.{text_view};
ghost use Rattle.feed_mapping.specs.Parties.{is_whole};
ghost use Rattle.feed_mapping.specs.Records.{parsed_term};
ghost use Rattle.onix_terms.specs.Number.{number_of};

use crate::elements::{elements_in, next_composite, text_or_empty};
use crate::identifiers::{ADDRESSEE, Kind, SENDER, choose_identifier, has_pair, next_identifier};
use crate::parties::{NO_PAIR, Pair};
use crate::prices::fill_record;
use crate::records::utf8_text;
use csv_records::fields::FieldBuffer;
use feed_outline::{Elements, Line, text_in};
use itoa::Buffer;
use onix_records::opening::read_opening;
use onix_records::row::{Opening, RowFault};
use onix_terms::digits::read_digits;
use onix_terms::number::Number;
use std::alloc::Global;

/// What the caller chooses.
#[derive(Clone, Copy, Debug)]
pub struct Choices<'a> {
    /// In how many parts the message is written.
    pub parts: u32,
    /// A number in place of the Header's.
    pub number: Option<Number>,
    /// What is added to the number of the Header.
    pub offset: u32,
    /// The sender of a Header that names none.
    pub sender: Option<Pair<'a>>,
    /// Which of several addressees is meant, by one of its identifiers.
    pub addressee: Option<Pair<'a>>,
    /// The supplier whose SupplyDetails alone count, by one of its identifiers.
    pub supplier: Option<Pair<'a>>,
    /// The type of identifier that is preferred.
    pub id_type: &'a [u8],
}

/// Why a message is refused for its Header.
#[derive(Clone, Copy, Debug, PartialEq, Eq)]
pub enum HeaderRefusal {
    /// It names no sender, and the caller gives none.
    NoSender,
    /// It names several addressees, and the caller picks none.
    SeveralAddressees,
    /// None of its addressees is the one that the caller means.
    NoSuchAddressee,
    /// It has no MessageNumber, and the caller gives none.
    NoNumber,
    /// Its MessageNumber is none from 1 to 999,999,999.
    WrongNumber,
    /// With what is added to it its number is above 999,999,999.
    NumberTooGreat,
    /// The number of its last part would be above 999,999,999.
    LastNumberTooGreat,
    /// The desk would call its record malformed.
    Malformed,
}

/// Why there is no heading.
#[derive(Clone, Copy, Debug)]
pub enum HeaderFault {
    /// The message is refused.
    Refused(HeaderRefusal),
    /// Memory ran out.
    Memory,
}

impl From<HeaderRefusal> for HeaderFault {
    ghost use Rattle.feed_mapping.specs.declared.header.HeaderFault.TheVariants.{Refused};

    ghost from_gives = { λ r e. e ≡ Refused r };

    fn from(refusal: HeaderRefusal) -> HeaderFault {
        HeaderFault::Refused(refusal)
    }
}

/// What a Header says: who sends the message and to whom, the number of its first part, and what
/// the record of that part says to the desk.
#[derive(Drop)]
pub struct Heading<'a> {
    pub sender: Pair<'a>,
    pub addressee: Pair<'a>,
    pub number: u32,
    pub opening: Opening,
}

// Whether an identifier has both a type and a value.
fn is_whole(identifier: Pair<'_>) -> bool
    ensures { result ≡ is_whole (pair_view identifier.entry) }
{
    !identifier.id_type.is_empty() && !identifier.id_value.is_empty()
}

// An identifier that is written, where it has both a type and a value.
fn if_whole<'a>(identifier: Pair<'a>) -> Result<Pair<'a>, HeaderRefusal>
    ensures { pair_read result ≡ if_whole (pair_view identifier.entry) }
{
    if is_whole(identifier) {
        Ok(identifier)
    } else {
        Err(HeaderRefusal::Malformed)
    }
}

/// Whether one of the identifiers has both a type and a value.
pub(crate) fn has_whole(kind: Kind, elements: &Elements<'_>) -> bool
    ensures { result
        ≡ list_any is_whole (identifiers_in kind.name.now kind.type_name.now elements.now) }
{
    let mut rest = elements.copy();
    while let Some((found, behind)) = next_identifier(kind, &rest) {
        if is_whole(found) {
            return true;
        }
        rest = behind;
    }
    false
}

// The type and the value of the sender.
fn sender_in<'a>(choices: &Choices<'a>, elements: &Elements<'a>) -> Result<Pair<'a>, HeaderRefusal>
    ensures { pair_read result ≡ sender_in (choices_view choices.now) elements.now }
{
    let sender = elements_in(b"Sender", elements);
    if !has_whole(SENDER, &sender) {
        if let Some(given) = choices.sender {
            return Ok(given);
        }
    }
    match choose_identifier(SENDER, choices.id_type, &sender) {
        Some(identifier) => if_whole(identifier),
        None => Err(HeaderRefusal::NoSender),
    }
}

// What stands in the first addressee with such an identifier.
fn meant<'a>(pair: Pair<'_>, elements: &Elements<'a>) -> Result<Elements<'a>, HeaderRefusal>
    ensures { result
        ≡ meant (pair_view pair.entry) (composites (codes "Addressee") elements.now) }
{
    let mut rest = elements.copy();
    while let Some((found, behind)) = next_composite(b"Addressee", &rest) {
        if has_pair(ADDRESSEE, pair, &found.below) {
            return Ok(found.below);
        }
        rest = behind;
    }
    Err(HeaderRefusal::NoSuchAddressee)
}

// Whether one of the addressees has an identifier.
fn are_identified(elements: &Elements<'_>) -> bool
    ensures { result ≡ are_identified (composites (codes "Addressee") elements.now) }
{
    let mut rest = elements.copy();
    while let Some((found, behind)) = next_composite(b"Addressee", &rest) {
        if next_identifier(ADDRESSEE, &found.below).is_some() {
            return true;
        }
        rest = behind;
    }
    false
}

/// What stands in the addressee.
pub(crate) fn addressee_in<'a>(
    pair: Option<Pair<'_>>,
    elements: &Elements<'a>,
) -> Result<Elements<'a>, HeaderRefusal>
    ensures { result ≡ addressee_in (option_map pair_view pair.entry)
        (composites (codes "Addressee") elements.now) }
{
    let Some((one, behind)) = next_composite(b"Addressee", elements) else {
        return Ok(Elements::none());
    };
    match next_composite(b"Addressee", &behind) {
        None => Ok(one.below),
        Some(_) => if are_identified(elements) {
            match pair {
                Some(pair) => meant(pair, elements),
                None => Err(HeaderRefusal::SeveralAddressees),
            }
        } else {
            Ok(Elements::none())
        },
    }
}

// The type and the value of the addressee.
fn addressee_pair<'a>(
    choices: &Choices<'a>,
    elements: &Elements<'a>,
) -> Result<Pair<'a>, HeaderRefusal>
    ensures { pair_read result ≡ addressee_pair (choices_view choices.now) elements.now }
{
    let addressee = addressee_in(choices.addressee, elements)?;
    match choose_identifier(ADDRESSEE, choices.id_type, &addressee) {
        Some(identifier) => if_whole(identifier),
        None => Ok(NO_PAIR),
    }
}

// The number that a text writes.
fn read_number(text: &[u8]) -> Result<Number, HeaderRefusal>
    ensures { result ≡ ok_or (parsed_term number_of text.now) HeaderRefusal.WrongNumber }
{
    match utf8_text(text) {
        Some(text) => Number::read(text).ok_or(HeaderRefusal::WrongNumber),
        None => Err(HeaderRefusal::WrongNumber),
    }
}

// A text behind its leading zeros.
fn behind_zeros(text: &[u8]) -> &[u8]
    ensures { result.now ≡ behind_zeros text.now }
{
    let mut rest = text;
    while let [byte, tail @ ..] = rest {
        if *byte != b'0' {
            return rest;
        }
        rest = tail;
    }
    rest
}

// The number of the Header with what is added to it.
fn added(offset: u32, text: Option<&[u8]>) -> Result<Number, HeaderRefusal>
    ensures { result ≡ added offset (text_view text.entry) }
{
    let Some(text) = text else {
        return Err(HeaderRefusal::NoNumber);
    };
    let number = read_number(behind_zeros(text))?;
    match number.value().checked_add(offset) {
        Some(sum) => Number::from_value(sum).ok_or(HeaderRefusal::NumberTooGreat),
        None => Err(HeaderRefusal::NumberTooGreat),
    }
}

// The number of the first of so many parts.
fn first_number(parts: u32, number: Number) -> Result<u32, HeaderRefusal>
    ensures { result ≡ first_number parts number }
{
    let Some(last) = number.value().checked_mul(parts) else {
        return Err(HeaderRefusal::LastNumberTooGreat);
    };
    let last = Number::from_value(last).ok_or(HeaderRefusal::LastNumberTooGreat)?;
    Ok(last.value().saturating_sub(parts) + 1)
}

// The number of the first part.
fn number_in(choices: &Choices<'_>, elements: &Elements<'_>) -> Result<u32, HeaderRefusal>
    ensures { result ≡ number_in (choices_view choices.now) elements.now }
{
    match choices.number {
        Some(number) => first_number(choices.parts, number),
        None => {
            let text = text_in(b"MessageNumber", elements);
            first_number(choices.parts, added(choices.offset, text)?)
        }
    }
}

// The MessageRepeat, empty where it is not 1 to 9 digits.
fn repeat_in<'a>(elements: &Elements<'a>) -> &'a [u8]
    ensures { result.now ≡ repeat_in elements.now }
{
    let text = text_or_empty(b"MessageRepeat", elements);
    match utf8_text(text) {
        Some(digits) => if read_digits(digits).is_some() {
            text
        } else {
            b""
        },
        None => b"",
    }
}

// The texts of the record with which a part of this number begins.
fn message_texts<'a>(
    sender: Pair<'a>,
    addressee: Pair<'a>,
    number: &'a [u8],
    elements: &'a Elements<'_>,
) -> [&'a [u8]; 10]
    ensures { map (λ t. t.now) result ≡ message_fields
        (pair_view sender.entry) (pair_view addressee.entry) number.now elements.now }
{
    let repeat: &'a [u8] = repeat_in(elements);
    let sent: &'a [u8] = text_or_empty(b"SentDateTime", elements);
    let price_type: &'a [u8] = text_or_empty(b"DefaultPriceType", elements);
    let currency: &'a [u8] = text_or_empty(b"DefaultCurrencyCode", elements);
    [
        b"2",
        sender.id_type,
        sender.id_value,
        addressee.id_type,
        addressee.id_value,
        number,
        repeat,
        sent,
        price_type,
        currency,
    ]
}

/// Puts the record with which a part of this number begins in place of what the list had. `Wrong`
/// exactly where a text is no UTF-8.
pub fn fill_message(
    sender: Pair<'_>,
    addressee: Pair<'_>,
    number: u32,
    elements: &Elements<'_>,
    fields: &mut FieldBuffer,
) -> Result<(), RowFault>
    ensures record { OnOk result (fields.new ≡ codes "Message"
        ∷ message_fields (pair_view sender.entry) (pair_view addressee.entry)
        (decimal number) elements.now) }
    ensures utf8 { OnOk result (list_all is_utf8
        (message_fields (pair_view sender.entry) (pair_view addressee.entry)
        (decimal number) elements.now) ≡ true) }
    ensures wrong { IsErrOf result RowFault.Wrong → list_all is_utf8
        (message_fields (pair_view sender.entry) (pair_view addressee.entry)
        (decimal number) elements.now) ≡ false }
{
    let mut buffer = Buffer::new();
    let number = buffer.format(number).as_bytes();
    let texts = message_texts(sender, addressee, number, elements);
    fill_record(fields, "Message", &texts)
}

// What the desk reads of the record in the list.
fn parse_fields(alloc: Global, fields: &FieldBuffer) -> Result<Opening, HeaderFault>
    ensures { (behind : List (List ℕ)) → fields.now ≡ codes "Message" ∷ behind
        → list_all is_utf8 behind ≡ true → IsOpening result (parsed_opening behind) }
{
    let mut list = Vec::new(alloc);
    match read_opening(alloc, &fields.as_record(), &mut list) {
        Ok(opening) => Ok(opening),
        Err(RowFault::Wrong) => Err(HeaderFault::Refused(HeaderRefusal::Malformed)),
        Err(RowFault::Memory) => Err(HeaderFault::Memory),
    }
}

// What the record of a part of this number says to the desk.
fn opening_in(
    alloc: Global,
    sender: Pair<'_>,
    addressee: Pair<'_>,
    number: u32,
    elements: &Elements<'_>,
    fields: &mut FieldBuffer,
) -> Result<Opening, HeaderFault>
    ensures { IsOpening result (parsed_opening
        (message_fields (pair_view sender.entry) (pair_view addressee.entry)
        (decimal number) elements.now)) }
{
    match fill_message(sender, addressee, number, elements, fields) {
        Ok(()) => parse_fields(alloc, fields),
        Err(RowFault::Wrong) => Err(HeaderFault::Refused(HeaderRefusal::Malformed)),
        Err(RowFault::Memory) => Err(HeaderFault::Memory),
    }
}

/// The heading of a Header, by what stands in it, or why the message is refused. The
/// list takes the fields of the record with which the first part begins.
pub fn read_heading<'a>(
    alloc: Global,
    choices: &Choices<'a>,
    elements: &Elements<'a>,
    fields: &mut FieldBuffer,
) -> Result<Heading<'a>, HeaderFault>
    ensures { IsHeading result (heading_in (choices_view choices.now) elements.now) }
{
    let sender = sender_in(choices, elements)?;
    let addressee = addressee_pair(choices, elements)?;
    let number = number_in(choices, elements)?;
    let opening = opening_in(alloc, sender, addressee, number, elements, fields)?;
    Ok(Heading {
        sender,
        addressee,
        number,
        opening,
    })
}

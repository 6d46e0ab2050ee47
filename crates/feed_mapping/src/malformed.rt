//! Which field of a Header the desk would not take.

use crate::elements::{elements_in, text_or_empty};
use crate::header::{Choices, addressee_in, has_whole};
use crate::identifiers::{ADDRESSEE, SENDER, choose_identifier};
use crate::parties::Pair;
use crate::records::{is_field, parsed_code, parsed_currency};
use feed_outline::Elements;

/// A field of the record with which a message begins.
#[derive(Clone, Copy, Debug, PartialEq, Eq)]
pub enum HeaderField {
    SenderType,
    SenderValue,
    AddresseeType,
    AddresseeValue,
    SentDateTime,
    PriceType,
    Currency,
}

/// A field that the desk would not take, and its text, empty where it has none.
#[derive(Clone, Copy, Debug)]
pub struct WrongField<'a> {
    pub field: HeaderField,
    pub text: &'a [u8],
}

// The first part of an identifier that the desk would not take.
fn wrong_pair<'a>(
    pair: Pair<'a>,
    id_type: HeaderField,
    id_value: HeaderField,
) -> Option<WrongField<'a>> {
    if parsed_code(pair.id_type).is_none() {
        return Some(WrongField {
            field: id_type,
            text: pair.id_type,
        });
    }
    if is_field(pair.id_value) {
        return None;
    }
    Some(WrongField {
        field: id_value,
        text: pair.id_value,
    })
}

// The part of the sender's identifier, where the caller gives none in its place.
fn wrong_sender<'a>(choices: &Choices<'a>, elements: &Elements<'a>) -> Option<WrongField<'a>> {
    let sender = elements_in(b"Sender", elements);
    if choices.sender.is_some() && !has_whole(SENDER, &sender) {
        return None;
    }
    let pair = choose_identifier(SENDER, choices.id_type, &sender)?;
    wrong_pair(pair, HeaderField::SenderType, HeaderField::SenderValue)
}

// The part of the addressee's identifier.
fn wrong_addressee<'a>(choices: &Choices<'a>, elements: &Elements<'a>) -> Option<WrongField<'a>> {
    match addressee_in(choices.addressee, elements) {
        Ok(addressee) => {
            let pair = choose_identifier(ADDRESSEE, choices.id_type, &addressee)?;
            wrong_pair(
                pair,
                HeaderField::AddresseeType,
                HeaderField::AddresseeValue,
            )
        }
        Err(_) => None,
    }
}

// A field with a text that is none, by whether the desk takes it.
fn unless_taken<'a>(is_taken: bool, field: HeaderField, text: &'a [u8]) -> Option<WrongField<'a>> {
    if is_taken || text.is_empty() {
        None
    } else {
        Some(WrongField { field, text })
    }
}

// The first of the fields that are texts.
fn wrong_text<'a>(elements: &Elements<'a>) -> Option<WrongField<'a>> {
    let sent = text_or_empty(b"SentDateTime", elements);
    let price_type = text_or_empty(b"DefaultPriceType", elements);
    let currency = text_or_empty(b"DefaultCurrencyCode", elements);
    let is_type = parsed_code(price_type).is_some();
    let is_currency = parsed_currency(currency).is_some();
    match unless_taken(is_field(sent), HeaderField::SentDateTime, sent) {
        Some(found) => Some(found),
        None => match unless_taken(is_type, HeaderField::PriceType, price_type) {
            Some(found) => Some(found),
            None => unless_taken(is_currency, HeaderField::Currency, currency),
        },
    }
}

/// The first field of a Header, whose elements these are, that the desk would not take, for whoever
/// says why it is refused as malformed. Nothing is proved of it.
pub fn malformed_field<'a>(
    choices: &Choices<'a>,
    elements: &Elements<'a>,
) -> Option<WrongField<'a>> {
    match wrong_sender(choices, elements) {
        Some(found) => Some(found),
        None => match wrong_addressee(choices, elements) {
            Some(found) => Some(found),
            None => wrong_text(elements),
        },
    }
}

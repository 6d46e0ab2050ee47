//! Texts of elements as the fields of a record.

ghost use Rattle.std.specs.Prelude.{◌≡◌, ◌==◌, ◌++◌, IfNone, IfSome, IsErrOf, OnOk, is_some, map, true, false};
ghost use Rattle.std.specs.List.{list_all};
ghost use Rattle.std.specs.Option.{option_or, option_to_list};
ghost use Rattle.std.specs.Str.{is_utf8};
ghost use Rattle.onix_records.specs.Fields.{value_or_default, unless_empty};
ghost use Rattle.feed_mapping.specs.PriceViews.{reason_read};
ghost use Rattle.feed_mapping.specs.Records.{first_some, is_field, parsed_term, unless};
ghost use Rattle.onix_terms.specs.Code.{code2_of, currency_of};
ghost use Rattle.onix_terms.specs.Quantity.{quantity_of};

use crate::notes::{Reason, Wrong};
use csv_records::fields::FieldBuffer;
use onix_records::fields::is_clean;
use onix_records::row::RowFault;
use onix_terms::code::{Code2, Currency};
use onix_terms::items::Items;
use onix_terms::quantity::Quantity;
use std::alloc::AllocError;

/// Adds an item, where there is one.
pub(crate) fn push_some<T: Drop>(items: &mut Items<T>, item: Option<T>) -> Result<(), AllocError>
    ensures { OnOk result (items.new ≡ items.old ++ option_to_list item) }
{
    match item {
        Some(item) => items.push(item),
        None => Ok(()),
    }
}

/// The text of bytes, where they are UTF-8.
pub fn utf8_text(bytes: &[u8]) -> Option<&str>
    ensures text { IfSome result (λ t. t.now ≡ bytes.now) }
    ensures utf8 { IfSome result (λ t. is_utf8 bytes.now ≡ true) }
    ensures none { IfNone result (is_utf8 bytes.now ≡ false) }
{
    match std::str::from_utf8(bytes) {
        Ok(text) => Some(text),
        Err(_) => None,
    }
}

pub(crate) fn parsed_code(text: &[u8]) -> Option<Code2>
    ensures { result ≡ parsed_term code2_of text.now }
{
    utf8_text(text)?.parse().ok()
}

pub(crate) fn parsed_currency(text: &[u8]) -> Option<Currency>
    ensures { result ≡ parsed_term currency_of text.now }
{
    utf8_text(text)?.parse().ok()
}

pub(crate) fn parsed_quantity(text: &[u8]) -> Option<Quantity>
    ensures { result ≡ parsed_term quantity_of text.now }
{
    utf8_text(text)?.parse().ok()
}

/// Whether the desk takes a text as a field that may not be empty.
pub(crate) fn is_field(text: &[u8]) -> bool
    ensures { result ≡ is_field text.now }
{
    !text.is_empty() && utf8_text(text).is_some() && is_clean(text)
}

/// Whether each byte is the digit 0.
pub(crate) fn are_zeros(text: &[u8]) -> bool
    ensures { result ≡ list_all (λ b. b == 48) text.now }
{
    text.iter().all(|byte| *byte == b'0')
}

/// Adds texts to the fields of a record. `Wrong` exactly where one is no UTF-8.
pub(crate) fn push_texts(fields: &mut FieldBuffer, texts: &[&[u8]]) -> Result<(), RowFault>
    ensures fields { OnOk result (fields.new ≡ fields.old ++ map (λ t. t.now) texts.now) }
    ensures utf8 { OnOk result (list_all is_utf8 (map (λ t. t.now) texts.now) ≡ true) }
    ensures wrong { IsErrOf result RowFault.Wrong
        → list_all is_utf8 (map (λ t. t.now) texts.now) ≡ false }
{
    let mut rest = texts;
    while let [bytes, tail @ ..] = rest {
        let Some(text) = utf8_text(bytes) else {
            return Err(RowFault::Wrong);
        };
        fields.push(text)?;
        rest = tail;
    }
    Ok(())
}

/// A reason where something does not hold.
pub(crate) fn unless<'a>(holds: bool, kind: Wrong, text: &'a [u8]) -> Option<Reason<'a>>
    ensures { reason_read result ≡ unless holds kind text.now }
{
    if holds {
        None
    } else {
        Some(Reason::wrong(kind, text))
    }
}

/// The first of two reasons that holds.
pub(crate) fn former<'a>(one: Option<Reason<'a>>, other: Option<Reason<'a>>) -> Option<Reason<'a>>
    ensures { reason_read result ≡ option_or (reason_read one.entry) (reason_read other.entry) }
{
    match one {
        Some(reason) => Some(reason),
        None => other,
    }
}

/// The first of some reasons that holds.
pub(crate) fn first_of<'a>(reasons: &[Option<Reason<'a>>]) -> Option<Reason<'a>>
    ensures { reason_read result ≡ first_some (map reason_read reasons.now) }
{
    match reasons {
        [] => None,
        [first, others @ ..] => former(*first, first_of(others)),
    }
}

/// Whether a text is empty, or its value is there.
pub(crate) fn may_be_empty<T: Drop>(text: &[u8], value: Option<T>) -> bool
    ensures { result ≡ is_some (unless_empty text.now value) }
{
    text.is_empty() || value.is_some()
}

/// The value of a text, or the default where it is empty.
pub(crate) fn value_or_default<T: Drop>(
    default: Option<T>,
    text: &[u8],
    value: Option<T>,
) -> Option<T>
    ensures { result ≡ value_or_default default text.now value }
{
    if text.is_empty() { default } else { value }
}

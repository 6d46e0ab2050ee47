//! A Product by itself: its reference, its NotificationType and its identifiers.

ghost use Rattle.std.specs.Prelude.{◌≡◌, ◌++◌, ◌<◌, ◌||◌, [], ℕ, List, IfOk, OnOk, Some, map, option_map};
ghost use Rattle.std.specs.Char.{is_ascii_digit};
ghost use Rattle.std.specs.List.{list_all};
ghost use Rattle.std.specs.Str.{chars};
ghost use Rattle.feed_mapping.specs.Notes.{note_views, reason_view};
ghost use Rattle.feed_mapping.specs.PartyViews.{pair_view};
ghost use Rattle.feed_mapping.specs.PriceViews.{reason_read};
ghost use Rattle.feed_mapping.specs.Products.{MayBe, are_some, graded, digit_byte, dropping, has_isbn, is_mark, identifier_note, identifier_notes, is_deletion, is_gtin_type, is_isbn, is_strange, is_thirteen, notification_in, or_reference, own_reasons, pair_reason, product_record, reference_in, right_pair, right_pairs, thirteen_of, type_of, value_of, without_marks, written_value};
ghost use Rattle.feed_mapping.specs.Records.{first_some, unless};
ghost use Rattle.feed_mapping.specs.declared.notes.Wrong.TheVariants as bad;

use crate::elements::{Composite, next_composite, text_or_empty};
use crate::notes::{Foreign, Note, Reason, ReasonKind, Wrong, push_note};
use crate::parties::Pair;
use crate::records::{first_of, is_field, parsed_code, push_texts, unless, utf8_text};
use crate::strangers::{has_own_stranger, has_stranger_in};
use csv_records::fields::FieldBuffer;
use feed_outline::Elements;
use onix_terms::ascii::are_digits;
use std::alloc::{AllocError, Global};

/// The RecordReference, empty where there is none.
pub(crate) fn reference_in<'a>(elements: &Elements<'a>) -> &'a [u8]
    ensures { result.now ≡ reference_in elements.now }
{
    text_or_empty(b"RecordReference", elements)
}

/// The NotificationType, empty where there is none.
pub(crate) fn notification_in<'a>(elements: &Elements<'a>) -> &'a [u8]
    ensures { result.now ≡ notification_in elements.now }
{
    text_or_empty(b"NotificationType", elements)
}

/// Whether a Product is a deletion.
pub(crate) fn is_deletion(elements: &Elements<'_>) -> bool
    ensures { result ≡ is_deletion elements.now }
{
    notification_in(elements) == b"05".as_slice()
}

fn is_gtin_type(id_type: &[u8]) -> bool
    ensures { result ≡ is_gtin_type id_type.now }
{
    id_type == b"03".as_slice() || id_type == b"15".as_slice()
}

fn is_thirteen(text: &[u8]) -> bool
    ensures { result ≡ is_thirteen text.now }
{
    text.len() == 13 && are_digits(text)
}

// Whether a character is a hyphen or a space.
fn is_mark(c: char) -> bool
    ensures { result ≡ is_mark c }
{
    c == '-'
        || c == '\u{ad}'
        || (c >= '\u{2010}' && c <= '\u{2015}')
        || c == '\u{2212}'
        || c == ' '
        || c == '\u{a0}'
        || c == '\u{2009}'
        || c == '\u{202f}'
}

fn characters_of(alloc: Global, text: &str) -> Result<Vec<char>, AllocError>
    ensures { IfOk result (λ v. v.items ≡ chars text.now) }
{
    text.chars().collect(alloc)
}

// The characters of a text but hyphens and spaces.
fn without_marks(alloc: Global, text: &str) -> Result<Vec<char>, AllocError>
    ensures { IfOk result (λ v. v.items ≡ without_marks text.now) }
{
    let all = characters_of(alloc, text)?;
    all.iter().filter(|c| !is_mark(**c)).copied().collect(alloc)
}

fn are_all_digits(characters: &[char]) -> bool
    ensures { result ≡ list_all is_ascii_digit characters.now }
{
    characters.iter().all(|c| c.is_ascii_digit())
}

fn are_thirteen(characters: &[char]) -> bool
    ensures { result ≡ is_thirteen characters.now }
{
    characters.len() == 13 && are_all_digits(characters)
}

fn digit_byte(c: char) -> u8
    ensures { result ≡ digit_byte c }
{
    if c.is_ascii_digit() { c as u8 } else { 0 }
}

// Characters that are digits, as bytes.
fn bytes_of(alloc: Global, characters: &[char]) -> Result<Vec<u8>, AllocError>
    ensures { IfOk result (λ v. v.items ≡ map digit_byte characters.now) }
{
    characters.iter().map(|c| digit_byte(*c)).collect(alloc)
}

// The thirteen digits that are left of a value without hyphens and spaces.
fn thirteen_of(alloc: Global, value: &[u8]) -> Result<Option<Vec<u8>>, AllocError>
    ensures { IfOk result
        (λ d. MayBe (option_map (λ v. v.items) d) (thirteen_of value.now) value.now) }
{
    let Some(text) = utf8_text(value) else {
        return Ok(None);
    };
    let characters = without_marks(alloc, text)?;
    if are_thirteen(&characters) {
        Ok(Some(bytes_of(alloc, &characters)?))
    } else {
        Ok(None)
    }
}

// The digits that are written in place of a value.
fn digits_of(alloc: Global, id_type: &[u8], value: &[u8]) -> Result<Option<Vec<u8>>, AllocError>
    ensures { IfOk result (λ d. MayBe (option_map (λ v. v.items) d)
        (written_value id_type.now value.now) value.now) }
{
    if is_gtin_type(id_type) && !is_thirteen(value) {
        thirteen_of(alloc, value)
    } else {
        Ok(None)
    }
}

// The digits, where there are such, else the value.
fn or_value<'b>(digits: &'b Option<Vec<u8>>, value: &'b [u8]) -> &'b [u8]
    ensures { (written : List ℕ)
        → MayBe (option_map (λ v. v.items) digits.now) written value.now
        → result.now ≡ written }
{
    match digits {
        Some(digits) => digits.as_slice(),
        None => value,
    }
}

// Why the desk would not take an identifier.
fn pair_reason<'a>(id_type: &'a [u8], written: &[u8], stands: &'a [u8]) -> Option<Reason<'a>>
    ensures { reason_read result ≡ pair_reason id_type.now written.now stands.now }
{
    first_of(&[
        unless(
            parsed_code(id_type).is_some(),
            Wrong::IdentifierType,
            id_type,
        ),
        unless(is_field(written), Wrong::IdentifierValue, stands),
    ])
}

// What is wrong with an identifier is foreign beside one by which the product is found.
fn graded<'a>(is_found: bool, reason: Reason<'a>) -> Reason<'a>
    ensures { reason_view result ≡ graded is_found (reason_view reason.entry) }
{
    if !is_found {
        return reason;
    }
    let kind = match reason.kind {
        ReasonKind::Wrong(Wrong::IdentifierType) => ReasonKind::Foreign(Foreign::IdentifierType),
        ReasonKind::Wrong(Wrong::IdentifierValue) => ReasonKind::Foreign(Foreign::IdentifierValue),
        kind => kind,
    };
    Reason {
        kind,
        text: reason.text,
    }
}

// Adds texts that are UTF-8 to the fields of a record.
fn push_utf8(fields: &mut FieldBuffer, texts: &[&[u8]]) -> Result<(), AllocError>
    ensures { OnOk result (fields.new ≡ fields.old ++ map (λ t. t.now) texts.now) }
{
    match push_texts(fields, texts) {
        Ok(()) => Ok(()),
        Err(_) => Err(AllocError),
    }
}

/// The identifiers of a Product: the types and values that are written, and whether the desk would
/// find it by one of them as an ISBN.
#[derive(Drop)]
pub(crate) struct Identifiers {
    pub(crate) pairs: FieldBuffer,
    pub(crate) has_isbn: bool,
}

// The type of an identifier, empty where it is absent.
fn type_of<'a>(identifier: &Composite<'a>) -> &'a [u8]
    ensures { result.now ≡ type_of identifier.now }
{
    text_or_empty(b"ProductIDType", &identifier.below)
}

// The value of an identifier, empty where it is absent.
fn value_of<'a>(identifier: &Composite<'a>) -> &'a [u8]
    ensures { result.now ≡ value_of identifier.now }
{
    text_or_empty(b"IDValue", &identifier.below)
}

// Whether the desk would find the product by an identifier as an ISBN.
fn is_isbn(alloc: Global, identifier: &Composite<'_>) -> Result<bool, AllocError>
    ensures { IfOk result (λ is. is ≡ is_isbn identifier.now) }
{
    let id_type = type_of(identifier);
    let value = value_of(identifier);
    let digits = digits_of(alloc, id_type, value)?;
    Ok(is_gtin_type(id_type) && is_thirteen(or_value(&digits, value)))
}

// Whether the desk would find the product by an ISBN.
fn has_isbn(alloc: Global, elements: &Elements<'_>) -> Result<bool, AllocError>
    ensures { IfOk result (λ has. has ≡ has_isbn elements.now) }
{
    let mut rest = elements.copy();
    while let Some((identifier, behind)) = next_composite(b"ProductIdentifier", &rest) {
        if is_isbn(alloc, &identifier)? {
            return Ok(true);
        }
        rest = behind;
    }
    Ok(false)
}

// Takes an identifier, and adds a note on it where it is left out; whether the product is found by
// an ISBN decides how grave that is.
fn take_identifier<'a>(
    alloc: Global,
    is_found: bool,
    identifier: &Composite<'a>,
    pairs: &mut FieldBuffer,
    notes: &mut Vec<Note<'a>>,
) -> Result<(), AllocError>
    ensures pairs { OnOk result (pairs.new ≡ pairs.old ++ right_pair identifier.now) }
    ensures notes { OnOk result (note_views notes.new.items
        ≡ note_views notes.old.items ++ identifier_note identifier.now is_found) }
{
    let id_type = type_of(identifier);
    let value = value_of(identifier);
    let digits = digits_of(alloc, id_type, value)?;
    let written = or_value(&digits, value);
    if id_type.is_empty() && value.is_empty() {
        return Ok(());
    }
    match pair_reason(id_type, written, value) {
        None => push_utf8(pairs, &[id_type, written]),
        Some(reason) => push_note(notes, identifier.line, graded(is_found, reason)),
    }
}

/// Takes the identifiers of a Product by the elements in it, and adds a note
/// on each that the desk would not take.
pub(crate) fn take_identifiers<'a>(
    alloc: Global,
    elements: &Elements<'a>,
    notes: &mut Vec<Note<'a>>,
) -> Result<Identifiers, AllocError>
    ensures pairs { IfOk result (λ i. i.pairs ≡ right_pairs elements.now) }
    ensures notes { OnOk result (note_views notes.new.items
        ≡ note_views notes.old.items ++ identifier_notes elements.now) }
{
    let has_isbn = has_isbn(alloc, elements)?;
    let mut pairs = FieldBuffer::new(alloc);
    let mut rest = elements.copy();
    while let Some((identifier, behind)) = next_composite(b"ProductIdentifier", &rest) {
        take_identifier(alloc, has_isbn, &identifier, &mut pairs, notes)?;
        rest = behind;
    }
    Ok(Identifiers { pairs, has_isbn })
}

// Adds these types and values; where there are none, the type 01 and the reference.
fn push_or_reference(
    fields: &mut FieldBuffer,
    reference: &[u8],
    pairs: &FieldBuffer,
) -> Result<(), AllocError>
    ensures { OnOk result
        (fields.new ≡ fields.old ++ or_reference reference.now pairs.now) }
{
    if pairs.len() == 0 {
        push_utf8(fields, &[b"01", reference])
    } else {
        fields.push_record(&pairs.as_record())
    }
}

/// Puts the record of a Product of this NotificationType, with these types and values, in place of
/// what the list had. Its texts are UTF-8.
pub(crate) fn fill_product(
    notification: &[u8],
    pairs: &FieldBuffer,
    elements: &Elements<'_>,
    fields: &mut FieldBuffer,
) -> Result<(), AllocError>
    ensures { OnOk result (fields.new ≡ product_record notification.now pairs.now elements.now) }
{
    let reference = reference_in(elements);
    fields.clear();
    push_utf8(fields, &[b"Product", reference, notification])?;
    push_or_reference(fields, reference, pairs)
}

/// The NotificationType of a Product that is written without supplies.
pub(crate) fn dropping<'a>(notification: &'a [u8]) -> &'a [u8]
    ensures { result.now ≡ dropping notification.now }
{
    if parsed_code(notification).is_none() || notification == b"04".as_slice() {
        b"03"
    } else {
        notification
    }
}

// Whether an element that is looked at is of another namespace, and called as one that counts
// there.
fn is_strange(supplier: Option<Pair<'_>>, elements: &Elements<'_>) -> bool
    ensures { result ≡ is_strange (option_map pair_view supplier.entry) elements.now }
{
    if is_deletion(elements) {
        has_stranger_in(b"ProductIdentifier", elements)
    } else {
        has_own_stranger(supplier, elements)
    }
}

// That no identifier is left.
fn left_reason(pairs: &FieldBuffer, elements: &Elements<'_>) -> Option<Reason<'static>>
    ensures { reason_read result
        ≡ unless (is_deletion elements.now || are_some pairs.now) bad.NoIdentifierLeft [] }
{
    let are_left = is_deletion(elements) || pairs.len() > 0;
    unless(are_left, Wrong::NoIdentifierLeft, b"")
}

/// Why a Product with these types and values is emptied, whatever its supplies are.
pub(crate) fn own_reason<'a>(
    supplier: Option<Pair<'_>>,
    pairs: &FieldBuffer,
    elements: &Elements<'a>,
) -> Option<Reason<'a>>
    ensures { reason_read result ≡ first_some
        (own_reasons (option_map pair_view supplier.entry) pairs.now elements.now) }
{
    let text = notification_in(elements);
    first_of(&[
        unless(parsed_code(text).is_some(), Wrong::NotificationType, text),
        left_reason(pairs, elements),
        unless(!is_strange(supplier, elements), Wrong::OtherNamespace, b""),
    ])
}

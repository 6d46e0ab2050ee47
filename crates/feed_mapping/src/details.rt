//! SupplyDetails.

ghost use Rattle.std.specs.Prelude.{◌≡◌, ◌++◌, ◌∷◌, ◌+◌, ◌<◌, [], ℕ, List, None, Some, IfOk, OnOk, true, is_some, map, codes, option_map};
ghost use Rattle.std.specs.List.{list_all};
ghost use Rattle.std.specs.Option.{unwrap_or};
ghost use Rattle.std.specs.Str.{is_utf8};
ghost use Rattle.feed_mapping.specs.Details.{context_by, old_supply, detail_fields, detail_outcome, detail_reasons, detail_reason, identifier_reasons, name_reason, supplier_id, unpriced_in, unpriced_price};
ghost use Rattle.feed_outline.specs.Composites.{text_in};
ghost use Rattle.feed_mapping.specs.Notes.{note_views, wrong};
ghost use Rattle.feed_mapping.specs.Outcomes.{all_notes, all_records, notes_below, outcome_reason, outcome_records, written_unless};
ghost use Rattle.feed_mapping.specs.PartyViews.{pair_view};
ghost use Rattle.feed_mapping.specs.PriceViews.{reason_read, text_view};
ghost use Rattle.feed_mapping.specs.PriceTerms.{priced_by};
ghost use Rattle.feed_mapping.specs.PriceTexts.{price_view};
ghost use Rattle.feed_mapping.specs.Prices.{context_view, price_outcome};
ghost use Rattle.feed_mapping.specs.Records.{first_some, option_filter, parsed, parsed_term};
ghost use Rattle.onix_terms.specs.Quantity.{quantity_of};
ghost use Rattle.feed_mapping.specs.SupplyChoices.{supply_choices_view};
ghost use Rattle.feed_mapping.specs.declared.notes.Wrong.TheVariants as bad;
ghost use Rattle.onix_records.specs.Detail.{detail_of};
ghost use Rattle.onix_records.specs.Gives.{Gives};

use crate::closing_prices::closing_kinds;
use crate::elements::{elements_in, next_composite, text_or_empty};
use crate::identifiers::{SUPPLIER, choose_identifier, is_there};
use crate::narrower::First;
use crate::narrower_prices::firsts_in;
use crate::notes::{Note, Reason, Wrong};
use crate::other_suppliers::next_detail;
use crate::parties::{NO_PAIR, Pair};
use crate::price_terms::{add_computed_prices, supplier_of};
use crate::price_texts::{PriceTexts, first_with_text, prices_in};
use crate::prices::{PriceContext, add_price, because_old, fill_record};
use crate::records::{first_of, is_field, may_be_empty, parsed_code, parsed_quantity, unless};
use crate::supply_choices::SupplyChoices;
use csv_records::buffer::RecordBuffer;
use csv_records::fields::FieldBuffer;
use csv_records::record::Record;
use feed_outline::{Elements, text_in};
use feed_terms::price::Kind;
use onix_records::detail::read_detail;
use onix_records::fields::read_fields;
use onix_records::parts::SupplyDetail;
use onix_records::row::{Opening, RowFault};
use std::alloc::{AllocError, Global};

// The UnpricedItemType of a Price without an amount, where it is a code.
fn unpriced_price<'a>(elements: &Elements<'a>) -> Option<&'a [u8]>
    ensures { text_view result ≡ unpriced_price elements.now }
{
    if text_in(b"PriceAmount", elements).is_some() {
        return None;
    }
    let text = text_in(b"UnpricedItemType", elements)?;
    if parsed_code(text).is_some() {
        Some(text)
    } else {
        None
    }
}

// The UnpricedItemType of a SupplyDetail, else the first such one of its Prices.
fn unpriced_in<'a>(elements: &Elements<'a>) -> Option<&'a [u8]>
    ensures { text_view result ≡ unpriced_in elements.now }
{
    if let Some(text) = text_in(b"UnpricedItemType", elements) {
        return Some(text);
    }
    let mut rest = elements.copy();
    while let Some((price, behind)) = next_composite(b"Price", &rest) {
        if let Some(text) = unpriced_price(&price.below) {
            return Some(text);
        }
        rest = behind;
    }
    None
}

// The identifier of the supplier that is chosen.
fn supplier_id<'a>(preferred: &[u8], elements: &Elements<'a>) -> Pair<'a>
    ensures { pair_view result ≡ supplier_id preferred.now elements.now }
{
    let supplier = elements_in(b"Supplier", elements);
    match choose_identifier(SUPPLIER, preferred, &supplier) {
        Some(identifier) => identifier,
        None => NO_PAIR,
    }
}

// The texts of the fields of a SupplyDetail whose supplier has this identifier.
fn detail_texts<'a>(supplier: Pair<'a>, elements: &Elements<'a>) -> [&'a [u8]; 6]
    ensures { (preferred : List ℕ) → pair_view supplier.entry ≡ supplier_id preferred elements.now
        → map (λ t. t.now) result ≡ detail_fields preferred elements.now }
{
    let below = elements_in(b"Supplier", elements);
    [
        text_or_empty(b"SupplierRole", &below),
        supplier.id_type,
        supplier.id_value,
        text_or_empty(b"SupplierName", &below),
        text_or_empty(b"ProductAvailability", elements),
        unpriced_in(elements).unwrap_or(b""),
    ]
}

// The SupplyDetail that the desk reads of fields that are UTF-8.
fn parse_fields(alloc: Global, from: &Record<'_>) -> Result<SupplyDetail, RowFault>
    ensures { list_all is_utf8 from.now ≡ true → Gives result (parsed detail_of from.now) }
{
    let mut fields = Vec::new(alloc);
    read_fields(from, &mut fields)?;
    read_detail(alloc, &fields)
}

// Whether the desk reads a SupplyDetail of the record in the list.
fn is_taken(alloc: Global, fields: &FieldBuffer) -> Result<bool, AllocError>
    ensures { (behind : List (List ℕ)) → fields.now ≡ codes "SupplyDetail" ∷ behind
        → list_all is_utf8 behind ≡ true
        → IfOk result (λ is. is ≡ is_some (parsed detail_of behind)) }
{
    let record = fields.as_record();
    let Some((_, behind)) = record.split_first() else {
        return Ok(false);
    };
    match parse_fields(alloc, &behind) {
        Ok(_) => Ok(true),
        Err(RowFault::Wrong) => Ok(false),
        Err(RowFault::Memory) => Err(AllocError),
    }
}

// Puts the record of these fields in place of what the list had, and says whether the desk takes
// it.
fn take_texts(alloc: Global, fields: &mut FieldBuffer, texts: &[&[u8]]) -> Result<bool, AllocError>
    ensures record { IfOk result (λ is. is ≡ true
        → fields.new ≡ codes "SupplyDetail" ∷ map (λ t. t.now) texts.now) }
    ensures taken { IfOk result
        (λ is. is ≡ is_some (parsed detail_of (map (λ t. t.now) texts.now))) }
{
    match fill_record(fields, "SupplyDetail", texts) {
        Ok(()) => is_taken(alloc, fields),
        Err(RowFault::Wrong) => Ok(false),
        Err(RowFault::Memory) => Err(AllocError),
    }
}

// That there is an element of ONIX 2.1 that says where a SupplyDetail holds.
fn old_supply(elements: &Elements<'_>) -> Option<Reason<'static>>
    ensures { reason_read result ≡ option_map (wrong bad.OldElement) (old_supply elements.now) }
{
    because_old(first_with_text(
        &[
            b"SupplyToCountry",
            b"SupplyToRegion",
            b"SupplyToCountryExcluded",
            b"SupplyToTerritory",
        ],
        elements,
    ))
}

// Adds the record of a SupplyDetail whose supplier has this identifier, or gives the reason for
// which it is left out.
fn write_detail<'a>(
    alloc: Global,
    supplier: Pair<'a>,
    elements: &Elements<'a>,
    fields: &mut FieldBuffer,
    records: &mut RecordBuffer,
) -> Result<Option<Reason<'a>>, AllocError>
    ensures reason { (preferred : List ℕ)
        → pair_view supplier.entry ≡ supplier_id preferred elements.now
        → IfOk result (λ reason. reason_read reason ≡ detail_reason preferred elements.now) }
    ensures record { (preferred : List ℕ)
        → pair_view supplier.entry ≡ supplier_id preferred elements.now
        → OnOk result (records.new ≡ records.old ++ outcome_records
        (written_unless (detail_reason preferred elements.now)
        ((codes "SupplyDetail" ∷ detail_fields preferred elements.now) ∷ []) [])) }
{
    if let Some(reason) = old_supply(elements) {
        return Ok(Some(reason));
    }
    if take_texts(alloc, fields, &detail_texts(supplier, elements))? {
        records.push(&fields.as_record())?;
        return Ok(None);
    }
    match field_reason(supplier, elements) {
        Some(reason) => Ok(Some(reason)),
        None => Ok(Some(Reason::wrong(Wrong::SupplyDetail, b""))),
    }
}

// What is wrong with the identifier of a supplier, who has this name.
fn identifier_reason<'a>(supplier: Pair<'a>, name: &[u8]) -> Option<Reason<'a>>
    ensures { reason_read result
        ≡ first_some (identifier_reasons (pair_view supplier.entry) name.now) }
{
    if !is_there(supplier) {
        return first_of(&[unless(!name.is_empty(), Wrong::Supplier, b"")]);
    }
    let id_type = supplier.id_type;
    let id_value = supplier.id_value;
    first_of(&[
        unless(parsed_code(id_type).is_some(), Wrong::SupplierType, id_type),
        unless(is_field(id_value), Wrong::SupplierValue, id_value),
    ])
}

// That the desk would not take the SupplierName.
fn name_reason<'a>(name: &'a [u8]) -> Option<Reason<'a>>
    ensures { reason_read result ≡ name_reason name.now }
{
    if name.is_empty() {
        return None;
    }
    unless(is_field(name), Wrong::SupplierName, name)
}

// The first field of a SupplyDetail that the desk would not take.
fn field_reason<'a>(supplier: Pair<'a>, elements: &Elements<'a>) -> Option<Reason<'a>>
    ensures { (preferred : List ℕ) → pair_view supplier.entry ≡ supplier_id preferred elements.now
        → reason_read result ≡ first_some (detail_reasons preferred elements.now) }
{
    let below = elements_in(b"Supplier", elements);
    let role = text_or_empty(b"SupplierRole", &below);
    let name = text_or_empty(b"SupplierName", &below);
    let availability = text_or_empty(b"ProductAvailability", elements);
    let unpriced = unpriced_in(elements).unwrap_or(b"");
    let is_unpriced = may_be_empty(unpriced, parsed_code(unpriced));
    first_of(&[
        unless(parsed_code(role).is_some(), Wrong::SupplierRole, role),
        identifier_reason(supplier, name),
        name_reason(name),
        unless(
            parsed_code(availability).is_some(),
            Wrong::Availability,
            availability,
        ),
        unless(is_unpriced, Wrong::Unpriced, unpriced),
    ])
}

/// Why the first SupplyDetail among the elements that counts is left out, where it is.
pub(crate) fn first_detail_reason<'a>(
    alloc: Global,
    supplier: Option<Pair<'_>>,
    preferred: &[u8],
    elements: &Elements<'a>,
) -> Result<Option<Reason<'a>>, AllocError> {
    match next_detail(supplier, elements) {
        Some((detail, _)) => {
            let supplier = supplier_id(preferred, &detail.below);
            let mut fields = FieldBuffer::new(alloc);
            let mut records = RecordBuffer::new(alloc);
            write_detail(alloc, supplier, &detail.below, &mut fields, &mut records)
        }
        None => Ok(None),
    }
}

// The OrderQuantityMinimum, where it is a quantity.
fn default_minimum<'a>(elements: &Elements<'a>) -> Option<&'a [u8]>
    ensures { text_view result ≡ option_filter (λ text. is_some (parsed_term quantity_of text))
        (text_in (codes "OrderQuantityMinimum") elements.now) }
{
    let text = text_in(b"OrderQuantityMinimum", elements)?;
    if parsed_quantity(text).is_some() {
        Some(text)
    } else {
        None
    }
}

// The context of the Prices of a SupplyDetail, by what closes them, and what goes before them.
fn context_by<'a, 'b, 'c>(
    opening: &'a Opening,
    closed: &'c [Kind],
    firsts: &'c [First],
    elements: &Elements<'b>,
) -> PriceContext<'a, 'b, 'c>
    ensures { context_view result
        ≡ context_by opening.now closed.now firsts.now elements.now }
{
    PriceContext {
        opening,
        is_unpriced: unpriced_in(elements).is_some(),
        minimum: default_minimum(elements),
        closed,
        firsts,
    }
}

// Adds what comes of the Prices of a SupplyDetail.
fn add_prices<'a>(
    context: &PriceContext<'_, '_, '_>,
    prices: &[PriceTexts<'a>],
    fields: &mut FieldBuffer,
    records: &mut RecordBuffer,
    notes: &mut Vec<Note<'a>>,
) -> Result<(), AllocError>
    ensures records { OnOk result (records.new ≡ records.old
        ++ all_records (price_outcome (context_view context.now)) (map price_view prices.now)) }
    ensures notes { OnOk result (note_views notes.new.items ≡ note_views notes.old.items
        ++ all_notes (price_outcome (context_view context.now)) (map price_view prices.now)) }
{
    let mut rest = prices;
    while let [price, behind @ ..] = rest {
        add_price(context, price, fields, records, notes)?;
        rest = behind;
    }
    Ok(())
}

// Adds what comes of the Prices of a SupplyDetail whose supplier has this identifier, with the
// prices that the terms of the shop compute, if it has any.
fn add_priced<'a>(
    choices: &SupplyChoices<'_>,
    supplier: Pair<'a>,
    context: &PriceContext<'_, '_, '_>,
    prices: &[PriceTexts<'a>],
    fields: &mut FieldBuffer,
    records: &mut RecordBuffer,
    notes: &mut Vec<Note<'a>>,
) -> Result<(), AllocError>
    ensures records { OnOk result (records.new ≡ records.old
        ++ priced_by (supply_choices_view choices.now).terms (pair_view supplier.entry)
        (context_view context.now) (map price_view prices.now)) }
    ensures notes { OnOk result (note_views notes.new.items ≡ note_views notes.old.items
        ++ all_notes (price_outcome (context_view context.now)) (map price_view prices.now)) }
{
    let Some(terms) = choices.terms else {
        return add_prices(context, prices, fields, records, notes);
    };
    let supplier = supplier_of(*notes.allocator(), supplier)?;
    let supplier = supplier.as_ref();
    add_computed_prices(terms, supplier, context, prices, fields, records, notes)
}

/// Adds the records of a SupplyDetail and of its Prices in a message that begins so, and notes on
/// what is left out below it, or gives the reason for which it is left out. Of several identifiers
/// the first of the preferred type is written, else the first. The list takes the fields of a
/// record.
pub(crate) fn add_detail<'a>(
    alloc: Global,
    opening: &Opening,
    choices: &SupplyChoices<'_>,
    elements: &Elements<'a>,
    fields: &mut FieldBuffer,
    records: &mut RecordBuffer,
    notes: &mut Vec<Note<'a>>,
) -> Result<Option<Reason<'a>>, AllocError>
    ensures reason { IfOk result (λ reason. reason_read reason
        ≡ outcome_reason
        (detail_outcome opening.now (supply_choices_view choices.now) elements.now)) }
    ensures records { OnOk result (records.new ≡ records.old
        ++ outcome_records
        (detail_outcome opening.now (supply_choices_view choices.now) elements.now)) }
    ensures notes { OnOk result (note_views notes.new.items ≡ note_views notes.old.items
        ++ notes_below
        (detail_outcome opening.now (supply_choices_view choices.now) elements.now)) }
{
    let supplier = supplier_id(choices.id_type, elements);
    let left_out = write_detail(alloc, supplier, elements, fields, records)?;
    if left_out.is_none() {
        let prices = prices_in(alloc, elements)?;
        let prices = prices.as_slice();
        let first = context_by(opening, &[], &[], elements);
        let closed = closing_kinds(alloc, &first, prices, fields)?;
        let firsts = firsts_in(alloc, &first, prices)?;
        let context = context_by(opening, closed.as_slice(), firsts.as_slice(), elements);
        add_priced(choices, supplier, &context, prices, fields, records, notes)?;
    }
    Ok(left_out)
}

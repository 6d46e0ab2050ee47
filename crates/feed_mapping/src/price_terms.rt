//! What the terms of the shop see of the Prices of a SupplyDetail, and what comes of them by these.

ghost use Rattle.std.specs.Prelude.{◌≡◌, ◌≤◌, ◌++◌, IfOk, OnOk, codes, length, map};
ghost use Rattle.std.specs.List.{flat_map};
ghost use Rattle.std.specs.Option.{option_copied, option_to_list};
ghost use Rattle.feed_mapping.specs.Elements.{composites};
ghost use Rattle.feed_mapping.specs.Notes.{note_views};
ghost use Rattle.feed_mapping.specs.Outcomes.{all_notes, outcome_notes, outcome_records};
ghost use Rattle.feed_mapping.specs.PartyViews.{pair_view};
ghost use Rattle.feed_mapping.specs.PriceTexts.{price_view};
ghost use Rattle.feed_mapping.specs.Prices.{context_view, price_outcome};
ghost use Rattle.feed_mapping.specs.PriceTerms.{AreWritten, area_text, closed_by, code_in, discount_in, given_in, given_of, is_garbled, is_mixed, is_of_terms, kinds_closed, records_with, supplier_of, tax_in};

use crate::again::comes_again;
use crate::elements::{Composite, next_composite, text_or_empty};
use crate::identifiers::is_there;
use crate::notes::{Foreign, Note, push_aside};
use crate::parties::Pair;
use crate::price_kinds::kind_in;
use crate::price_texts::PriceTexts;
use crate::prices::{PriceContext, add_price, is_for_others, price_in};
use crate::records::{push_some, utf8_text};
use csv_records::buffer::RecordBuffer;
use csv_records::fields::FieldBuffer;
use csv_records::record::Record;
use feed_outline::{Elements, Line, text_in};
use feed_terms::percent::Percent;
use feed_terms::price::{Discount, GivenPrice, Kind, SaidCode, code_said};
use feed_terms::table::Terms;
use feed_terms::with_terms::{Remarks, add_with_terms};
use onix_records::parts::Price;
use onix_records::row::Opening;
use onix_terms::items::Items;
use onix_terms::text::Text;
use std::alloc::{AllocError, Global};

/// Whether an element of a Price is read for the terms alone.
pub(crate) fn is_of_terms(name: &[u8]) -> bool
    ensures { result ≡ is_of_terms name.now }
{
    name == b"DiscountCoded".as_slice()
        || name == b"Discount".as_slice()
        || name == b"Tax".as_slice()
}

// The name of an element that is called as one that the terms read, and is none.
const STRANGER: &[u8] = b";";

// Whether of what stands in such an element one is a stranger, or comes again.
fn is_mixed(elements: &Elements<'_>) -> bool
    ensures { result ≡ is_mixed elements.now }
{
    let mut rest = elements.copy();
    while let Some(node) = rest.first() {
        let name = node.line.name;
        let text = node.line.text.as_slice();
        if name == STRANGER || comes_again(name, text, &node.rest) {
            return true;
        }
        rest = node.rest;
    }
    false
}

// Whether one of the elements that the terms read is a stranger, or comes again in one of those.
fn is_garbled(elements: &Elements<'_>) -> bool
    ensures { result ≡ is_garbled elements.now }
{
    let mut rest = elements.copy();
    while let Some(node) = rest.first() {
        let name = node.line.name;
        if name == STRANGER || (is_of_terms(name) && is_mixed(&node.below)) {
            return true;
        }
        rest = node.rest;
    }
    false
}

// The code that a DiscountCoded says.
fn code_in(alloc: Global, coded: &Composite<'_>) -> Result<Option<SaidCode>, AllocError>
    ensures { IfOk result (λ code. code ≡ code_in coded.now) }
{
    let Some(code_type) = utf8_text(text_or_empty(b"DiscountCodeType", &coded.below)) else {
        return Ok(None);
    };
    let Some(scheme) = utf8_text(text_or_empty(b"DiscountCodeTypeName", &coded.below)) else {
        return Ok(None);
    };
    let Some(code) = utf8_text(text_or_empty(b"DiscountCode", &coded.below)) else {
        return Ok(None);
    };
    code_said(alloc, code_type, scheme, code)
}

// The codes that the DiscountCodeds of a Price say.
fn codes_in(alloc: Global, elements: &Elements<'_>) -> Result<Items<SaidCode>, AllocError>
    ensures { IfOk result (λ all. all
        ≡ flat_map (λ c. option_to_list (code_in c))
        (composites (codes "DiscountCoded") elements.now)) }
{
    let mut all = Items::new(alloc);
    let mut rest = elements.copy();
    while let Some((coded, behind)) = next_composite(b"DiscountCoded", &rest) {
        let code = code_in(alloc, &coded)?;
        push_some(&mut all, code)?;
        rest = behind;
    }
    Ok(all)
}

// The discount that a Discount says.
fn discount_in(discount: &Composite<'_>) -> Option<Discount>
    ensures { result ≡ discount_in discount.now }
{
    let discount_type = utf8_text(text_or_empty(b"DiscountType", &discount.below))?;
    let quantity = utf8_text(text_or_empty(b"Quantity", &discount.below))?;
    let percent = utf8_text(text_or_empty(b"DiscountPercent", &discount.below))?;
    Discount::read(discount_type, quantity, percent)
}

// The discounts that the Discounts of a Price say.
fn discounts_in(alloc: Global, elements: &Elements<'_>) -> Result<Items<Discount>, AllocError>
    ensures { IfOk result (λ all. all
        ≡ flat_map (λ c. option_to_list (discount_in c))
        (composites (codes "Discount") elements.now)) }
{
    let mut all = Items::new(alloc);
    let mut rest = elements.copy();
    while let Some((discount, behind)) = next_composite(b"Discount", &rest) {
        push_some(&mut all, discount_in(&discount))?;
        rest = behind;
    }
    Ok(all)
}

// The rate of the Tax of a Price, where it has just one: where that says no percent, none at all by
// the code Z.
fn tax_in(elements: &Elements<'_>) -> Option<Percent>
    ensures { result ≡ tax_in (composites (codes "Tax") elements.now) }
{
    let (tax, behind) = next_composite(b"Tax", elements)?;
    if next_composite(b"Tax", &behind).is_some() {
        return None;
    }
    let Some(percent) = text_in(b"TaxRatePercent", &tax.below) else {
        let is_zero = text_or_empty(b"TaxRateCode", &tax.below) == b"Z".as_slice();
        return if is_zero { Some(Percent::zero()) } else { None };
    };
    Percent::read_of_feed(utf8_text(percent)?)
}

// The fields of a territory, each with a comma behind it.
fn area_text(alloc: Global, fields: &Record<'_>) -> Result<Text, AllocError>
    ensures { IfOk result (λ text. text ≡ area_text fields.now) }
{
    let mut text = Text::new(alloc);
    for place in 0..fields.len() {
        text.push_str(fields.at(place))?;
        text.push_str(",")?;
    }
    Ok(text)
}

// A Price that says so, and what it says to the terms besides.
fn given_of(
    alloc: Global,
    price: Price,
    fields: &Record<'_>,
    elements: &Elements<'_>,
) -> Result<GivenPrice, AllocError>
    requires { 9 ≤ length fields.now }
    ensures { IfOk result (λ given. given ≡ given_of price fields.now elements.now) }
{
    Ok(GivenPrice {
        price,
        area: area_text(alloc, &fields.part(4, 7))?,
        codes: codes_in(alloc, elements)?,
        discounts: discounts_in(alloc, elements)?,
        tax: tax_in(elements),
        garbled: is_garbled(elements),
    })
}

// Adds the type and the currency of a Price that gives no record, or those of the header, each where
// it is one, unless it is for others.
fn push_closed(
    opening: &Opening,
    price: &PriceTexts<'_>,
    closed: &mut Vec<Kind>,
) -> Result<(), AllocError>
    ensures { OnOk result (closed.new.items
        ≡ closed.old.items ++ kinds_closed opening.now (price_view price.now)) }
{
    if is_for_others(price) {
        return Ok(());
    }
    let Kind {
        price_type,
        currency,
    } = kind_in(opening, price);
    closed.push(Kind {
        price_type,
        currency,
    })?;
    Ok(())
}

// Where a Price stands.
#[derive(Clone, Copy)]
struct Place<'a> {
    line: &'a Line,
}

// Of the Prices of a SupplyDetail those that are written: the record of each, what the terms see of
// it, and its place; and the type and currency of those that are not, unless they are for others.
#[derive(Drop)]
struct WrittenPrices<'a> {
    records: RecordBuffer,
    given: Vec<GivenPrice>,
    places: Vec<Place<'a>>,
    closed: Vec<Kind>,
}

// Adds what comes of a Price, and what the terms see of it.
fn add_written<'a>(
    alloc: Global,
    context: &PriceContext<'_, '_, '_>,
    price: &PriceTexts<'a>,
    fields: &mut FieldBuffer,
    written: &mut WrittenPrices<'a>,
    notes: &mut Vec<Note<'a>>,
) -> Result<(), AllocError>
    ensures records { OnOk result (written.new.records ≡ written.old.records ++ outcome_records
        (price_outcome (context_view context.now) (price_view price.now))) }
    ensures given { OnOk result (written.new.given.items ≡ written.old.given.items
        ++ given_in (context_view context.now) (price_view price.now)) }
    ensures closed { OnOk result (written.new.closed.items ≡ written.old.closed.items
        ++ closed_by (context_view context.now) (price_view price.now)) }
    ensures notes { OnOk result (note_views notes.new.items ≡ note_views notes.old.items
        ++ outcome_notes (price_outcome (context_view context.now) (price_view price.now))) }
{
    let count = written.records.len();
    add_price(context, price, fields, &mut written.records, notes)?;
    if written.records.len() == count {
        push_closed(context.opening, price, &mut written.closed)?;
        return Ok(());
    }
    // A record that is written is that of a Price, so it is memory that ran out.
    let Some(said) = price_in(alloc, context.opening, &written.records.record(count))? else {
        return Err(AllocError);
    };
    let given = given_of(alloc, said, &written.records.record(count), &price.below)?;
    written.given.push(given)?;
    written.places.push(Place { line: price.line })?;
    Ok(())
}

// Adds notes on what comes of the Prices of a SupplyDetail, and gives those that are written.
fn written_in<'a>(
    alloc: Global,
    context: &PriceContext<'_, '_, '_>,
    prices: &[PriceTexts<'a>],
    fields: &mut FieldBuffer,
    notes: &mut Vec<Note<'a>>,
) -> Result<WrittenPrices<'a>, AllocError>
    ensures written { IfOk result (λ w. AreWritten (context_view context.now)
        (map price_view prices.now) w.records w.given.items w.closed.items) }
    ensures notes { OnOk result (note_views notes.new.items ≡ note_views notes.old.items
        ++ all_notes (price_outcome (context_view context.now)) (map price_view prices.now)) }
{
    let mut written = WrittenPrices {
        records: RecordBuffer::new(alloc),
        given: Vec::new(alloc),
        places: Vec::new(alloc),
        closed: Vec::new(alloc),
    };
    let mut rest = prices;
    while let [price, behind @ ..] = rest {
        add_written(alloc, context, price, fields, &mut written, notes)?;
        rest = behind;
    }
    Ok(written)
}

/// The supplier of an identifier as a term has it.
pub(crate) fn supplier_of(alloc: Global, supplier: Pair<'_>) -> Result<Option<Text>, AllocError>
    ensures { IfOk result (λ text. text ≡ supplier_of (pair_view supplier.entry)) }
{
    if !is_there(supplier) {
        return Ok(None);
    }
    let Some(id_type) = utf8_text(supplier.id_type) else {
        return Ok(None);
    };
    let Some(id_value) = utf8_text(supplier.id_value) else {
        return Ok(None);
    };
    let mut text = Text::from_str(alloc, id_type)?;
    text.push_str(",")?;
    text.push_str(id_value)?;
    Ok(Some(text))
}

// Adds so many asides that a price that is computed of a Price is held back.
fn push_held<'a>(held: usize, line: &'a Line, notes: &mut Vec<Note<'a>>) -> Result<(), AllocError>
    ensures { OnOk result (note_views notes.new.items ≡ note_views notes.old.items) }
{
    let mut left = held;
    while left > 0 {
        push_aside(notes, line, Foreign::HeldBack, b"")?;
        left -= 1;
    }
    Ok(())
}

// Adds the asides on a Price of which that is said.
fn push_remarks<'a>(
    line: &'a Line,
    remarks: Remarks,
    notes: &mut Vec<Note<'a>>,
) -> Result<(), AllocError>
    ensures { OnOk result (note_views notes.new.items ≡ note_views notes.old.items) }
{
    if remarks.is_unfitted {
        push_aside(notes, line, Foreign::NoTerm, b"")?;
    }
    if remarks.is_free {
        push_aside(notes, line, Foreign::NothingToPay, b"")?;
    }
    push_held(remarks.held, line, notes)
}

// Adds the asides on Prices in these places, of each of which that is said.
fn push_all_remarks<'a>(
    places: &[Place<'a>],
    remarks: &[Remarks],
    notes: &mut Vec<Note<'a>>,
) -> Result<(), AllocError>
    ensures { OnOk result (note_views notes.new.items ≡ note_views notes.old.items) }
{
    let mut rest = places;
    let mut left = remarks;
    while let [place, others @ ..] = rest {
        let [said, more @ ..] = left else {
            return Ok(());
        };
        push_remarks(place.line, *said, notes)?;
        rest = others;
        left = more;
    }
    Ok(())
}

/// Adds the records of the Prices of a SupplyDetail, each with those behind it that the terms
/// compute, and notes.
pub(crate) fn add_computed_prices<'a>(
    terms: &Terms,
    supplier: Option<&Text>,
    context: &PriceContext<'_, '_, '_>,
    prices: &[PriceTexts<'a>],
    fields: &mut FieldBuffer,
    records: &mut RecordBuffer,
    notes: &mut Vec<Note<'a>>,
) -> Result<(), AllocError>
    ensures records { OnOk result (records.new ≡ records.old ++ records_with terms.now
        (option_copied supplier.entry) (context_view context.now) (map price_view prices.now)) }
    ensures notes { OnOk result (note_views notes.new.items ≡ note_views notes.old.items
        ++ all_notes (price_outcome (context_view context.now)) (map price_view prices.now)) }
{
    let alloc = *notes.allocator();
    let written = written_in(alloc, context, prices, fields, notes)?;
    let remarks = add_with_terms(
        alloc,
        terms,
        supplier,
        written.closed.as_slice(),
        written.given.as_slice(),
        &written.records,
        records,
    )?;
    push_all_remarks(written.places.as_slice(), remarks.as_slice(), notes)
}

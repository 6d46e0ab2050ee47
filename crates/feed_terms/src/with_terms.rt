//! The records of a SupplyDetail with the prices that are computed.

ghost use Rattle.std.specs.Prelude.{◌≡◌, ◌≤◌, ◌==◌, ◌++◌, OnOk, IfOk, filter, length, map, not};
ghost use Rattle.std.specs.Option.{option_copied};
ghost use Rattle.onix_records.specs.Price.{minimum_fields};
ghost use Rattle.feed_terms.specs.WithTerms.{HavePrices, computed_record, held_by, is_held_beside, with_computed, with_terms, written_of};

use crate::amounts::two_decimals;
use crate::barred::{is_barred, unfitted_places};
use crate::computed::{ComputedPrice, computed_by};
use crate::held_back::is_held;
use crate::price::{GivenPrice, Kind};
use crate::table::Terms;
use crate::term::Term;
use csv_records::buffer::RecordBuffer;
use csv_records::fields::FieldBuffer;
use csv_records::record::Record;
use itoa::Buffer;
use onix_records::parts::Price;
use onix_terms::quantity::Quantity;
use onix_terms::text::Text;
use std::alloc::{AllocError, Global};

/// What is said of a Price beside the prices that are written behind it.
#[derive(Clone, Copy, Debug)]
pub struct Remarks {
    /// How many computed prices are held back.
    pub held: usize,
    /// Whether an amount of 0 was computed that is not held back.
    pub is_free: bool,
    /// Whether no term fits it, though the table has one for its type and currency.
    pub is_unfitted: bool,
}

// What a SupplyDetail gives, by which computed prices are held back: the types and currencies of
// Prices that give no record, its prices, and the places of those that no term fits.
#[derive(Clone, Copy)]
struct Beside<'a> {
    closed: &'a [Kind],
    given: &'a [GivenPrice],
    barred: &'a [Text],
}

/// What comes of a Price by the terms.
#[derive(Drop)]
pub struct Outcome {
    /// The prices that are written behind it.
    pub written: Vec<ComputedPrice>,
    pub remarks: Remarks,
}

// Whether a price that is computed of another is held back by what is closed, or by a price.
fn is_held_by(beside: &Beside<'_>, price: &Price, computed: &ComputedPrice) -> bool
    ensures { result ≡ held_by beside.now price.now computed.now }
{
    is_held(
        beside.closed,
        beside.given,
        computed.price_type,
        price.currency,
        computed.minimum.value(),
        price.from,
    )
}

// The computed prices that are not held back so.
fn left_of(
    alloc: Global,
    beside: &Beside<'_>,
    price: &Price,
    prices: &[ComputedPrice],
) -> Result<Vec<ComputedPrice>, AllocError>
    ensures left { IfOk result (λ left. left.items
        ≡ filter (λ c. not (held_by beside.now price.now c)) prices.now) }
    ensures no_more { IfOk result (λ left. length left.items ≤ length prices.now) }
{
    let mut left = Vec::new(alloc);
    for computed in prices {
        if !is_held_by(beside, price, computed) {
            left.push(*computed)?;
        }
    }
    Ok(left)
}

fn is_free(price: &ComputedPrice) -> bool
    ensures { result ≡ (price.now.amount == 0) }
{
    price.amount.thousandths() == 0
}

// The prices of more than nothing.
fn written_of(alloc: Global, left: &[ComputedPrice]) -> Result<Vec<ComputedPrice>, AllocError>
    ensures { IfOk result
        (λ written. written.items ≡ filter (λ c. not (c.amount == 0)) left.now) }
{
    let mut written = Vec::new(alloc);
    for price in left {
        if !is_free(price) {
            written.push(*price)?;
        }
    }
    Ok(written)
}

// Whether one of some prices is nothing.
fn has_free(prices: &[ComputedPrice]) -> bool {
    prices.iter().any(|price| is_free(price))
}

// Whether no term fits a price for whose type and currency the table has one.
fn is_unfitted(terms: &Terms, term: Option<&Term>, given: &GivenPrice) -> bool {
    match term {
        Some(_) => false,
        None => terms.is_for(given),
    }
}

// The computed prices of a Price that are not held back.
fn left_beside(
    alloc: Global,
    beside: &Beside<'_>,
    given: &GivenPrice,
    prices: &[ComputedPrice],
) -> Result<Vec<ComputedPrice>, AllocError>
    ensures left { IfOk result (λ left. left.items
        ≡ filter (λ c. not (is_held_beside beside.now given.now c)) prices.now) }
    ensures no_more { IfOk result (λ left. length left.items ≤ length prices.now) }
{
    let is_barred = is_barred(alloc, beside.barred, given)?;
    if is_barred {
        return Ok(Vec::new(alloc));
    }
    left_of(alloc, beside, &given.price, prices)
}

// What comes of a Price of a supplier beside what its SupplyDetail gives.
fn outcome_of(
    alloc: Global,
    terms: &Terms,
    supplier: Option<&Text>,
    beside: &Beside<'_>,
    given: &GivenPrice,
) -> Result<Outcome, AllocError>
    ensures { IfOk result (λ o. o.written.items
        ≡ written_of terms.now (option_copied supplier.entry) (is_held_beside beside.now)
        given.now) }
{
    let term = terms.fitting(supplier, given);
    let is_unfitted = is_unfitted(terms, term, given);
    let computed = computed_by(alloc, term, given)?;
    let left = left_beside(alloc, beside, given, computed.as_slice())?;
    let written = written_of(alloc, left.as_slice())?;
    Ok(Outcome {
        written,
        remarks: Remarks {
            held: computed.len() - left.len(),
            is_free: has_free(left.as_slice()),
            is_unfitted,
        },
    })
}

// The minimum order quantity, where it is above 1.
fn push_minimum(fields: &mut FieldBuffer, minimum: Quantity) -> Result<(), AllocError>
    ensures { OnOk result (fields.new ≡ fields.old ++ minimum_fields minimum) }
{
    let minimum = minimum.value();
    if minimum > 1 {
        let mut buffer = Buffer::new();
        fields.push(buffer.format(minimum))?;
    }
    Ok(())
}

// Puts the fields of a computed price in place of what the list had, by those of the price that it
// comes from.
fn fill_computed(
    alloc: Global,
    source: &Record<'_>,
    price: &ComputedPrice,
    fields: &mut FieldBuffer,
) -> Result<(), AllocError>
    requires { 9 ≤ length source.now }
    ensures { OnOk result (fields.new ≡ computed_record source.now price.now) }
{
    let amount = two_decimals(alloc, price.amount)?;
    fields.clear();
    fields.push_record(&source.part(0, 1))?;
    fields.push(price.price_type.as_str())?;
    fields.push(amount.as_str())?;
    fields.push_record(&source.part(3, 9))?;
    push_minimum(fields, price.minimum)
}

/// Adds the records of computed prices behind that of the price that they come from.
pub fn push_computed(
    alloc: Global,
    source: &Record<'_>,
    prices: &[ComputedPrice],
    fields: &mut FieldBuffer,
    records: &mut RecordBuffer,
) -> Result<(), AllocError>
    requires { 9 ≤ length source.now }
    ensures { OnOk result
        (records.new ≡ records.old ++ map (computed_record source.now) prices.now) }
{
    for price in prices {
        fill_computed(alloc, source, price, fields)?;
        records.push(&fields.as_record())?;
    }
    Ok(())
}

// Adds the record of a Price, and behind it those of the prices that are computed of it, and says
// what else comes of it.
fn add_with_computed(
    alloc: Global,
    terms: &Terms,
    supplier: Option<&Text>,
    beside: &Beside<'_>,
    given: &GivenPrice,
    source: &Record<'_>,
    fields: &mut FieldBuffer,
    output: &mut RecordBuffer,
) -> Result<Remarks, AllocError>
    requires { 9 ≤ length source.now }
    ensures { OnOk result (output.new ≡ output.old
        ++ with_computed terms.now (option_copied supplier.entry) (is_held_beside beside.now)
        source.now given.now) }
{
    let outcome = outcome_of(alloc, terms, supplier, beside, given)?;
    output.push(source)?;
    push_computed(alloc, source, outcome.written.as_slice(), fields, output)?;
    Ok(outcome.remarks)
}

/// Adds the records of the Prices of a SupplyDetail, of which the feed gives these, each with those
/// of the prices that are computed of it behind it. What it says of each besides decides nothing, and
/// no clause tells it.
pub fn add_with_terms(
    alloc: Global,
    terms: &Terms,
    supplier: Option<&Text>,
    closed: &[Kind],
    given: &[GivenPrice],
    records: &RecordBuffer,
    output: &mut RecordBuffer,
) -> Result<Vec<Remarks>, AllocError>
    requires { HavePrices records.now given.now }
    ensures { OnOk result (output.new ≡ output.old
        ++ with_terms terms.now (option_copied supplier.entry) closed.now given.now records.now) }
{
    let barred = unfitted_places(alloc, terms, supplier, given)?;
    let beside = Beside {
        closed,
        given,
        barred: barred.as_slice(),
    };
    let mut fields = FieldBuffer::new(alloc);
    let mut remarks = Vec::new(alloc);
    for place in 0..given.len() {
        let remark = add_with_computed(
            alloc,
            terms,
            supplier,
            &beside,
            &given[place],
            &records.record(place),
            &mut fields,
            output,
        )?;
        remarks.push(remark)?;
    }
    Ok(remarks)
}

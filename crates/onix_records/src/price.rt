//! A price: its row, and its record.

ghost use Rattle.std.specs.Prelude.{◌≡◌, ◌++◌, ◌∷◌, [], OnOk, OnErr, map};
ghost use Rattle.onix_records.specs.Gives.{Gives};
ghost use Rattle.onix_records.specs.Price.{minimum_of, price_from, price_of, quantity_or_one, minimum_fields, price_record};
ghost use Rattle.onix_terms.specs.Quantity.{quantity_from};

use crate::fields::{push_amount, push_day, push_territory, read_territory};
use crate::parts::{Header, Price};
use crate::row::{Form, Opening, RowFault};
use crate::term::{read_optional, read_or_default, read_term};
use csv_records::buffer::RecordBuffer;
use csv_records::fields::FieldBuffer;
use itoa::Buffer;
use onix_terms::quantity::Quantity;
use std::alloc::{AllocError, Global};

fn one_copy() -> Result<Quantity, RowFault>
    ensures { Gives result (quantity_from 1) }
{
    let Some(one) = Quantity::from_value(1) else {
        return Err(RowFault::Wrong);
    };
    Ok(one)
}

fn read_quantity_or_one(text: &str) -> Result<Quantity, RowFault>
    ensures { Gives result (quantity_or_one text.now) }
{
    if text.is_empty() {
        return one_copy();
    }
    read_term(text)
}

fn read_minimum(form: Form, fields: &[&str]) -> Result<Quantity, RowFault>
    ensures { Gives result (minimum_of form (map (λ f. f.now) fields.now)) }
{
    let Some((minimum, more)) = fields.split_first() else {
        return one_copy();
    };
    match form {
        Form::One => Err(RowFault::Wrong),
        Form::Two => {
            if !more.is_empty() {
                return Err(RowFault::Wrong);
            }
            read_quantity_or_one(minimum)
        }
    }
}

#[tactic(auto, unfolding(crate::specs::Price::price_from))]
fn make_price(
    alloc: Global,
    header: &Header,
    minimum: Quantity,
    price_type: &str,
    amount: &str,
    currency: &str,
    included: &str,
    regions: &str,
    excluded: &str,
    from: &str,
    until: &str,
) -> Result<Price, RowFault>
    ensures { Gives result
        (price_from header.now minimum price_type.now amount.now currency.now included.now
        regions.now excluded.now from.now until.now) }
{
    let price_type = read_or_default(header.default_type, price_type)?;
    let amount = read_term(amount)?;
    let currency = read_or_default(header.default_currency, currency)?;
    let from = read_optional(from)?;
    let until = read_optional(until)?;
    let territory = read_territory(alloc, included, regions, excluded)?;
    Ok(Price {
        price_type,
        amount,
        currency,
        territory,
        minimum,
        from,
        until,
    })
}

/// The Price that the fields of a record say in a message that begins so: an empty type or currency
/// is the default of the header, an empty territory the world, and form 1 has no minimum.
#[tactic(auto, unfolding(crate::specs::Price::price_of))]
pub fn read_price(alloc: Global, opening: &Opening, fields: &[&str]) -> Result<Price, RowFault>
    ensures { Gives result (price_of opening.now (map (λ f. f.now) fields.now)) }
{
    let [
        price_type,
        amount,
        currency,
        included,
        regions,
        excluded,
        from,
        until,
        more @ ..,
    ] = fields
    else {
        return Err(RowFault::Wrong);
    };
    let minimum = read_minimum(opening.form, more)?;
    make_price(
        alloc,
        &opening.header,
        minimum,
        price_type,
        amount,
        currency,
        included,
        regions,
        excluded,
        from,
        until,
    )
}

// The minimum order quantity, where it is above 1.
fn push_minimum(fields: &mut FieldBuffer, minimum: Quantity) -> Result<(), AllocError>
    ensures { OnOk result (fields.new ≡ fields.old ++ minimum_fields minimum) }
{
    let minimum = minimum.value();
    if minimum > 1 {
        let mut buffer = Buffer::new();
        fields.push(buffer.format(minimum))?;
    }
    Ok(())
}

// Puts the fields of a price's record in place of what the list held.
fn fill_price(alloc: Global, fields: &mut FieldBuffer, price: &Price) -> Result<(), AllocError>
    ensures { OnOk result (fields.new ≡ price_record price.now) }
{
    fields.clear();
    fields.push("Price")?;
    fields.push(price.price_type.as_str())?;
    push_amount(alloc, fields, Some(price.amount))?;
    fields.push(price.currency.as_str())?;
    push_territory(alloc, fields, &price.territory)?;
    push_day(alloc, fields, price.from)?;
    push_day(alloc, fields, price.until)?;
    push_minimum(fields, price.minimum)
}

// Appends the record of a price, or leaves the records as they were. The list takes the record's
// fields, as in each of these calls.
pub(crate) fn append_price(
    alloc: Global,
    fields: &mut FieldBuffer,
    records: &mut RecordBuffer,
    price: &Price,
) -> Result<(), AllocError>
    ensures ok { OnOk result (records.new ≡ records.old ++ price_record price.now ∷ []) }
    ensures err { OnErr result (records.new ≡ records.old) }
{
    fill_price(alloc, fields, price)?;
    records.push(&fields.as_record())
}

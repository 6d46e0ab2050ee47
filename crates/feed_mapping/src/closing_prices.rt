//! Which Prices of a SupplyDetail close others: those that would be written but for their dates.

ghost use Rattle.std.specs.Prelude.{◌≡◌, ◌++◌, IfOk, OnOk, map};
ghost use Rattle.std.specs.Option.{option_to_list};
ghost use Rattle.feed_mapping.specs.PriceTexts.{price_view};
ghost use Rattle.feed_mapping.specs.Prices.{closing_kind, closing_kinds, context_view};

use crate::price_kinds::kind_in;
use crate::price_texts::PriceTexts;
use crate::prices::{PriceContext, early_reason, free_reason, is_nothing, is_taken};
use csv_records::fields::FieldBuffer;
use feed_terms::price::Kind;
use onix_terms::items::Items;
use std::alloc::{AllocError, Global};

// The type and currency of a Price that would be written but for its PriceDates.
fn closing_kind(
    alloc: Global,
    context: &PriceContext<'_, '_, '_>,
    price: &PriceTexts<'_>,
    fields: &mut FieldBuffer,
) -> Result<Option<Kind>, AllocError>
    ensures { IfOk result
        (λ kind. kind ≡ closing_kind (context_view context.now) (price_view price.now)) }
{
    if is_nothing(context, price)
        || price.dated.is_ok()
        || early_reason(None, free_reason(price), price).is_some()
    {
        return Ok(None);
    }
    if is_taken(alloc, context, price, fields)? {
        Ok(Some(kind_in(context.opening, price)))
    } else {
        Ok(None)
    }
}

// Adds the type and currency of a Price that would be written but for its PriceDates.
fn add_closing_kind(
    alloc: Global,
    context: &PriceContext<'_, '_, '_>,
    price: &PriceTexts<'_>,
    fields: &mut FieldBuffer,
    kinds: &mut Items<Kind>,
) -> Result<(), AllocError>
    ensures { OnOk result (kinds.new ≡ kinds.old
        ++ option_to_list (closing_kind (context_view context.now) (price_view price.now))) }
{
    match closing_kind(alloc, context, price, fields)? {
        Some(
            Kind {
                price_type,
                currency,
            },
        ) => kinds.push(Kind {
            price_type,
            currency,
        }),
        None => Ok(()),
    }
}

/// The types and currencies of those Prices of a SupplyDetail that would be written but for their
/// PriceDates. The list takes fields.
pub(crate) fn closing_kinds(
    alloc: Global,
    context: &PriceContext<'_, '_, '_>,
    prices: &[PriceTexts<'_>],
    fields: &mut FieldBuffer,
) -> Result<Items<Kind>, AllocError>
    ensures { IfOk result (λ kinds. kinds
        ≡ closing_kinds (context_view context.now) (map price_view prices.now)) }
{
    let mut kinds = Items::new(alloc);
    let mut rest = prices;
    while let [price, behind @ ..] = rest {
        add_closing_kind(alloc, context, price, fields, &mut kinds)?;
        rest = behind;
    }
    Ok(kinds)
}

//! Which field of a Price the desk does not take.

ghost use Rattle.std.specs.Prelude.{◌≡◌, IfOk};
ghost use Rattle.feed_mapping.specs.PriceViews.{reason_read};
ghost use Rattle.feed_mapping.specs.PriceTexts.{price_view};
ghost use Rattle.feed_mapping.specs.Prices.{field_reasons};
ghost use Rattle.feed_mapping.specs.Records.{first_some};
ghost use Rattle.feed_mapping.specs.Territories.{AreRenamed};

use crate::notes::{Reason, Wrong};
use crate::price_amounts::written_amount;
use crate::price_kinds::kind_in;
use crate::price_texts::PriceTexts;
use crate::records::{first_of, may_be_empty, parsed_quantity, unless};
use crate::territories::{Renamed, area_reason};
use onix_records::row::Opening;
use std::alloc::{AllocError, Global};

/// The first field of a Price that the desk does not take.
pub(crate) fn field_reason<'a>(
    alloc: Global,
    opening: &Opening,
    renamed: &Renamed,
    price: &PriceTexts<'a>,
) -> Result<Option<Reason<'a>>, AllocError>
    ensures { AreRenamed renamed.now (price_view price.now).area
        → IfOk result (λ reason. reason_read reason
        ≡ first_some (field_reasons opening.now (price_view price.now))) }
{
    let amount = written_amount(price.amount);
    let kind = kind_in(opening, price);
    let minimum = price.minimum.unwrap_or(b"");
    let is_minimum = may_be_empty(minimum, parsed_quantity(minimum));
    Ok(first_of(&[
        unless(amount.is_some(), Wrong::Amount, price.amount),
        unless(
            kind.price_type.is_some(),
            Wrong::PriceType,
            price.price_type,
        ),
        unless(kind.currency.is_some(), Wrong::Currency, price.currency),
        area_reason(alloc, &price.area, renamed)?,
        unless(is_minimum, Wrong::Quantity, minimum),
    ]))
}

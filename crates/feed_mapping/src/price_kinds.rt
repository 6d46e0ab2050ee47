//! The price type and the currency of a Price, by which one closes others.

ghost use Rattle.std.specs.Prelude.{◌≡◌};
ghost use Rattle.std.specs.List.{list_any};
ghost use Rattle.feed_mapping.specs.PriceTexts.{price_view};
ghost use Rattle.feed_mapping.specs.Prices.{is_kind, kind_in};

use crate::price_texts::PriceTexts;
use crate::records::{parsed_code, parsed_currency, value_or_default};
use feed_terms::price::Kind;
use onix_records::row::Opening;

// The price type and the currency of a Price.
pub(crate) fn kind_in(opening: &Opening, price: &PriceTexts<'_>) -> Kind
    ensures { result ≡ kind_in opening.now (price_view price.now) }
{
    Kind {
        price_type: value_or_default(
            opening.header.default_type,
            price.price_type,
            parsed_code(price.price_type),
        ),
        currency: value_or_default(
            opening.header.default_currency,
            price.currency,
            parsed_currency(price.currency),
        ),
    }
}

// Whether one of the kinds is this one.
pub(crate) fn has_kind(kind: &Kind, kinds: &[Kind]) -> bool
    ensures { result ≡ list_any (is_kind kind.now) kinds.now }
{
    let mut rest = kinds;
    while let [first, tail @ ..] = rest {
        if kind.price_type.is_some()
            && kind.price_type == first.price_type
            && kind.currency.is_some()
            && kind.currency == first.currency
        {
            return true;
        }
        rest = tail;
    }
    false
}

//! The quantity from which a Price holds.

ghost use Rattle.std.specs.Prelude.{◌≡◌};
ghost use Rattle.feed_mapping.specs.PriceViews.{text_view};
ghost use Rattle.feed_mapping.specs.Prices.{copies_of, greater_of, is_greater};

use crate::records::parsed_quantity;
use onix_terms::quantity::Quantity;

// Whether a quantity is greater than another, where both are quantities.
fn is_greater(one: Option<Quantity>, other: Option<Quantity>) -> bool
    ensures { result ≡ is_greater one other }
{
    match one {
        Some(one) => match other {
            Some(other) => one.value() > other.value(),
            None => false,
        },
        None => false,
    }
}

/// A minimum, or the other one where that is greater or there is none.
pub(crate) fn greater_of<'b>(own: Option<&'b [u8]>, other: Option<&'b [u8]>) -> Option<&'b [u8]>
    ensures { text_view result ≡ greater_of (text_view own.entry) (text_view other.entry) }
{
    let Some(own) = own else {
        return other;
    };
    let Some(other) = other else {
        return Some(own);
    };
    if is_greater(parsed_quantity(other), parsed_quantity(own)) {
        Some(other)
    } else {
        Some(own)
    }
}

/// The number of copies from which a Price holds with this minimum.
pub(crate) fn copies_of(minimum: Option<&[u8]>) -> u32
    ensures { result ≡ copies_of (text_view minimum.entry) }
{
    match minimum {
        None => 1,
        Some(text) => match parsed_quantity(text) {
            Some(quantity) => quantity.value(),
            None => 1,
        },
    }
}

//! Which computed prices are held back by what the feed gives.

ghost use Rattle.std.specs.Prelude.{◌≡◌, ◌&&◌, true};
ghost use Rattle.std.specs.List.{list_any};
ghost use Rattle.std.specs.Option.{option_map_or};
ghost use Rattle.std.specs.Str.{bytes_eq};
ghost use Rattle.price_rules.specs.Current.{is_later};
ghost use Rattle.feed_terms.specs.HeldBack.{is_closed, is_held, is_no_higher, is_of_kind};

use crate::price::{GivenPrice, Kind};
use onix_records::parts::Price;
use onix_terms::code::{Code, Code2, Currency};
use onix_terms::day::Day;

fn is_later(first: Option<Day>, second: Option<Day>) -> bool
    ensures { result ≡ is_later first second }
{
    match (first, second) {
        (None, _) => false,
        (Some(_), None) => true,
        (Some(a), Some(b)) => b < a,
    }
}

// Whether a price from so many copies and from that day on does not outrank another.
fn is_no_higher(minimum: u32, from: Option<Day>, other: u32, other_from: Option<Day>) -> bool
    ensures { result ≡ is_no_higher minimum from other other_from }
{
    if minimum != other {
        return minimum < other;
    }
    !is_later(from, other_from)
}

// Whether a price has this type and currency, and does not outrank one that starts so.
fn is_lower(
    price: &Price,
    price_type: Code2,
    currency: Currency,
    minimum: u32,
    from: Option<Day>,
) -> bool
    ensures { result ≡ (is_of_kind price_type currency price.now
        && is_no_higher price.now.minimum price.now.from minimum from) }
{
    price_type == price.price_type
        && currency == price.currency
        && is_no_higher(price.minimum.value(), price.from, minimum, from)
}

// Whether a code is none, or the other.
fn may_be<const FIRST: u8, const LAST: u8, const N: usize>(
    one: Option<Code<FIRST, LAST, N>>,
    other: Code<FIRST, LAST, N>,
) -> bool
    ensures { result ≡ option_map_or (bytes_eq other.entry) one.entry true }
{
    match one {
        None => true,
        Some(one) => other == one,
    }
}

// Whether a Price that gives no record has this type and currency, or says none.
fn covers(kind: &Kind, price_type: Code2, currency: Currency) -> bool
    ensures { result ≡ (option_map_or (bytes_eq price_type) kind.now.price_type true
        && option_map_or (bytes_eq currency) kind.now.currency true) }
{
    may_be(kind.price_type, price_type) && may_be(kind.currency, currency)
}

fn is_closed(closed: &[Kind], price_type: Code2, currency: Currency) -> bool
    ensures { result ≡ is_closed price_type currency closed.now }
{
    closed.iter().any(|kind| covers(kind, price_type, currency))
}

// Whether a price of the feed has this type and currency, and does not outrank one that starts so.
fn has_lower(
    given: &[GivenPrice],
    price_type: Code2,
    currency: Currency,
    minimum: u32,
    from: Option<Day>,
) -> bool
    ensures { result ≡ list_any (λ g. is_of_kind price_type currency g.price
        && is_no_higher g.price.minimum g.price.from minimum from) given.now }
{
    given.iter().any(|other| is_lower(&other.price, price_type, currency, minimum, from))
}

/// Whether a price of this type and currency, which is computed from so many copies and from that
/// day on, is held back by what its SupplyDetail gives.
pub(crate) fn is_held(
    closed: &[Kind],
    given: &[GivenPrice],
    price_type: Code2,
    currency: Currency,
    minimum: u32,
    from: Option<Day>,
) -> bool
    ensures { result ≡ is_held closed.now given.now price_type currency minimum from }
{
    is_closed(closed, price_type, currency) || has_lower(given, price_type, currency, minimum, from)
}

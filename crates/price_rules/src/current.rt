//! The current price of an offer.

ghost use Rattle.std.specs.Prelude.{◌≡◌, ◌↔◌, IsTrue};
ghost use Rattle.std.specs.Option.{option_copied};
ghost use Rattle.price_rules.specs.Current.{current};
ghost use Rattle.price_rules.specs.Price.{HasBegun, HasNotEnded, Holds, IsCurrent, IsLater, Outranks};
ghost use Rattle.price_rules.specs.Steps.{IsTurn};

use crate::offer::{Offer, PriceQuery};
use onix_records::parts::Price;
use onix_terms::amount::Amount;
use onix_terms::day::Day;
use onix_terms::territory::Territory;

fn has_begun(from: Option<Day>, day: Day) -> bool
    ensures { IsTrue result ↔ HasBegun from day }
{
    match from {
        None => true,
        Some(first) => first <= day,
    }
}

fn has_not_ended(until: Option<Day>, day: Day) -> bool
    ensures { IsTrue result ↔ HasNotEnded until day }
{
    match until {
        None => true,
        Some(last) => day <= last,
    }
}

// Whether the price holds for the question, in an offer with this market.
fn holds(price: &Price, market: &Territory, query: &PriceQuery) -> bool
    ensures { IsTrue result ↔ Holds market.now query.now price.now }
{
    price.price_type == query.price_type
        && price.currency == query.currency
        && price.minimum <= query.quantity
        && has_begun(price.from, query.day)
        && has_not_ended(price.until, query.day)
        && market.contains(query.country)
        && price.territory.contains(query.country)
}

fn is_later(first: Option<Day>, second: Option<Day>) -> bool
    ensures { IsTrue result ↔ IsLater first second }
{
    match (first, second) {
        (None, _) => false,
        (Some(_), None) => true,
        (Some(a), Some(b)) => b < a,
    }
}

// Whether the price counts before the other.
fn outranks(price: &Price, other: &Price) -> bool
    ensures { IsTrue result ↔ Outranks price.now other.now }
{
    if price.minimum != other.minimum {
        return other.minimum < price.minimum;
    }
    if price.from != other.from {
        return is_later(price.from, other.from);
    }
    price.amount < other.amount
}

// The better of the best price so far and the next one.
fn better<'a>(
    best: Option<&'a Price>,
    price: &'a Price,
    market: &Territory,
    query: &PriceQuery,
) -> Option<&'a Price>
    ensures { IsTurn (Holds market.now query.now) Outranks price.now
        (option_copied best.entry) (option_copied result) }
{
    if !holds(price, market, query) {
        return best;
    }
    match best {
        Some(so_far) if !outranks(price, so_far) => best,
        _ => Some(price),
    }
}

// The price that counts, of all prices of the offer that hold.
fn current_by_scan(offer: &Offer, query: &PriceQuery) -> Option<Amount>
    ensures { IsCurrent offer.now query.now result }
{
    let mut best: Option<&Price> = None;
    for price in offer.prices.as_slice() {
        best = better(best, price, &offer.market, query);
    }
    match best {
        Some(price) => Some(price.amount),
        None => None,
    }
}

/// The current price of the offer for the question: of the prices that hold, that of the greatest
/// minimum quantity, then of the latest From, then the least amount. `None` if no price holds.
pub fn current_price(offer: &Offer, query: &PriceQuery) -> Option<Amount>
    ensures meaning { IsCurrent offer.now query.now result }
    ensures value { result ≡ current offer.now query.now }
{
    current_by_scan(offer, query)
}

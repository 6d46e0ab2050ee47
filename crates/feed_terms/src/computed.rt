//! The prices that a term computes of a price.

ghost use Rattle.std.specs.Prelude.{◌≡◌, ◌<◌, ◌==◌, ℕ, Some, None, OnOk, IfOk, map, max, min, position};
ghost use Rattle.std.specs.Option.{option_copied, unwrap_or};
ghost use Rattle.feed_terms.specs.Computed.{HasPlaces, all_computed, computed_by, computed_with, least_of_each, tax_of, with_least};

use crate::amounts::net_amount;
use crate::percent::Percent;
use crate::price::{Discount, GivenPrice};
use crate::term::{Rate, Term};
use onix_terms::amount::Amount;
use onix_terms::code::Code2;
use onix_terms::quantity::Quantity;
use std::alloc::{AllocError, Global};
use std::collections::BTreeMap;

/// A price that a term computes: of the type of its net prices, from a number of copies on.
#[derive(Clone, Copy, Debug)]
pub struct ComputedPrice {
    pub price_type: Code2,
    pub amount: Amount,
    pub minimum: Quantity,
}

// The percent that a price says, if it does, else none.
fn said_or_zero(said: Option<Percent>) -> u32
    ensures value { result ≡ unwrap_or said 0 }
    ensures below { result < 100_000 }
{
    match said {
        Some(percent) => percent.hundredths(),
        None => 0,
    }
}

// The tax that is taken out, in hundredths of a percent.
fn tax_of(tax: Option<Rate>, said: Option<Percent>) -> u32
    ensures value { result ≡ tax_of tax said }
    ensures below { result < 100_000 }
{
    match tax {
        None => 0,
        Some(rate) => match rate {
            Rate::Fixed(percent) => percent.hundredths(),
            Rate::Feed => said_or_zero(said),
        },
    }
}

fn greater(first: Quantity, second: Quantity) -> Quantity
    ensures { result ≡ max first second }
{
    if first < second { second } else { first }
}

fn lesser(first: Amount, second: Amount) -> Amount
    ensures { result ≡ min first second }
{
    if second < first { second } else { first }
}

// The price that a term computes with a discount.
fn computed_with(term: &Term, given: &GivenPrice, discount: Discount) -> ComputedPrice
    ensures { result ≡ computed_with term.now given.now discount }
{
    ComputedPrice {
        price_type: term.net,
        amount: net_amount(
            given.price.amount,
            tax_of(term.tax, given.tax),
            discount.percent,
        ),
        minimum: greater(given.price.minimum, discount.quantity),
    }
}

// The index of the price from so many copies on.
fn place_of(
    prices: &[ComputedPrice],
    places: &BTreeMap<u32, usize>,
    minimum: Quantity,
) -> Option<usize>
    requires { HasPlaces prices.now places.now }
    ensures { result ≡ position (λ p. p.minimum == minimum) prices.now }
{
    match places.get(&minimum.value()) {
        Some(place) => Some(*place),
        None => None,
    }
}

// Puts the lesser amount at a price from as many copies on.
fn set_least(prices: &mut Vec<ComputedPrice>, place: usize, price: ComputedPrice)
    requires { position (λ p. p.minimum == price.minimum) prices.old.items ≡ Some place }
    ensures prices { prices.new.items ≡ with_least prices.old.items price }
    ensures places { (minimum : ℕ) → position (λ p. p.minimum == minimum) prices.new.items
        ≡ position (λ p. p.minimum == minimum) prices.old.items }
{
    let first = prices[place];
    prices[place] = ComputedPrice {
        price_type: first.price_type,
        amount: lesser(first.amount, price.amount),
        minimum: first.minimum,
    };
}

// Adds a price from another number of copies on.
fn push_new(
    prices: &mut Vec<ComputedPrice>,
    places: &mut BTreeMap<u32, usize>,
    price: ComputedPrice,
) -> Result<(), AllocError>
    requires { HasPlaces prices.old.items places.old
        × (position (λ p. p.minimum == price.minimum) prices.old.items ≡ None) }
    ensures prices { OnOk result (prices.new.items ≡ with_least prices.old.items price) }
    ensures places { OnOk result (HasPlaces prices.new.items places.new) }
{
    let minimum = price.minimum.value();
    let place = prices.len();
    prices.push(price)?;
    places.insert(minimum, place)?;
    Ok(())
}

// Adds a price, or puts the lesser amount at the one from as many copies on.
fn put_least(
    prices: &mut Vec<ComputedPrice>,
    places: &mut BTreeMap<u32, usize>,
    price: ComputedPrice,
) -> Result<(), AllocError>
    requires { HasPlaces prices.old.items places.old }
    ensures prices { OnOk result (prices.new.items ≡ with_least prices.old.items price) }
    ensures places { OnOk result (HasPlaces prices.new.items places.new) }
{
    match place_of(prices.as_slice(), places, price.minimum) {
        Some(place) => {
            set_least(prices, place, price);
            Ok(())
        }
        None => push_new(prices, places, price),
    }
}

// A discount from one copy on.
fn always(percent: Percent) -> Discount
    ensures { result ≡ record { percent = percent; quantity = 1 } }
{
    match Quantity::from_value(1) {
        Some(quantity) => Discount { percent, quantity },
        None => unreachable!(),
    }
}

// The prices that a term computes of a price by the discounts that it says.
fn computed_by_discounts(
    alloc: Global,
    term: &Term,
    given: &GivenPrice,
) -> Result<Vec<ComputedPrice>, AllocError>
    ensures { IfOk result (λ prices. prices.items
        ≡ least_of_each (map (computed_with term.now given.now) given.now.discounts)) }
{
    let mut prices = Vec::new(alloc);
    let mut places = BTreeMap::new(alloc);
    for discount in given.discounts.as_slice() {
        put_least(
            &mut prices,
            &mut places,
            computed_with(term, given, *discount),
        )?;
    }
    Ok(prices)
}

// The prices that a term computes of a price.
fn computed_by_term(
    alloc: Global,
    term: &Term,
    given: &GivenPrice,
) -> Result<Vec<ComputedPrice>, AllocError>
    ensures { IfOk result
        (λ prices. prices.items ≡ least_of_each (all_computed term.now given.now)) }
{
    match term.percent {
        Rate::Fixed(percent) => {
            let mut prices = Vec::new(alloc);
            prices.push(computed_with(term, given, always(percent)))?;
            Ok(prices)
        }
        Rate::Feed => computed_by_discounts(alloc, term, given),
    }
}

/// The prices that are computed of a price by the term that fits it, if there is one.
pub fn computed_by(
    alloc: Global,
    term: Option<&Term>,
    given: &GivenPrice,
) -> Result<Vec<ComputedPrice>, AllocError>
    ensures { IfOk result
        (λ prices. prices.items ≡ computed_by (option_copied term.entry) given.now) }
{
    match term {
        Some(term) => computed_by_term(alloc, term, given),
        None => Ok(Vec::new(alloc)),
    }
}

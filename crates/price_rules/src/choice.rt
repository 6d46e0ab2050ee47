//! The offer that the shop chooses.

ghost use Rattle.std.specs.Prelude.{◌≡◌, ◌↔◌, ◌<◌, ℕ, IsTrue, Contains, IfSome, IfNone, length};
ghost use Rattle.price_rules.specs.Choice.{Admits, Fits, IsBefore, IsBeforeInSeries, IsCheaper, IsChoice, IsLeast, IsRuleCandidate, IsSeries, IsWithin};
ghost use Rattle.price_rules.specs.Chosen.{choice};
ghost use Rattle.price_rules.specs.Steps.{Undercuts};

use crate::current::current_price;
use crate::offer::{Offer, PriceQuery};
use crate::precedence::{Precedence, Rule};
use onix_terms::amount::Amount;
use onix_terms::code::Code2;
use onix_terms::plain::Plain;
use onix_terms::series_name::SeriesName;

/// A chosen offer: the number of the rule, from 1, the index of the offer, from 0, and the
/// offer's current price.
#[derive(Clone, Copy, PartialEq, Eq)]
pub struct Choice {
    pub rule: u32,
    pub offer_index: usize,
    pub amount: Amount,
}

/// A chosen offer: the number of the rule, from 1, the offer, and its current price.
#[derive(Drop)]
pub struct BestOffer {
    pub rule: u32,
    pub offer: Offer,
    pub amount: Amount,
}

fn is_series(series: &Option<SeriesName>, name: &SeriesName) -> bool
    ensures { IsTrue result ↔ IsSeries series.now name.now }
{
    match series {
        None => true,
        Some(wanted) => wanted.is_equal(name),
    }
}

fn has_code(codes: &[Code2], code: Code2) -> bool
    ensures { IsTrue result ↔ Contains codes.now code }
{
    codes.iter().any(|c| *c == code)
}

fn admits(rule: &Rule, offer: &Offer) -> bool
    ensures { IsTrue result ↔ Admits rule.now offer.now }
{
    is_series(&rule.series, &offer.series) && has_code(rule.codes.as_slice(), offer.availability)
}

fn is_within(max: Option<Amount>, amount: Amount) -> bool
    ensures { IsTrue result ↔ IsWithin max amount }
{
    match max {
        None => true,
        Some(most) => amount <= most,
    }
}

// The current price of the offer, where the rule takes it.
fn amount_under(rule: &Rule, offer: &Offer, query: &PriceQuery) -> Option<Amount>
    ensures some { IfSome result (Fits rule.now offer.now query.now) }
    ensures none { IfNone result ((amount : ℕ) → Fits rule.now offer.now query.now amount → ⊥) }
{
    if !admits(rule, offer) {
        return None;
    }
    let amount = current_price(offer, query)?;
    if is_within(rule.max, amount) {
        Some(amount)
    } else {
        None
    }
}

// Whether the offer comes before the other by reference and place.
fn is_before_in_series(offer: &Offer, other: &Offer) -> bool
    ensures { IsTrue result ↔ IsBeforeInSeries offer.now other.now }
{
    if !offer.reference.is_same(&other.reference) {
        return offer.reference.is_before(&other.reference);
    }
    offer.place < other.place
}

// Whether the offer comes before the other by series, reference and place.
fn is_before(offer: &Offer, other: &Offer) -> bool
    ensures { IsTrue result ↔ IsBefore offer.now other.now }
{
    if !offer.series.is_equal(&other.series) {
        return offer.series.is_before(&other.series);
    }
    is_before_in_series(offer, other)
}

fn is_cheaper(amount: Amount, offer: &Offer, than: Amount, other: &Offer) -> bool
    ensures { IsTrue result ↔ IsCheaper (amount, offer.now) (than, other.now) }
{
    if amount != than {
        return amount < than;
    }
    is_before(offer, other)
}

// Whether the offer at this amount comes before the best choice so far.
fn undercuts(best: &Option<Choice>, offers: &[Offer], amount: Amount, offer: &Offer) -> bool
    requires { IfSome best.now (λ b. b.offer_index < length offers.now) }
    ensures { IsTrue result ↔ Undercuts best.now offers.now amount offer.now }
{
    match best {
        None => true,
        Some(so_far) => is_cheaper(amount, offer, so_far.amount, &offers[so_far.offer_index]),
    }
}

// The choice of one rule, which is at this number.
fn choose_by(rule: &Rule, number: u32, offers: &[Offer], query: &PriceQuery) -> Option<Choice>
    ensures { IsLeast (IsRuleCandidate rule.now number offers.now query.now) result }
{
    let mut best: Option<Choice> = None;
    for (offer_index, offer) in offers.iter().enumerate() {
        if let Some(amount) = amount_under(rule, offer, query) {
            if undercuts(&best, offers, amount, offer) {
                best = Some(Choice {
                    rule: number,
                    offer_index,
                    amount,
                });
            }
        }
    }
    best
}

/// The choice of the shop: of the first rule that takes an offer, the offer with the least current
/// price, then the first by series, reference, place and index. `None` if no rule takes an
/// offer.
pub fn choose(precedence: &Precedence, offers: &[Offer], query: &PriceQuery) -> Option<Choice>
    ensures meaning { IsChoice precedence.now offers.now query.now result }
    ensures value { result ≡ choice precedence.now offers.now query.now }
{
    let mut number = 1;
    for rule in precedence.rules() {
        if let Some(choice) = choose_by(rule, number, offers, query) {
            return Some(choice);
        }
        number += 1;
    }
    None
}
